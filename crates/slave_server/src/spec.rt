ghost use Rattle.std.specs.Prelude.{◌≡◌, ◌<◌, ◌≤◌, IfOk, OnOk, None, is_some, length};
ghost use Rattle.segment_plan.specs.of_block_pool.Region.{blocks_for};
ghost use Rattle.segment_plan.specs.of_file_store.Files.{file_of};
ghost use Rattle.segment_plan.specs.of_file_store.Stored.{free_now};
ghost use Rattle.segment_plan.specs.Sound.{IsSlave, IsIdn};
ghost use Rattle.slave_server.specs.Spec.{with_file, with_idn, objects_of, files_of, idns_of, addresses_of, server_of, node_of};

use crate::server::{Lengths, Protocols, SlaveServer};
use ec_fields::{NoMemory, Octets, Rows, buffer_of};
use eoe_server::Addresses;
use file_store::{FileSpec, NOT_FOUND, Store};
use idn_table::{IdnSpec, IdnTable};
use object_dictionary::{EntrySpec, Objects};
use segment_plan::{ObjectSpec, SlaveSpec};
use slave_node::SlaveNode;
use std::alloc::Global;

/// The address block of a slave that was told none.
const NO_ADDRESSES: [u8; 4] = [0; 4];

/// A state in which a store is asked whether it has a file.
const PREOP: u8 = 2;

fn copy_of_entry(alloc: Global, entry: &EntrySpec) -> Result<EntrySpec, NoMemory>
    ensures { IfOk result (λ copy. copy ≡ entry.now) }
{
    let name = Octets::copy_of(alloc, entry.name.bytes())?;
    let value = Octets::copy_of(alloc, entry.value.bytes())?;
    Ok(EntrySpec {
        kind: entry.kind,
        access: entry.access,
        least: entry.least,
        most: entry.most,
        min: entry.min,
        max: entry.max,
        name,
        value,
    })
}

fn copy_of_object(alloc: Global, object: &ObjectSpec) -> Result<ObjectSpec, NoMemory>
    ensures { IfOk result (λ copy. copy ≡ object.now) }
{
    let name = Octets::copy_of(alloc, object.name.bytes())?;
    let mut entries = Rows::new(alloc);
    for entry in object.entries.as_slice() {
        entries.add(copy_of_entry(alloc, entry)?)?;
    }
    Ok(ObjectSpec {
        index: object.index,
        code: object.code,
        name,
        entries,
    })
}

/// The object dictionary of a slave of a plan: the profile's own objects and the plan's. It takes the memory of the greatest value of each entry.
pub fn objects_of(alloc: Global, spec: &SlaveSpec) -> Result<Objects, NoMemory>
    requires { IsSlave spec.now }
    ensures { IfOk result (λ objects. objects ≡ objects_of spec.now) }
{
    let mut objects = Objects::new(alloc, spec.eoe)?;
    for object in spec.objects.as_slice() {
        let copy = copy_of_object(alloc, object)?;
        objects.insert(copy.index, copy.code, copy.name, copy.entries)?;
    }
    Ok(objects)
}

fn copy_of_file(file: &FileSpec) -> FileSpec
    ensures { result ≡ file.now }
{
    FileSpec {
        name: buffer_of(file.name.as_slice()),
        pass: file.pass,
        read: file.read,
        write: file.write,
        boot: file.boot,
        busy: file.busy,
    }
}

// Whether a store has a file of this name.
fn has_file(store: &Store, name: &[u8]) -> bool
    ensures { result ≡ is_some (file_of store.now.kept name.now) }
{
    match store.allowed(name, 0, false, PREOP) {
        Some(code) => code != NOT_FOUND,
        None => true,
    }
}

// One file more, where none has its name.
fn add_file(store: &mut Store, file: &FileSpec, octets: &[u8]) -> Result<(), NoMemory>
    requires few { length store.old.kept.files < 32 }
    requires busy { file.now.busy ≤ 15 }
    requires fits { blocks_for (length octets.now) ≤ free_now store.old }
    ensures { OnOk result (store.new ≡ record store.old { kept = with_file (file.now, octets.now) store.old.kept }) }
{
    if has_file(store, file.name.as_slice()) {
        return Ok(());
    }
    store.insert(copy_of_file(file), octets)
}

/// The files of a slave of a plan, in the blocks that they share; of files of one name the first. It takes the memory of all blocks.
pub fn store_of(alloc: Global, spec: &SlaveSpec) -> Result<Store, NoMemory>
    requires { IsSlave spec.now }
    ensures { IfOk result (λ store. store ≡ record { kept = files_of spec.now; part = None }) }
{
    let mut store = Store::new(alloc, spec.blocks)?;
    for (file, octets) in spec.files.as_slice() {
        add_file(&mut store, file, octets.bytes())?;
    }
    Ok(store)
}

// One IDN more, where none has its drive and number.
fn add_idn(idns: &mut IdnTable, idn: &IdnSpec) -> Result<(), NoMemory>
    requires { IsIdn idn.now }
    ensures { OnOk result (idns.new ≡ with_idn idn.now idns.old) }
{
    if idns.has(idn.drive, idn.number) {
        return Ok(());
    }
    idns.insert(idn)
}

/// The IDNs of a slave of a plan; of IDNs of one drive and number the first. It takes the memory of the greatest value of each.
pub fn idns_of(alloc: Global, spec: &SlaveSpec) -> Result<IdnTable, NoMemory>
    requires { IsSlave spec.now }
    ensures { IfOk result (λ idns. idns ≡ idns_of spec.now) }
{
    let mut idns = IdnTable::new(alloc)?;
    for idn in spec.idns.as_slice() {
        add_idn(&mut idns, idn)?;
    }
    Ok(idns)
}

fn addresses_of(spec: &SlaveSpec) -> Addresses
    ensures { result ≡ addresses_of spec.now }
{
    Addresses {
        block: buffer_of(&NO_ADDRESSES),
        mac: buffer_of(&spec.mac),
        fixed: spec.fixed_ip,
    }
}

/// The services of a slave of a plan before any mail: over the profile's own objects and the plan's, its files and its IDNs, with an address
/// block of four zero octets. It takes all the memory that its steps fill.
pub fn server_of(alloc: Global, spec: &SlaveSpec) -> Result<SlaveServer, NoMemory>
    requires { IsSlave spec.now }
    ensures { IfOk result (λ server. server ≡ server_of spec.now) }
{
    let objects = objects_of(alloc, spec)?;
    let store = store_of(alloc, spec)?;
    let idns = idns_of(alloc, spec)?;
    let lengths = Lengths {
        out_len: spec.out_len,
        in_len: spec.in_len,
    };
    let protocols = Protocols {
        has_coe: spec.coe,
        has_foe: spec.foe,
        has_soe: spec.soe,
        has_eoe: spec.eoe,
    };
    let addresses = addresses_of(spec);
    SlaveServer::new(alloc, lengths, protocols, objects, store, idns, addresses)
}

/// A slave of a plan as it is switched on: in Init, with empty mailboxes and nothing carried out. It takes all the memory that its steps fill.
pub fn node_of(alloc: Global, spec: &SlaveSpec) -> Result<SlaveNode<SlaveServer>, NoMemory>
    requires { IsSlave spec.now }
    ensures { IfOk result (λ node. node ≡ node_of spec.now) }
{
    let server = server_of(alloc, spec)?;
    SlaveNode::new(alloc, spec.out_len, spec.in_len, spec.boot, server)
}
