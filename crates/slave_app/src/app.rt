ghost use Rattle.std.specs.Prelude.{◌≡◌, IfOk};
ghost use Rattle.slave_server.specs.of_segment_plan.Sound.{IsSlave};
ghost use Rattle.slave_app.specs.New.{app_of};

use ec_fields::{NoMemory, buffer_of};
use eoe::Block;
use file_store::Store;
use idn_table::IdnTable;
use object_dictionary::Objects;
use segment_plan::SlaveSpec;
use std::alloc::Global;

/// The address block of a slave that was told none: no field is set (ETG.1000.6, "EoE set IP parameter").
const NO_ADDRESSES: [u8; 4] = [0; 4];

/// What the services of one slave act on, and what of the slave they ask: the protocols that it serves, its AL state and its addresses.
#[derive(Drop)]
pub struct App {
    /// The object dictionary (CoE).
    pub objects: Objects,
    /// The files, and a version of one that isn't committed (FoE).
    pub files: Store,
    /// The IDNs (SoE).
    pub idns: IdnTable,
    /// The address block (EoE).
    pub block: Block,
    /// The MAC address.
    pub mac: [u8; 6],
    /// Whether CoE is served.
    pub coe: bool,
    /// Whether FoE is served.
    pub foe: bool,
    /// Whether EoE is served.
    pub eoe: bool,
    /// Whether SoE is served.
    pub soe: bool,
    /// Whether the slave has the AL state Bootstrap.
    pub boot: bool,
    /// Whether the address block can't be set.
    pub fixed_ip: bool,
    /// The AL state: 1 Init, 2 PreOp, 3 Bootstrap, 4 SafeOp, 8 Op.
    pub al: u8,
    /// How many services by mails were carried out or refused.
    pub handled: u64,
}

impl App {
    /// The application of a slave of a plan, in the AL state in which it starts and before any service: the profile's own objects and the
    /// plan's, its files and IDNs, and an address block of four zero octets. It takes all the memory that downloads and writes fill.
    pub fn new(alloc: Global, spec: &SlaveSpec) -> Result<App, NoMemory>
        requires { IsSlave spec.now }
        ensures { IfOk result (λ app. app ≡ app_of spec.now) }
    {
        let objects = slave_server::objects_of(alloc, spec)?;
        let files = slave_server::store_of(alloc, spec)?;
        let idns = slave_server::idns_of(alloc, spec)?;
        Ok(App {
            objects,
            files,
            idns,
            block: buffer_of(&NO_ADDRESSES),
            mac: spec.mac,
            coe: spec.coe,
            foe: spec.foe,
            eoe: spec.eoe,
            soe: spec.soe,
            boot: spec.boot,
            fixed_ip: spec.fixed_ip,
            al: spec.start,
            handled: 0,
        })
    }
}
