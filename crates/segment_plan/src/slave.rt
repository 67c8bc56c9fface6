use ec_fields::{Octets, Rows};
use file_store::FileSpec;
use idn_table::IdnSpec;
use object_dictionary::EntrySpec;

/// An object of a slave's dictionary and its entries from subindex 1 on (ETG.1000.6, section 5.6.7).
#[derive(Drop)]
pub struct ObjectSpec {
    /// The index, 1 to 65,535.
    pub index: u16,
    /// The object code: 7 variable, 8 array, 9 record.
    pub code: u8,
    /// The name, 0 to 40 characters from 0x20 to 0x7E.
    pub name: Octets,
    /// The one entry of a variable, or the entries of an array or record from subindex 1 on, 1 to
    /// 254 of them.
    pub entries: Rows<EntrySpec>,
}

/// A slave as a scenario describes it.
#[derive(Drop)]
pub struct SlaveSpec {
    /// The name, 1 to 32 characters from 0x21 to 0x7E.
    pub name: Octets,
    /// The station address, 1 to 65,535.
    pub station: u16,
    /// The length of the mailbox towards the slave in octets, 64 to 1,486.
    pub out_len: u16,
    /// The length of the mailbox from the slave in octets, 64 to 1,486.
    pub in_len: u16,
    /// Whether the slave serves CoE.
    pub coe: bool,
    /// Whether the slave serves FoE.
    pub foe: bool,
    /// Whether the slave serves EoE.
    pub eoe: bool,
    /// Whether the slave serves SoE.
    pub soe: bool,
    /// Whether the slave has the state Bootstrap.
    pub boot: bool,
    /// The AL state in which the slave is brought up: 2 PreOp or 3 Bootstrap.
    pub start: u8,
    /// The blocks of 128 octets that its files share, 1 to 1,024.
    pub blocks: u32,
    /// The MAC address, whose first octet is even; zeros where the slave doesn't serve EoE.
    pub mac: [u8; 6],
    /// Whether the address block can't be set.
    pub fixed_ip: bool,
    /// The objects, at most 256, their indexes rising.
    pub objects: Rows<ObjectSpec>,
    /// The files and their octets, at most 32, each name once.
    pub files: Rows<(FileSpec, Octets)>,
    /// The IDNs, at most 256, each drive and number once.
    pub idns: Rows<IdnSpec>,
}
