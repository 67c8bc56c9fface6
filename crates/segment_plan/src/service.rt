use ec_fields::Octets;
use eoe::Packet;
use file_store::Name;
use object_dictionary::SdoService;

/// A service that is addressed to a slave's application.
#[derive(Drop)]
pub enum Service {
    /// One of the services of CoE.
    Sdo(SdoService),
    /// Reads a file (FoE).
    ReadFile {
        name: Name,
        pass: u32,
    },
    /// Writes a file (FoE): 0 to 131,072 octets.
    WriteFile {
        name: Name,
        pass: u32,
        bytes: Octets,
    },
    /// Reads an element of an IDN (SoE); `elements` has its flag.
    ReadIdn {
        drive: u8,
        idn: u16,
        elements: u8,
    },
    /// Writes an element of an IDN (SoE): 1 to 4,096 octets.
    WriteIdn {
        drive: u8,
        idn: u16,
        elements: u8,
        bytes: Octets,
    },
    /// Sets the address block (EoE).
    SetIp {
        block: Octets,
    },
    /// Reads the address block (EoE).
    GetIp,
    /// Asks for an AL state: 1 Init and PreOp again, 2 PreOp, 3 Init and Bootstrap, 4 SafeOp, 8 Op.
    State {
        target: u8,
    },
    /// Hands over a packet (EoE). No scenario has it as a service; it comes from the switch.
    Forward(Packet),
}
