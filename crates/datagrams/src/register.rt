//! Addresses of the registers that this stack uses (ETG.1000.4, 6.1 to 6.7), as the ADO of a
//! datagram has them.

/// The station address, 2 octets.
pub const STATION_ADDRESS: u16 = 0x0010;

/// AL control, 2 octets.
pub const AL_CONTROL: u16 = 0x0120;

/// AL status, 2 octets. An access of 6 octets has the AL status code behind it.
pub const AL_STATUS: u16 = 0x0130;

/// AL status code, 2 octets.
pub const AL_STATUS_CODE: u16 = 0x0134;

/// Sync manager 0, 8 octets.
pub const MANAGER_0: u16 = 0x0800;

/// Sync manager 1, 8 octets.
pub const MANAGER_1: u16 = 0x0808;

/// The place of the status octet in a sync manager.
pub const MANAGER_STATUS: u16 = 5;

/// The place of the activate octet in a sync manager.
pub const MANAGER_ACTIVATE: u16 = 6;

/// The place of the PDI control octet in a sync manager.
pub const MANAGER_PDI_CONTROL: u16 = 7;

/// Where the area of mailbox 0 begins, in which the master puts mails.
pub const OUT_AREA: u16 = 0x1000;

/// Where the area of mailbox 1 begins, from which the master takes mails.
pub const IN_AREA: u16 = 0x1800;

/// The control octet of mailbox 0: mailbox mode, written by the master, with an interrupt to the
/// slave's processor.
pub const OUT_CONTROL: u8 = 0x26;

/// The control octet of mailbox 1: mailbox mode, read by the master, with an interrupt to the
/// slave's processor.
pub const IN_CONTROL: u8 = 0x22;
