use crate::station::StationAudit;
use ec_fields::Rows;

/// What an audit comes to.
#[derive(Drop)]
pub enum Verdict {
    /// No datagram breaks a rule: the stations in the order in which their links opened first.
    Yes(Rows<StationAudit>),
    /// The first datagram that breaks a rule stands in this packet, counted from 0, and `rule` is the first rule
    /// that it breaks, by its number: 1, a write to mailbox 0 has another length than its area or is no mail; 2, it
    /// differs from the write before, which hasn't returned with working counter 1, or it is a new mail whose counter
    /// isn't the next; 3, a datagram isn't the one that the state of the inward half sends; 4, a working counter is
    /// above 1, or a read brought no mail that is due; 5, the station's link isn't open, which is tried first.
    No { rule: u8, packet: u32 },
}
