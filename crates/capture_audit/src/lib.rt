//! Audits a capture: whether a master's traffic obeys the rules of the mailboxes, what it sent to each station
//! and what it accepted there.
#![tactic(auto)]

mod access;
mod auditing;
mod exchange;
mod known;
mod link;
mod places;
mod rule;
mod station;
mod verdict;

pub use auditing::audit;
pub use station::StationAudit;
pub use verdict::Verdict;
