//! How far a mail that is passed on has come.

ghost use Rattle.std.specs.Prelude.{◌≡◌, ◌==◌, slice_index};
ghost use Rattle.master_duty.specs.of_ec_fields.Fields.{bits_of};
ghost use Rattle.master_side.specs.Passes.{told_by, written_by, full_by, heard_by, empty_by, status_by};

use crate::carried::Carried;
use crate::hand::Heard;
use ec_fields::bits;

/// How far a mail that is passed on has come.
#[derive(Clone, Copy)]
pub enum Passing {
    /// It was not yet sent.
    Waiting,
    /// It was sent.
    Sent,
    /// Mailbox 0 has taken it.
    Boxed,
    /// Mailbox 0 was seen empty behind that.
    Served,
    /// A reply of it was accepted.
    Answered,
}

/// A mail that was held is sent, for the first time where it is fresh.
pub fn told(passing: Option<Passing>, fresh: bool) -> Option<Passing>
    ensures { result ≡ told_by passing fresh }
{
    match passing {
        Some(Passing::Waiting) if fresh => Some(Passing::Sent),
        other => other,
    }
}

/// A write of mailbox 0 came back with this working counter.
pub fn written(passing: Option<Passing>, counter: u16) -> Option<Passing>
    ensures { result ≡ written_by passing counter }
{
    match passing {
        Some(Passing::Sent) if counter != 0 => Some(Passing::Boxed),
        other => other,
    }
}

/// The status octet of mailbox 0 was read.
pub fn full_seen(passing: Option<Passing>, full: bool) -> Option<Passing>
    ensures { result ≡ full_by passing full }
{
    match passing {
        Some(Passing::Boxed) if !full => Some(Passing::Served),
        other => other,
    }
}

/// A mail was accepted.
pub fn heard(passing: Option<Passing>, heard: Heard) -> Option<Passing>
    ensures { result ≡ heard_by passing heard }
{
    match (passing, heard) {
        (None, _) => None,
        (Some(Passing::Served), Heard::Emission) => None,
        (Some(other), Heard::Emission) => Some(other),
        (Some(_), Heard::More) => Some(Passing::Answered),
        (Some(_), Heard::Last | Heard::Foreign) => None,
    }
}

/// Mailbox 1 was read empty, and its slave has made a step since the last done read of it.
pub fn empty(passing: Option<Passing>) -> Option<Passing>
    ensures { result ≡ empty_by passing }
{
    match passing {
        Some(Passing::Served) => None,
        other => other,
    }
}

/// Whether a status octet says that the mailbox is full.
pub fn is_full(octets: &[u8]) -> bool
    ensures { result ≡ (bits_of (slice_index octets.now 0) 3 1 == 1) }
{
    bits(octets.first().copied().unwrap_or(0) as u16, 3, 1) == 1
}

/// What a status of mailbox 0 makes of a mail that is passed on; another access leaves it.
pub fn status_passed(passing: Option<Passing>, carried: Carried, octets: &[u8]) -> Option<Passing>
    ensures { result ≡ status_by passing carried (bits_of (slice_index octets.now 0) 3 1 == 1) }
{
    match carried {
        Carried::Full => full_seen(passing, is_full(octets)),
        _ => passing,
    }
}
