//! The states of the halves.

use mailbox_mail::Mail;

/// The outward half holds no mail.
#[derive(Drop)]
pub struct Idle;

/// The outward half holds a mail that is not yet known to stand in mailbox 0.
#[derive(Drop)]
pub struct Holding {
    pub mail: Mail,
}

/// Nothing is in doubt: mailbox 1 may be read.
#[derive(Drop)]
pub struct Clear;

/// A read of mailbox 1 was lost: the repeat request, inverted, is to be written.
#[derive(Drop)]
pub struct Doubt;

/// The repeat request was written: its acknowledge is to be read.
#[derive(Drop)]
pub struct Asked;

/// The repeat was acknowledged: mailbox 1 may be read again.
#[derive(Drop)]
pub struct Refetch;
