use mailbox_mail::ReplyKind;
use soe_parts::Subject;

/// What a client is asked.
#[derive(Clone, Copy)]
pub enum Task {
    Nothing,
    Read { subject: Subject },
    Write { subject: Subject },
}

/// What of a service's mails is not yet sent.
#[derive(Clone, Copy)]
pub enum Unsent {
    Nothing,
    /// The request for an element.
    Request,
    /// The octets of a write from here on.
    Octets { from: u32 },
}

/// What answer comes next.
#[derive(Clone, Copy)]
pub enum Awaits {
    Nothing,
    /// The parts of an element, behind those that came.
    Parts,
    /// The answer to a write.
    Answer,
    /// None: the service is over.
    Over(ReplyKind),
}
