/// What a service came to, as its application answers it.
#[derive(Clone, Copy)]
pub enum ReplyKind {
    /// Carried out; there is no value.
    Done,
    /// Carried out; the value stands beside the reply.
    Value,
    /// Refused with this SDO abort code (CiA 301, "SDO abort codes").
    Abort(u32),
    /// Refused with this FoE error code (ETG.1000.6, "FoE error codes").
    FoeError(u32),
    /// Refused with this SoE error code (ETG.1000.6, "SoE error codes").
    SoeError(u16),
    /// Refused with this EoE result (ETG.1000.6, "EoE result").
    EoeResult(u16),
    /// Refused with a mailbox error of this detail (ETG.1000.4, "Mailbox error").
    MailboxError(u16),
    /// The change of the AL state was refused with this AL status code (ETG.1000.6).
    StateRefused(u16),
    /// Handed over whole; the service has no answer.
    Handed,
}

/// What a mail was to the client that took it.
#[derive(Clone, Copy)]
pub enum Took {
    /// Awaited; the reply isn't complete yet.
    More,
    /// Awaited; it completed the reply.
    Done,
    /// None that the client's state awaits; the client is unchanged.
    Foreign,
}
