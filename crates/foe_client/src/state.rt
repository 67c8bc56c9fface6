use mailbox_mail::ReplyKind;

/// The first of a service's mails that is not yet sent.
#[derive(Clone, Copy)]
pub enum Unsent {
    /// The request for a file; acknowledgements follow.
    ReadRequest,
    /// The request to write a file; its packets follow.
    WriteRequest,
    /// The packet of this number, with the file's octets from this one on; the last packet is followed by itself.
    Packet { number: u32, from: u32 },
    /// The acknowledgement of the packet of this number; further ones follow.
    Ack { number: u32 },
}

/// What answer comes next.
#[derive(Clone, Copy)]
pub enum Awaits {
    Nothing,
    /// The packet of this number of a file that is read.
    Packet { number: u32 },
    /// The acknowledgement of the packet of this number, with so many further ones behind it. Before the last one busy answers may come.
    Ack { left: u32, number: u32 },
    /// None: the service is over.
    Over(ReplyKind),
}
