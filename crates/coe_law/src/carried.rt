use arrayvec::ArrayVec;
use mailbox_mail::ReplyKind;

/// What a download has made the slave send of itself.
#[derive(Drop)]
pub enum Emission {
    /// An emergency: error code, error register and 5 octets.
    Emergency(ArrayVec<u8, 8>),
    /// An Ethernet packet, 14 to 1,514 octets.
    Packet(ArrayVec<u8, 1514>),
}

/// What a service came to. Its value is the client's.
#[derive(Drop)]
pub struct Carried {
    /// What it replied.
    pub kind: ReplyKind,
    /// What the slave has sent of itself.
    pub emission: Option<Emission>,
    /// How many mails the client has sent for it.
    pub mails: usize,
}
