ghost use Rattle.std.specs.Prelude.{◌≡◌, ◌≤◌};
ghost use Rattle.mailbox_mail.specs.Kind.{code_of, kind_of};
ghost use Rattle.mailbox_mail.specs.Counter.{counter_behind};
ghost use Rattle.mailbox_mail.specs.Mail.{error_of};
ghost use Rattle.mailbox_mail.specs.Head.{head_of};

use arrayvec::ArrayVec;

/// The octets of a mail's header.
pub const HEADER: usize = 6;

/// The most octets that a mail's body has.
pub const BODY: usize = 1480;

/// The protocol that a mail carries, the type of its header (ETG.1000.4, "Mailbox header").
#[derive(Clone, Copy)]
pub enum Kind {
    /// Type 0: a mailbox error, with a detail.
    Error,
    /// Type 1: ADS over EtherCAT.
    AoE,
    /// Type 2: Ethernet over EtherCAT.
    EoE,
    /// Type 3: CANopen application protocol over EtherCAT.
    CoE,
    /// Type 4: file access over EtherCAT.
    FoE,
    /// Type 5: servo drive profile over EtherCAT.
    SoE,
    /// Type 15: vendor profile over EtherCAT.
    VoE,
}

impl Kind {
    /// The number that the header has for this protocol.
    pub fn code(self) -> u8
        ensures { result ≡ code_of self }
    {
        match self {
            Kind::Error => 0,
            Kind::AoE => 1,
            Kind::EoE => 2,
            Kind::CoE => 3,
            Kind::FoE => 4,
            Kind::SoE => 5,
            Kind::VoE => 15,
        }
    }

    /// The protocol of a number of the header; `None` for the numbers that have none.
    pub fn of_code(code: u8) -> Option<Kind>
        ensures { result ≡ kind_of code }
    {
        match code {
            0 => Some(Kind::Error),
            1 => Some(Kind::AoE),
            2 => Some(Kind::EoE),
            3 => Some(Kind::CoE),
            4 => Some(Kind::FoE),
            5 => Some(Kind::SoE),
            15 => Some(Kind::VoE),
            _ => None,
        }
    }
}

/// One mail, without channel and priority, which are written as 0 and ignored on reading.
#[derive(Drop)]
pub struct Mail {
    /// The station address; 0 on the segment, the addressed slave's at the gateway.
    pub address: u16,
    /// The protocol of the body.
    pub kind: Kind,
    /// 1 to 7, counted up by each side and beginning again with 1; 0 stands for none.
    pub counter: u8,
    /// The octets of the service, at most 1,480.
    pub body: ArrayVec<u8, 1480>,
}

/// What a mail's header says but the length of the body (ETG.1000.4, "Mailbox header").
#[derive(Clone, Copy)]
pub struct MailHead {
    /// The station address; 0 on the segment.
    pub address: u16,
    /// The protocol of the body.
    pub kind: Kind,
    /// 1 to 7; 0 stands for none.
    pub counter: u8,
}

impl Mail {
    /// The head of this mail.
    pub fn head(&self) -> MailHead
        ensures { result ≡ head_of self.now }
    {
        MailHead {
            address: self.address,
            kind: self.kind,
            counter: self.counter,
        }
    }
}

/// One mail as it stands in an area: its header, and its body where it lies.
#[derive(Clone, Copy)]
pub struct MailView<'a> {
    pub address: u16,
    pub kind: Kind,
    pub counter: u8,
    pub body: &'a [u8],
}

/// Why an area is no mail, in the order in which the parts are looked at.
#[derive(Clone, Copy)]
pub enum MailFault {
    /// Fewer octets than a header has.
    Short,
    /// The body's length exceeds the octets behind the header, or 1,480.
    LengthPastArea,
    /// A type that stands for no protocol.
    UnknownKind,
}

/// The counter behind this one: 0, which stands for none, and 7 are followed by 1.
pub fn next_counter(counter: u8) -> u8
    requires { counter ≤ 7 }
    ensures { result ≡ counter_behind counter }
{
    counter % 7 + 1
}

/// The mailbox error with this detail, addressed to nobody and not yet counted (ETG.1000.4,
/// "Error reply service data").
pub fn error_mail(detail: u16) -> Mail
    ensures { result ≡ error_of detail }
{
    let [low, high] = detail.to_le_bytes();
    Mail {
        address: 0,
        kind: Kind::Error,
        counter: 0,
        body: ec_fields::buffer_of(&[1, 0, low, high]),
    }
}
