ghost use Rattle.std.specs.Prelude.{◌≡◌, [], None};

use arrayvec::ArrayVec;
use ec_fields::Octets;
use eoe::Packet;
use mailbox_mail::ReplyKind;
use std::alloc::Global;

/// What a service came to, and the value that it brought: octets as the protocol has them, none where there is no value.
#[derive(Drop)]
pub struct Reply {
    pub kind: ReplyKind,
    pub value: Octets,
}

/// What a service makes a slave send of itself.
#[derive(Drop)]
pub enum Emission {
    /// An emergency: error code, error register and 5 octets (ETG.1000.6, "Emergency").
    Emergency(ArrayVec<u8, 8>),
    /// An Ethernet packet of 14 to 1,514 octets.
    Packet(Packet),
}

/// A service that was carried out or refused: its reply, and what the slave sends of itself.
#[derive(Drop)]
pub struct Performed {
    pub reply: Reply,
    pub emission: Option<Emission>,
}

/// A service of this kind of reply, without a value and an emission.
pub(crate) fn replied(alloc: Global, kind: ReplyKind) -> Performed
    ensures { result ≡ record { reply = record { kind = kind; value = [] }; emission = None } }
{
    Performed {
        reply: Reply {
            kind,
            value: Octets::new(alloc),
        },
        emission: None,
    }
}

/// A service that brought this value.
pub(crate) fn valued(value: Octets) -> Performed
    ensures { result ≡ record { reply = record { kind = ReplyKind.Value; value = value }; emission = None } }
{
    Performed {
        reply: Reply {
            kind: ReplyKind::Value,
            value,
        },
        emission: None,
    }
}
