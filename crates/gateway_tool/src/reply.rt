use ec_fields::Octets;
use mailbox_mail::ReplyKind;

/// What a service came to, and the value that it brought; there are no octets where it has none.
#[derive(Drop)]
pub struct Reply {
    pub kind: ReplyKind,
    pub value: Octets,
}
