ghost use Rattle.std.specs.Prelude.{◌≡◌, ◌≤◌, [], ◌∷◌, true, false, length, Ok, None, Some, is_some, ⊤, List};
ghost use Rattle.std.specs.Bool.{OnTrue, OnFalse};
ghost use Rattle.coe_client.specs.of_coe_codec.View.{coe_seen};
ghost use Rattle.eoe_client.specs.of_protocol_models.CoeMails.{mail as sdo_mail};
ghost use Rattle.eoe_client.specs.of_protocol_models.CoeOctets.{body_heard as sdo_heard};
ghost use Rattle.eoe_client.specs.of_protocol_models.CoeClient.{is_incomplete as is_sdo_incomplete};
ghost use Rattle.eoe_client.specs.of_protocol_models.SoeOctets.{body_heard as drive_heard};
ghost use Rattle.eoe_client.specs.of_protocol_models.SoeClient.{is_incomplete as is_drive_incomplete};
ghost use Rattle.master_side.specs.of_link_mails.Body.{Body};
ghost use Rattle.master_hand.specs.Spoken.{followed_by};
ghost use Rattle.master_hand.specs.Passed.{body_of, mail_of, passed_left, passed_awaits, PassedTook};

use arrayvec::ArrayVec;
use coe_codec::CoeView;
use ec_fields::refill;
use mailbox_mail::{Kind, Mail, Took};

/// A mail to nobody that isn't counted.
#[derive(Drop)]
pub struct Content {
    /// The protocol of the body.
    pub kind: Kind,
    pub body: ArrayVec<u8, 1480>,
}

impl Content {
    /// One without octets.
    pub fn new() -> Content
        ensures { result.body.items ≡ [] }
    {
        Content {
            kind: Kind::Error,
            body: ArrayVec::new(),
        }
    }

    /// Takes the place of what stands here; only octets of the body are moved.
    pub fn set(&mut self, kind: Kind, body: &[u8])
        requires { length body.now ≤ 1480 }
        ensures kind { self.new.kind ≡ kind }
        ensures body { self.new.body.items ≡ body.now }
    {
        self.kind = kind;
        refill(&mut self.body, body);
    }
}

/// A mail that is passed on as it is, whether it is still to be sent, and whether its last reply came.
#[derive(Drop)]
pub struct PassedMail {
    pub content: Content,
    pub unsent: bool,
    pub over: bool,
}

// Whether a message is a part of SDO information behind which others follow.
fn is_part(message: CoeView<'_>) -> bool
    ensures { result ≡ is_sdo_incomplete (sdo_mail (coe_seen message.entry)) }
{
    matches!(
        message,
        CoeView::Information {
            incomplete: true,
            ..
        }
    )
}

// The same of a CoE body.
fn is_part_in(body: &[u8]) -> bool
    requires { length body.now ≤ 1480 }
    ensures { result ≡ is_sdo_incomplete (sdo_heard body.now) }
{
    match coe_codec::view(body) {
        Ok(message) => is_part(message),
        Err(_) => false,
    }
}

// Whether an SoE body is a fragment behind which others follow.
fn is_fragment_in(body: &[u8]) -> bool
    requires { length body.now ≤ 1480 }
    ensures { result ≡ is_drive_incomplete (drive_heard body.now) }
{
    match soe_codec::view(body) {
        Ok(message) => message.incomplete,
        Err(_) => false,
    }
}

// Whether a reply is followed by others: SDO information and SoE with the incomplete bit are.
fn is_followed(mail: &Mail) -> bool
    ensures { result ≡ followed_by mail.now.kind mail.now.body.items }
{
    let body = mail.body.as_slice();
    match mail.kind {
        Kind::CoE => is_part_in(body),
        Kind::SoE => is_fragment_in(body),
        Kind::Error | Kind::AoE | Kind::EoE | Kind::FoE | Kind::VoE => false,
    }
}

impl PassedMail {
    /// None is passed on.
    pub fn new() -> PassedMail
        ensures { result.content.body.items ≡ [] }
    {
        PassedMail {
            content: Content::new(),
            unsent: false,
            over: true,
        }
    }

    /// Begins to pass on a mail, in place of the one before.
    pub fn start(&mut self, kind: Kind, body: &[u8])
        requires { length body.now ≤ 1480 }
        ensures mails { passed_left self.new ≡ Ok (record { address = 0; kind = kind; counter = 0; body = record { items = body.now } }) ∷ [] }
        ensures body { self.new.content.body.items ≡ body.now }
        ensures open { self.new.over ≡ false }
    {
        self.content.set(kind, body);
        self.unsent = true;
        self.over = false;
    }

    /// Puts the mail in place of what `into` has, once.
    pub fn next_mail(&mut self, into: &mut Content) -> bool
        ensures sends { OnTrue result (passed_left self.old ≡ Ok (mail_of into.new) ∷ passed_left self.new) }
        ensures body { OnTrue result (into.new.body.items ≡ self.old.content.body.items) }
        ensures same { OnFalse result (self.new ≡ self.old) }
        ensures rest { OnFalse result (passed_left self.old ≡ []) }
        ensures kept { (self.new.content ≡ self.old.content) × (self.new.over ≡ self.old.over) }
    {
        if !self.unsent {
            return false;
        }
        into.set(self.content.kind, self.content.body.as_slice());
        self.unsent = false;
        true
    }

    /// Takes a reply: it is the last unless others follow it.
    pub fn take(&mut self, mail: &Mail) -> Took
        ensures took { PassedTook result self.old (body_of mail.now) self.new }
        ensures kept { (self.new.content ≡ self.old.content) × (self.new.unsent ≡ self.old.unsent) }
    {
        if self.over {
            return Took::Foreign;
        }
        if is_followed(mail) {
            return Took::More;
        }
        self.over = true;
        Took::Done
    }
}
