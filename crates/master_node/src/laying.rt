//! Services that are laid ready in the hand of a slave's side.

ghost use Rattle.std.specs.Prelude.{◌≡◌, ◌≤◌, ◌<◌, ◌+◌, suc, length};
ghost use Rattle.life_runs.specs.of_master_hand.declared.laying.Laid.{Laid};
ghost use Rattle.master_node.specs.Kept.{SideKept};

use eoe::Packet;
use mailbox_mail::Mail;
use master_hand::InHand;
use master_side::Side;

/// A packet is laid ready.
pub fn lay_packet(side: &mut Side<InHand>, packet: &Packet)
    requires { 14 ≤ length packet.now.items }
    ensures kept { SideKept side.old.hand.laying.number side.old side.new }
    ensures laid { side.new.hand.laying.laid ≡ Laid.Packet }
    ensures packet { side.new.hand.laying.packet ≡ packet.now.items }
{
    side.hand.lay_packet(packet);
}

/// A mail that is passed on is laid ready, if it fits the slave's mailbox.
pub fn lay_mail(side: &mut Side<InHand>, mail: &Mail)
    ensures kept { SideKept side.old.hand.laying.number side.old side.new }
    ensures laid { 6 + length mail.now.body.items ≤ side.old.out.len → (side.new.hand.laying.laid ≡ Laid.Mail) × (side.new.hand.laying.mail ≡ record { kind = mail.now.kind; body = mail.now.body }) }
{
    if 6 + mail.body.len() <= side.out_len as usize {
        side.hand.lay_mail(mail);
    }
}

/// Nothing is laid ready.
pub fn lay_nothing(side: &mut Side<InHand>)
    ensures kept { SideKept side.old.hand.laying.number side.old side.new }
    ensures laid { side.new.hand.laying.laid ≡ Laid.Nothing }
{
    side.hand.laying.forget();
}

/// The next scripted service is laid ready.
pub fn lay_script(side: &mut Side<InHand>)
    ensures kept { SideKept side.old.hand.laying.number side.old side.new }
    ensures laid { side.new.hand.laying.laid ≡ Laid.Script }
{
    side.hand.lay_script();
}

/// The scripted service behind the next comes next.
pub fn pass_by(side: &mut Side<InHand>)
    ensures kept { side.old.hand.laying.number < length side.old.hand.laying.script → SideKept (suc side.old.hand.laying.number) side.old side.new }
    ensures station { side.new.station ≡ side.old.station }
    ensures sends { (side.new.out ≡ side.old.out) × (side.new.inn ≡ side.old.inn) × (side.new.duty ≡ side.old.duty) × (side.new.passing ≡ side.old.passing) × (side.new.turn ≡ side.old.turn) × (side.new.paused ≡ side.old.paused) × (side.new.carried ≡ side.old.carried) }
    ensures found { side.new.hand.found ≡ side.old.hand.found }
{
    side.hand.pass_by();
}
