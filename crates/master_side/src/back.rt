//! What came back of a slave's own datagram.

ghost use Rattle.std.specs.Prelude.{◌≡◌, ◌==◌, true, false, length, ℕ, Option};
ghost use Rattle.master_duty.specs.of_ec_fields.Fields.{number_at};
ghost use Rattle.mailbox_master.specs.of_link_mails.Body.{Body};
ghost use Rattle.mailbox_master.specs.of_link_model.Link.{Halves};
ghost use Rattle.mailbox_master.specs.of_link_model.Frames.{Ask};
ghost use Rattle.master_duty.specs.of_segment_model.Slaves.{Access};
ghost use Rattle.master_duty.specs.of_state_model.Accounts.{access_done};
ghost use Rattle.frame_view.specs.View.{found_of, state_found};
ghost use Rattle.master_duty.specs.Stages.{stage_of};
ghost use Rattle.master_duty.specs.Mets.{progress_of, KeepsTarget};
ghost use Rattle.master_duty.specs.Reply.{Reply};
ghost use Rattle.master_side.specs.Carried.{Asks, is_errand, duty_left};
ghost use Rattle.master_side.specs.Heard.{view_in};

use crate::carried::Carried;
use crate::passing::is_full;
use ec_fields::u16_at;
use mailbox_mail::MailView;
use mailbox_master::GotView;
use master_duty::{Duty, Met};

/// The mail that was accepted.
pub fn view_in<'a>(got: Option<GotView<'a>>) -> Option<MailView<'a>>
    ensures { result ≡ view_in got.entry }
{
    match got {
        Some(GotView::Mail(mail)) => Some(mail),
        _ => None,
    }
}

/// What is left of a state service.
pub fn duty_left(met: Met) -> Option<Duty>
    ensures { result ≡ duty_left met }
{
    match met {
        Met::On(duty) => Some(duty),
        Met::Reached | Met::Refused(_) => None,
    }
}

/// What an access that was done makes of a state service.
pub fn duty_met(duty: Duty, carried: Carried, octets: &[u8]) -> Met
    requires { is_errand carried ≡ true }
    ensures done { (h : Halves Body) (due : Option Access) (ask : Ask Body) (access : Access) (counter : ℕ) → Asks carried h due ask access → (counter == 0) ≡ false → (access ≡ Access.ReadState → length octets.now ≡ 6) → progress_of {R = Reply} result ≡ access_done duty.target (stage_of duty.stage) access (found_of access counter octets.now) }
    ensures kept { KeepsTarget duty.target result }
{
    match carried {
        Carried::Full => duty.full_shown(is_full(octets)),
        Carried::Control => duty.word_written(),
        _ => status_met(duty, octets),
    }
}

// What a status that was read makes of it: none that a slave has leaves it.
fn status_met(duty: Duty, octets: &[u8]) -> Met
    ensures done { length octets.now ≡ 6 → progress_of {R = Reply} result ≡ access_done duty.target (stage_of duty.stage) Access.ReadState (state_found (number_at 2 octets.now 0) (number_at 2 octets.now 4)) }
    ensures kept { KeepsTarget duty.target result }
{
    if octets.len() < 6 {
        return Met::On(duty);
    }
    let word = u16_at(octets, 0);
    if word >= 32 {
        return Met::On(duty);
    }
    duty.status_shown(word, u16_at(octets, 4))
}
