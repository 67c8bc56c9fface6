//! What a master says of the newest service of a slave, by what it has of it.

ghost use Rattle.std.specs.Prelude.{◌≡◌, ◌++◌, true, ℕ, Option, IfOk, OnErr};
ghost use Rattle.life_runs.specs.of_exchange_model.Exchange.{Speech};
ghost use Rattle.life_runs.specs.of_exchange_model.Rows.{Row};
ghost use Rattle.life_runs.specs.of_link_mails.Body.{Body};
ghost use Rattle.life_runs.specs.of_master_duty.Reply.{Reply};
ghost use Rattle.life_runs.specs.of_master_hand.Shown.{Shows, has_reply};
ghost use Rattle.life_runs.specs.of_master_hand.Spoken.{Asked};
ghost use Rattle.master_node.specs.Told.{Tells, has_value, value_in};

use crate::node::MasterNode;
use ec_fields::{NoMemory, Octets};
use mailbox_mail::ReplyKind;
use master_hand::InHand;

/// What became of the newest service by mails of a slave.
#[derive(Clone, Copy)]
pub enum Told {
    /// It has no answer, or none came into hand.
    Waits,
    /// It was answered.
    Answered(ReplyKind),
    /// It passes a mail on, whose replies are handed on one by one: its answer has no value.
    Unknown,
}

// The answer of a service that is answered, with its value.
fn answer_of(hand: &InHand, into: &mut Octets) -> Result<Told, NoMemory>
    requires { has_reply hand.now.course ≡ true }
    ensures told { IfOk result (λ told. (x : Speech Body Asked Reply) (now : Option (Row Body Asked Reply)) → Shows hand.now.course hand.now.which hand.now.clients x now → Tells told into.old into.new now) }
    ensures value { IfOk result (λ told. (x : Speech Body Asked Reply) (now : Option (Row Body Asked Reply)) → Shows hand.now.course hand.now.which hand.now.clients x now → into.new ≡ into.old ++ value_in now) }
    ensures err { OnErr result (into.new ≡ into.old) }
{
    let Some(kind) = hand.answer() else {
        return Ok(Told::Unknown);
    };
    hand.value(into)?;
    Ok(Told::Answered(kind))
}

// What became of the newest service of a hand.
fn told_of(hand: &InHand, into: &mut Octets) -> Result<Told, NoMemory>
    ensures told { IfOk result (λ told. (x : Speech Body Asked Reply) (now : Option (Row Body Asked Reply)) → Shows hand.now.course hand.now.which hand.now.clients x now → Tells told into.old into.new now) }
    ensures value { IfOk result (λ told. (x : Speech Body Asked Reply) (now : Option (Row Body Asked Reply)) → Shows hand.now.course hand.now.which hand.now.clients x now → into.new ≡ into.old ++ value_in now) }
    ensures err { OnErr result (into.new ≡ into.old) }
{
    if !hand.is_answered() {
        return Ok(Told::Waits);
    }
    answer_of(hand, into)
}

// Whether an answer has a value.
fn has_value(answer: Option<ReplyKind>) -> bool
    ensures { result ≡ has_value answer }
{
    matches!(answer, Some(ReplyKind::Value))
}

impl MasterNode {
    ghost use Rattle.std.specs.Prelude.{◌≡◌, ◌<◌, ℕ, List, IfOk, IfSome, is_some, slice_get, vec_len, false, OnOk, OnErr};
    ghost use Rattle.life_runs.specs.of_frame_view.View.{Lens};
    ghost use Rattle.life_runs.specs.of_life_model.Lives.{Stand};
    ghost use Rattle.life_runs.specs.Led.{Leads};
    ghost use Rattle.master_node.specs.Told.{AppendsValue, HasLeads, Tells, answer_at, has_value};

    /// How many scripted services of a slave came into hand.
    pub fn scripted(&self, slave: u32) -> u32
        requires { slave < vec_len self.now.posts }
        ensures { (lens : ℕ → Lens) (recover : ℕ) (as' : List Leads) → HasLeads lens recover self.now as' → IfSome (slice_get as' slave) (λ a. result ≡ a.number) }
    {
        self.tour.stops[slave as usize].side.hand.number()
    }

    /// Whether a change of state is in hand of a slave that is open.
    pub fn changes_state(&self, slave: u32) -> bool
        requires { slave < vec_len self.now.posts }
        ensures { (lens : ℕ → Lens) (recover : ℕ) (as' : List Leads) → HasLeads lens recover self.now as' → IfSome (slice_get as' slave) (λ a. a.lived.life.stand ≡ Stand.Open → result ≡ is_some a.lived.life.era.account.hand) }
    {
        self.tour.stops[slave as usize]
            .side
            .state_in_hand()
            .is_some()
    }

    /// What became of the newest service by mails of a slave that is open. The value of its answer is appended.
    pub fn told(&self, slave: u32, into: &mut Octets) -> Result<Told, NoMemory>
        requires { slave < vec_len self.now.posts }
        ensures { IfOk result (λ told. (lens : ℕ → Lens) (recover : ℕ) (as' : List Leads) → HasLeads lens recover self.now as' →
            IfSome (slice_get as' slave) (λ a. a.lived.life.stand ≡ Stand.Open → Tells told into.old into.new a.lived.life.era.side.now)) }
    {
        told_of(&self.tour.stops[slave as usize].side.hand, into)
    }

    /// Appends the value of the slave's last answer, nothing where that has none. It stays until the slave's next service begins, or its
    /// mailboxes do anew. After `NoMemory` the list is as before.
    pub fn value(&self, slave: u32, into: &mut Octets) -> Result<(), NoMemory>
        ensures none { OnOk result (has_value (answer_at self.now.posts.items slave) ≡ false → into.new ≡ into.old) }
        ensures value { OnOk result (AppendsValue slave self.now into.old into.new) }
        ensures err { OnErr result (into.new ≡ into.old) }
    {
        let place = slave as usize;
        if place >= self.posts.len() || place >= self.tour.stops.len() {
            return Ok(());
        }
        if !has_value(self.posts[place].answer) {
            return Ok(());
        }
        told_of(&self.tour.stops[place].side.hand, into)?;
        Ok(())
    }
}
