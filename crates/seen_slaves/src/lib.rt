//! An open slave as another sees its mails and services: its link, what is left of it, and its state services are the same; and what the number of
//! services that it handled tells of them. Definitions and laws, no running code: the functions here do nothing, and their contracts state the laws.
#![tactic(auto)]

pub mod counted_mails;
pub mod seen_dues;
pub mod seen_spent;
pub mod seen_steps;
pub mod served_rows;
pub mod served_waits;
pub mod spent_rows;
pub mod tagged_waits;

ghost use Rattle.idle_slaves.specs.of_exchange_model.Exchange.{Speech};
ghost use Rattle.idle_slaves.specs.of_exchange_model.Rows.{Row, left};
ghost use Rattle.idle_slaves.specs.Going.{IsCome};
ghost use Rattle.idle_slaves.specs.Links.{HasLink};
ghost use Rattle.served_rings.specs.of_few_replies.Erased.{PlanOne, row_seen, side_seen};
ghost use Rattle.idle_slaves.specs.of_segment_model.Laws.{IsSettled};
ghost use Rattle.idle_slaves.specs.of_segment_model.Seats.{Side};
ghost use Rattle.idle_slaves.specs.of_segment_model.Slaves.{Registers, Slave};
ghost use Rattle.served_rings.specs.of_serving_model.Erasing.{slave_as};
ghost use Rattle.idle_slaves.specs.of_state_model.States.{Phase, Table};
ghost use Rattle.std.specs.Prelude.{◌≡◌, ℕ, List, [], map};

/// THE LINK of an open slave: mails that went between its master and it agree with both, also as another sees them, who has other forms of them.
pub fn link_seen<N, M, P, Q, S, R, W, V>()
    ensures { (f : N → M) (g : P → Q) (h : S → R) (server : W → V) (d : Side N P S) (n : Slave W N) → HasLink d n → HasLink (side_seen f g h d) (slave_as f server n) }
{}

/// WHAT IS LEFT TO TELL of a row is as much, where both clients plan it alike.
pub fn left_seen<N, M, P, Q, S, R>()
    ensures { (f : N → M) (g : P → Q) (h : S → R) (y : Speech N P S) (x : Speech M Q R) (r : Row N P S) → PlanOne f g h y x r.service r.heard → left x (row_seen f g h r) ≡ map f (left y r) }
{}

/// A SLAVE IS SETTLED as another sees it just where it is.
pub fn settled_seen<N, M, W, V>()
    ensures to { (f : N → M) (server : W → V) (n : Slave W N) → IsSettled n → IsSettled (slave_as f server n) }
    ensures back { (f : N → M) (server : W → V) (n : Slave W N) → IsSettled (slave_as f server n) → IsSettled n }
{}

/// A STATE SERVICE comes as far, whatever the mails are and the replies.
pub fn come_seen<N, M, S, R>()
    ensures { (table : Table) (target : ℕ) (phase : Phase) (r : Registers) → IsCome N S table target phase r → IsCome M R table target phase r }
{}
