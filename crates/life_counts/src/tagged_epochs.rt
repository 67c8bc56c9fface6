//! An epoch in which mails are passed on beside services, led by a master that sees none of what is meant by them, is the same epoch of a session that does.
//! Definitions and laws, no running code: the functions here do nothing, and their contracts state the laws.

ghost use Rattle.std.specs.Prelude.{◌≡◌, ℕ, Bool, true, Option, List, [], ◌∷◌};
ghost use Rattle.master_hand.specs.of_exchange_model.Exchange.{Exchange};
ghost use Rattle.few_replies.specs.of_life_model.Eras.{planned};
ghost use Rattle.few_replies.specs.of_life_model.Lives.{Spot, Era};
ghost use Rattle.few_replies.specs.Led.{IsLed};
ghost use Rattle.master_hand.specs.of_segment_model.Record.{Frame};
ghost use Rattle.master_hand.specs.of_segment_model.Slaves.{Registers, Processor, Slave};
ghost use Rattle.master_hand.specs.of_serving_model.Tagged.{Rowed};
ghost use Rattle.master_hand.specs.of_state_model.States.{Table};
ghost use Rattle.master_hand.specs.of_state_model.Tasks.{IsTaskPlan};
ghost use Rattle.life_counts.specs.Epochs.{Speaker, IsSpeaker, IsRun, IsSeen, AllFair, between, seeing, seeing_states};

/// AN EPOCH IS A SESSION OF SERVICES AND FAIR MAILS, where each mail that was passed on in it is fair: there is what is meant by each of its mails, so that the
/// slave's server takes and gives them as a session does that sees it, and the master's side of the slave is that session's, without it.
pub fn epoch_law<V, A, M, Q, R, C, T>()
    ensures { (w : Speaker V M Q R C T) → IsSpeaker w → (u : Exchange V A M T (Option R)) (processor : Processor V) (seer : Processor (Rowed V M Q)) → (table : ℕ → Table) (spot : Spot) → IsRun w u processor seer (table spot.station) → (opened : ℕ) (v : V) (r : Registers) →
        IsTaskPlan (seeing w) (seeing_states w) seer table (planned spot (between v) r ∷ []) → r.station ≡ spot.station → (fs : List (Frame M)) (counts : Bool) (e : Era M T (Option R)) (n : Slave V M) →
        IsLed u w.naming.acknowledged processor w.naming.more w.naming.passed spot opened v r fs counts e n → AllFair w e.account.started → IsSeen w seer table spot opened v r fs counts e n }
{}
