//! What comes next of an open slave is due to a master that passes mails on beside services: it replies to nothing, or to what is in hand, a service or such a
//! mail, with nothing left to tell before it. Definitions and a law, no running code: the function here does nothing, and its contract states the law.

ghost use Rattle.idle_slaves.specs.of_exchange_model.Exchange.{Exchange};
ghost use Rattle.idle_slaves.specs.of_life_model.Lives.{Era, Spot};
ghost use Rattle.idle_slaves.specs.of_slave_model.Hears.{HearsFirst};
ghost use Rattle.served_rings.specs.of_few_replies.Led.{IsLed};
ghost use Rattle.seen_slaves.specs.Brings.{AllAreFair, SeenBringsDue};
ghost use Rattle.idle_slaves.specs.of_segment_model.Record.{Frame};
ghost use Rattle.idle_slaves.specs.of_segment_model.Slaves.{Processor, Registers, Slave};
ghost use Rattle.std.specs.Prelude.{◌≡◌, ◌∷◌, ℕ, Bool, Option, List, []};
ghost use Rattle.idle_slaves.specs.of_life_model.Eras.{planned};
ghost use Rattle.served_rings.specs.of_serving_model.Tagged.{Rowed};
ghost use Rattle.idle_slaves.specs.of_state_model.States.{Table};
ghost use Rattle.served_rings.specs.of_life_counts.Epochs.{IsRun, IsSpeaker, Speaker, between, seeing, seeing_states};
ghost use Rattle.idle_slaves.specs.of_state_model.Tasks.{IsTaskPlan};

/// EACH MAIL THAT A FRAME MORE BRINGS of an open epoch is due to its master, where the client hears first: of services, and of mails that are passed on, each as
/// fair as the laws ask.
pub fn seen_due_law<V, A, M, Q, R, C, T>()
    ensures { (w : Speaker V M Q R C T) → IsSpeaker w → HearsFirst w.exchange → AllAreFair w → (u : Exchange V A M T (Option R)) (processor : Processor V) (seer : Processor (Rowed V M Q)) (table : ℕ → Table) (spot : Spot) → IsRun w u processor seer (table spot.station) →
        (opened : ℕ) (v : V) (r : Registers) → IsTaskPlan (seeing w) (seeing_states w) seer table (planned spot (between v) r ∷ []) → r.station ≡ spot.station →
        (fs : List (Frame M)) (counts : Bool) (e : Era M T (Option R)) (n : Slave V M) → IsLed u w.naming.acknowledged processor w.naming.more w.naming.passed spot opened v r fs counts e n → SeenBringsDue w u spot fs e n }
{}
