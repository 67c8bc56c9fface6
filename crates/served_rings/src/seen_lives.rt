//! A life in which mails are passed on beside services, as its master leads it, is worked by sessions that see what is meant by its mails. Definitions and
//! laws, no running code: the functions here do nothing, and their contracts state the laws.

ghost use Rattle.std.specs.Prelude.{ℕ, Option, List};
ghost use Rattle.served_places.specs.of_exchange_model.Exchange.{Exchange};
ghost use Rattle.served_places.specs.of_life_model.Eras.{EraIs};
ghost use Rattle.served_places.specs.of_life_model.Lives.{Spot, Era, Life};
ghost use Rattle.run_work.specs.of_few_replies.Clearing.{InRow, Forgets};
ghost use Rattle.served_places.specs.of_segment_model.Record.{Frame};
ghost use Rattle.served_places.specs.of_segment_model.Slaves.{Registers, Processor, Slave};
ghost use Rattle.served_places.specs.of_serving_model.Tagged.{Tagged, Asked, Rowed};
ghost use Rattle.served_places.specs.of_state_model.States.{Table};
ghost use Rattle.run_work.specs.of_life_counts.Epochs.{Speaker, IsSpeaker, IsRun, between, seeing, seeing_states};
ghost use Rattle.served_rings.specs.SeenLed.{IsFairLife, IsSeenLife, IsLedLife};

/// AT EACH MOMENT OF SUCH A SESSION its server is between rows or in one: the mails that it took of the row in hand are the first of its service's.
pub fn row_law<V, M, Q, R, C, T>()
    ensures { (w : Speaker V M Q R C T) → IsSpeaker w → (seer : Processor (Rowed V M Q)) (table : ℕ → Table) (spot : Spot) (e : Era (Tagged M Q) (Asked M Q) (Option R)) (opened end : ℕ) (fs : List (Frame (Tagged M Q))) (v : V) (r : Registers)
        (n : Slave (Rowed V M Q) (Tagged M Q)) → EraIs (seeing w) (seeing_states w) seer table spot e opened end fs (between v) r n → InRow w.exchange n.node.server.server }
{}

/// A LIFE THAT ITS MASTER LEADS IS WORKED BY SESSIONS of services and fair mails, where each mail that was passed on in it is fair and a return to Init
/// forgets all unfinished transfers: there is what is meant by each of its mails, and each epoch begins with what the one before carried out, cleared.
pub fn lives_law<V, A, M, Q, R, C, T>()
    ensures { (w : Speaker V M Q R C T) → IsSpeaker w → (seer : Processor (Rowed V M Q)) (table : ℕ → Table) (spot : Spot) (u : Exchange V A M T (Option R)) (processor : Processor V) → IsRun w u processor seer (table spot.station) →
        (clear : V → V) → Forgets w.exchange w.core clear → (first : V) (l : Life M T (Option R)) → IsLedLife w seer table spot u processor clear first l → IsFairLife w l → IsSeenLife w seer table spot clear first l }
{}
