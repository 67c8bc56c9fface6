//! How many mails a session has of a slave, by the services that came into hand of it. Definitions and a law, no running code: the function here does
//! nothing, and its contract states the law.

ghost use Rattle.std.specs.Prelude.{◌≡◌, ◌≤◌, ℕ};
ghost use Rattle.few_replies.specs.RowCounts.{AreCounted, rows_mails};
ghost use Rattle.slave_parts.specs.of_segment_model.Seats.{rows_of};
ghost use Rattle.slave_parts.specs.of_state_model.Promise.{PlanSession, OfEach, services_in};
ghost use Rattle.few_replies.specs.Services.{services_count};

/// THE MAILS OF A SLAVE, told and heard in all its rows, are no more than the services count that came into hand of it, by what no service changes of
/// its server: whatever frames are lost, and whatever its AL state. A state service counts one, for its control word.
pub fn task_counts<V, A, M, Q, R, K>()
    ensures { (w : PlanSession V A M Q R) (shape : V → K) (count : K → Q → ℕ) → AreCounted w.exchange shape count → ((state : ℕ) (v : V) → shape (w.states.tell state v) ≡ shape v) →
        OfEach w (λ station start d a n. rows_mails (rows_of d) ≤ services_count (count (shape start)) (services_in a.started)) }
{}
