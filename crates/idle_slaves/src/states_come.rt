//! The state service in hand of an open epoch, and the registers of its slave. A definition and laws, no running code: the function here does nothing,
//! and its contract states the laws.

ghost use Rattle.std.specs.Prelude.{◌≡◌, ℕ, List, Option, Some};
ghost use Rattle.plan_ring.specs.of_exchange_model.Exchange.{Exchange, IsLawful};
ghost use Rattle.idle_slaves.specs.Going.{IsCome};
ghost use Rattle.plan_ring.specs.of_life_model.Eras.{EraIs};
ghost use Rattle.plan_ring.specs.of_life_model.Lives.{Spot, Era};
ghost use Rattle.plan_ring.specs.of_segment_model.Record.{Frame};
ghost use Rattle.plan_ring.specs.of_segment_model.Slaves.{Processor, Registers, Slave};
ghost use Rattle.plan_ring.specs.of_state_model.Stated.{Stated, IsStated};
ghost use Rattle.plan_ring.specs.of_state_model.States.{Table, Phase};
ghost use Rattle.plan_ring.specs.of_state_model.Accounts.{Duty, Stage};
ghost use Rattle.idle_slaves.specs.Steps.{NotGone, StepsAlone};

/// OF AN OPEN EPOCH a state service past its drain and its slave's registers are come to by events of state services; and while none is past its drain, a
/// step of the slave's processor is one of its mailboxes alone, with the AL state that stands.
pub fn states_come_law<V, A, M, Q, R>()
    ensures comes { (x : Exchange V A M Q R) (s : Stated V A Q) (processor : Processor V) (table : ℕ → Table) (spot : Spot) (e : Era M Q R) (opened last : ℕ) (fs : List (Frame M)) (v : V) (r : Registers) (slave : Slave V M) (duty : Duty) (phase : Phase) →
        EraIs x s processor table spot e opened last fs v r slave → e.account.hand ≡ Some duty → duty.stage ≡ Stage.Goes phase → IsCome M R (table spot.station) duty.target phase slave.registers }
    ensures steps { (x : Exchange V A M Q R) (s : Stated V A Q) (processor : Processor V) (table : ℕ → Table) (spot : Spot) (e : Era M Q R) (opened last : ℕ) (fs : List (Frame M)) (v : V) (r : Registers) (slave : Slave V M) →
        IsLawful x → IsStated x s → EraIs x s processor table spot e opened last fs v r slave → StepsAlone x processor (table spot.station) e.account.hand slave }
{}
