//! An open slave isn't in state Init, nor on the way to it, whatever its services are. A law, no running code: the function here does nothing, and its
//! contract states the law.

ghost use Rattle.std.specs.Prelude.{ℕ, List};
ghost use Rattle.slave_lives.specs.of_exchange_model.Exchange.{Exchange};
ghost use Rattle.slave_lives.specs.of_life_model.Eras.{EraIs};
ghost use Rattle.slave_lives.specs.of_life_model.Lives.{Spot, Era};
ghost use Rattle.slave_lives.specs.of_segment_model.Record.{Frame};
ghost use Rattle.slave_lives.specs.of_segment_model.Slaves.{Registers, Processor, Slave};
ghost use Rattle.slave_lives.specs.of_state_model.Stated.{Stated};
ghost use Rattle.slave_lives.specs.of_state_model.States.{Table};
ghost use Rattle.slave_lives.specs.of_state_model.Steady.{AsksNoInit, IsSteady};

/// AN EPOCH IN WHICH NO STATE SERVICE ASKS FOR INIT leaves its slave in another state, also of an exchange that owes no laws: by its registers, its account and
/// the frames alone.
pub fn steady_law<V, A, M, Q, R>()
    ensures { (x : Exchange V A M Q R) (s : Stated V A Q) (processor : Processor V) (table : ℕ → Table) (spot : Spot) (e : Era M Q R) (opened end : ℕ) (fs : List (Frame M)) (v : V) (r : Registers) (n : Slave V M) →
        EraIs x s processor table spot e opened end fs v r n → AsksNoInit s (x.app v) e.account → IsSteady n }
{}
