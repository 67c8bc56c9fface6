//! One slave of a ring by a frame that came back and gained nothing of it, where its master makes no visit in vain. Definitions and a law, no running code: the
//! function here does nothing, and its contract states the law.

ghost use Rattle.std.specs.Prelude.{◌≡◌, ℕ, Bool, List, Option};
ghost use Rattle.idle_slaves.specs.Eager.{Remembered};
ghost use Rattle.idle_slaves.specs.EagerFrames.{FrameAs, EagerAs, StandsOn};
ghost use Rattle.idle_slaves.specs.Standing.{Standing};
ghost use Rattle.plan_ring.specs.of_exchange_model.Exchange.{Exchange, Speech};
ghost use Rattle.plan_ring.specs.of_life_model.Lives.{Spot, Stand};
ghost use Rattle.plan_ring.specs.of_link_mails.Body.{Body};
ghost use Rattle.plan_ring.specs.of_master_duty.Reply.{Reply};
ghost use Rattle.plan_ring.specs.of_master_hand.Spoken.{Asked};
ghost use Rattle.plan_ring.specs.of_run_frames.Clocks.{Clocked};
ghost use Rattle.plan_ring.specs.of_run_frames.Goes.{Under};
ghost use Rattle.plan_ring.specs.of_run_frames.Waits.{Waits};
ghost use Rattle.plan_ring.specs.of_segment_model.Slaves.{Datagram, Processor, Slave, serving};
ghost use Rattle.plan_ring.specs.of_segment_plan.declared.service.Service as Plan;
ghost use Rattle.plan_ring.specs.of_state_model.Stated.{Service};
ghost use Rattle.plan_ring.specs.of_state_model.States.{Table};

/// AN OPEN SLAVE STANDS SO by each frame that came back and gained nothing of it, where its master makes no visit in vain if more could go on: visited less than
/// twice behind a step since something was gained, it waits yet; else all was done of it before the frame.
pub fn eager_law<V, A>()
    ensures { (ex : Exchange V A Body Asked Reply) (processor : Processor V) (table : Table) (x : Spot → Speech Body Asked Reply) (acknowledged : Asked → Bool) (more : Body → Bool) (passed : Asked → Bool) (number : ℕ) (sent back : List (Datagram Body)) (c : Clocked Body Asked Reply) (u : Under Body Asked Reply) (s s' : Slave V Body) (m n : Remembered) (begun : Option (Service Asked)) (next next' : Option Plan.Service) (t : Waits) →
        (f : FrameAs ex processor table x acknowledged more passed number sent back c u t s s') → EagerAs ex processor table x acknowledged more passed number sent back c u t s s' f m n begun next next' → c.life.stand ≡ Stand.Open → Standing (serving ex) table (x c.spot) acknowledged c.life s m next t →
        StandsOn ex processor table x acknowledged more passed number sent back c u s s' m n next next' t }
{}
