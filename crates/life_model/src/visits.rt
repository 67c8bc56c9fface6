//! What the visits of one slave gain, behind a step of it.

ghost use Rattle.std.specs.Prelude.{◌≡◌, ◌⊎◌, ℕ, Bool, None, is_some};
ghost use Rattle.state_model.specs.of_link_model.Slave.{Server};
ghost use Rattle.state_model.specs.of_link_model.Master.{InState};
ghost use Rattle.state_model.specs.of_link_model.Link.{Link};
ghost use Rattle.state_model.specs.of_link_model.Agree.{Agrees};
ghost use Rattle.state_model.specs.of_link_model.Gains.{HasStepped, NothingLeft};
ghost use Rattle.life_model.specs.Visits.{mails_visit, drain_visit, visit_gain, visited, steps, is_full, next_mails};

/// OF TWO VISITS BEHIND A STEP ONE GAINS, with nothing to repair: a write in vain leaves a mail in mailbox 1 for the read that follows, and a read in
/// vain leaves mailbox 0 empty for the write. Or the slave has nothing left, and no mail is held.
pub fn visit_law<B, S>()
    ensures mails { (v : Server B S) (w : Link B S) (paused : Bool) (k : ℕ) → Agrees w → HasStepped v w.node → w.halves.inn.state ≡ InState.Clear →
        let visit = mails_visit paused (is_some w.halves.out.holding) in visit_gain w visit ≡ 0 →
        (let u = steps v k (visited v w visit) in visit_gain u (next_mails u visit) ≡ 1) ⊎ (NothingLeft v w × (w.halves.out.holding ≡ None)) }
    // Where mailbox 0 is to be seen empty, one of two gains in any case.
    ensures drain { (v : Server B S) (w : Link B S) (turn : Bool) (k : ℕ) → Agrees w → HasStepped v w.node → w.halves.inn.state ≡ InState.Clear → visit_gain w (drain_visit turn) ≡ 0 →
        visit_gain (steps v k (visited v w (drain_visit turn))) (drain_visit (is_full (drain_visit turn))) ≡ 1 }
{}
