//! Which slaves a frame carries, and when a slave is given up.

ghost use Rattle.std.specs.Prelude.{◌≡◌, ℕ, zero, suc, None, Some, List, drop};
ghost use Rattle.state_model.specs.of_segment_model.Slaves.{Datagram};
ghost use Rattle.state_model.specs.of_segment_model.Record.{Frame};
ghost use Rattle.state_model.specs.of_segment_model.Visits.{Stop, NeverCarried};
ghost use Rattle.life_model.specs.Tours.{Tour, Visits, HasSpare, item_at};
ghost use Rattle.life_model.specs.Gave.{gave_by, gave_of};

/// A master whose frames are visits gives a slave up just at the frames that frames, fates and the retry limit tell.
pub fn gave_law<M>()
    ensures gives { (size : List (Datagram M) → ℕ) (retry station : ℕ) (ring : List Stop) (t : Tour) (fs : List (Frame M)) → t.again ≡ None → t.missed ≡ zero → Visits size retry ring t fs →
        gave_by retry ring station zero t fs ≡ gave_of retry ring station fs }
    // A slave that may be taken up again so often is given up for good at the next number: no frame behind it carries the slave.
    ensures for_good { (size : List (Datagram M) → ℕ) (retry station : ℕ) (ring : List Stop) (spare g : ℕ) (t : Tour) (fs : List (Frame M)) → t.again ≡ None → t.missed ≡ zero → HasSpare station spare t.members →
        Visits size retry ring t fs → item_at spare (gave_of retry ring station fs) ≡ Some g → NeverCarried ring station (drop (suc g) fs) }
{}
