//! What a life has to repair, frame by frame.

ghost use Rattle.std.specs.Prelude.{◌≡◌, ◌⊎◌, ◌≤◌, ◌<◌, ◌∷◌, [], ℕ, suc, Bool, Option, Some, List};
ghost use Rattle.state_model.specs.of_exchange_model.Exchange.{Speech};
ghost use Rattle.state_model.specs.of_segment_model.Slaves.{Datagram, Found};
ghost use Rattle.state_model.specs.of_segment_model.Record.{News};
ghost use Rattle.life_model.specs.Own.{own};
ghost use Rattle.life_model.specs.Lives.{Opening, Stand, Life, Spot, life_back, life_lost, gives_up};
ghost use Rattle.life_model.specs.Tally.{broken, quiet};
ghost use Rattle.life_model.specs.Repairs.{Way, way_of, half_way, whole_way, opening_rest, IsAt, StandsAt, IsDone, IsAnswered, GoesOn};
ghost use Rattle.life_model.specs.Deadlines.{Standing, deadline, Mends, Lasts, IsTimed, AllMend, repair, patience};

/// THE REPAIR OF A LIFE: each visit that is done takes it one access on, and what is left takes no longer than what was left behind that access. A lost
/// frame leaves it, or breaks what takes no longer than a reopening.
pub fn repair_law<M, Q, R>()
    ensures opening { (x : Speech M Q R) (acknowledged : Q → Bool) (more : M → Bool) (passed : Q → Bool) (slaves pace frame : ℕ) (spot : Spot) (news : List (News M)) (back : List (Datagram M)) (l : Life M Q R) (o : Opening) (done : Bool) (found : Option Found) →
        IsAt l o → IsDone o done found → GoesOn slaves pace (opening_rest slaves pace o.again o.step) (life_back x acknowledged more passed frame spot news back (Some (done, found)) l (Stand.Opens o)) }
    ensures half { (x : Speech M Q R) (acknowledged : Q → Bool) (more : M → Bool) (passed : Q → Bool) (slaves pace frame : ℕ) (spot : Spot) (news : List (News M)) (back : List (Datagram M)) (came : Option (Bool × Option Found)) (l : Life M Q R) (d : Datagram M) (w : Way) →
        own spot.station back ≡ d ∷ [] → let inn = l.era.side.halves.inn in IsAnswered spot.station inn.state inn.bit d → half_way slaves pace inn.state ≡ Some w →
        let m = life_back x acknowledged more passed frame spot news back came l Stand.Open in m.stand ≡ Stand.Open → GoesOn slaves pace w.rest m }
    ensures lost { (x : Speech M Q R) (acknowledged : Q → Bool) (more : M → Bool) (passed : Q → Bool) (slaves pace : ℕ) (spot : Spot) (news : List (News M)) (sent : List (Datagram M)) (l : Life M Q R) → StandsAt l l.stand →
        let m = life_lost x acknowledged more passed spot news sent l l.stand in StandsAt m m.stand × ((way_of slaves pace m ≡ way_of slaves pace l) ⊎ (whole_way slaves pace (way_of slaves pace m) ≤ broken slaves pace)) }
    ensures given_up { (slaves pace recover frame : ℕ) (spot : Spot) (l : Life M Q R) → GoesOn slaves pace (broken slaves pace) (gives_up recover spot frame l) }
{}

/// THE REPAIRS OF A RING END: by each frame that comes back each repair comes a frame nearer to its end, and so does the greatest of them. None takes
/// longer than its accesses, a round each, and the steps that they await.
pub fn deadline_law()
    ensures nearer { (slaves pace : ℕ) (a b : Standing) (w : Way) → IsTimed slaves pace a → IsTimed slaves pace b → a.way ≡ Some w → Mends slaves pace a b w → suc (deadline slaves b) ≤ deadline slaves a }
    ensures most { (slaves pace : ℕ) (s : Standing) → IsTimed slaves pace s → deadline slaves s ≤ whole_way slaves pace s.way }
    ensures lasts { (slaves pace k : ℕ) (a b : Standing) → IsTimed slaves pace a → Lasts slaves pace a k b → k ≤ whole_way slaves pace a.way }
    // The same holds of a slave that has something to gain and nothing to repair.
    ensures patience { (slaves pace : ℕ) → whole_way slaves pace (Some (patience slaves)) ≤ quiet slaves pace }
    ensures ring { (slaves pace : ℕ) (before behind : List Standing) → AllMend slaves pace before behind → (repair slaves behind ≡ 0) ⊎ (suc (repair slaves behind) ≤ repair slaves before) }
{}
