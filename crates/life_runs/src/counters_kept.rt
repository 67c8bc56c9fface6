//! The counters by which a record tells which mails are new are those of the master's side, all along a slave's life: while it is opened, open, given up and
//! opened anew. No running code: the function here does nothing, and its contract states a law.

ghost use Rattle.std.specs.Prelude.{◌≡◌, ◌≤◌, ℕ, Bool, Option, List};
ghost use Rattle.life_runs.specs.Lives.{LifeKept, came_so, lost_so};
ghost use Rattle.master_hand.specs.of_exchange_model.Exchange.{Speech};
ghost use Rattle.master_tour.specs.of_frame_view.Seen.{seen};
ghost use Rattle.master_tour.specs.of_frame_view.View.{Lens};
ghost use Rattle.master_tour.specs.of_life_model.Lives.{Life, Spot, Stand, gives_up, life_back, life_lost, life_next, new_life};
ghost use Rattle.master_tour.specs.of_link_mails.Body.{Body};
ghost use Rattle.master_hand.specs.of_segment_model.Record.{Kept, News, nothing_kept};
ghost use Rattle.master_hand.specs.of_segment_model.Slaves.{Found};
ghost use Rattle.master_hand.specs.of_state_model.Accounts.{Pick, duty_access};
ghost use Rattle.master_tour.specs.of_master_side.declared.carried.Carried.{Carried};
ghost use Rattle.master_tour.specs.of_master_duty.Reply.{Reply};
ghost use Rattle.master_tour.specs.Passing.{StandKept};
ghost use Rattle.master_tour.specs.Under.{Under};
ghost use Rattle.master_tour.specs.declared.stop.Stand as Stop;
ghost use Rattle.master_tour.specs.of_master_side.Counts.{kept_on};

/// They are before the first frame, and stay so: before each frame, by any choice; behind one that came back or was lost, which has at most the slave's own
/// datagram; and where it is given up. So they are those of an open slave's side.
pub fn counters_law<Q>()
    ensures begins { (state : ℕ) → LifeKept {Q = Q} nothing_kept (new_life state) }
    ensures next { (x : Speech Body Q Reply) (acknowledged : Q → Bool) (more : Body → Bool) (passed : Q → Bool) (made : ℕ) (kept : Kept) (l : Life Body Q Reply) (pick : Pick Q) → LifeKept kept l → LifeKept kept (life_next x acknowledged more passed made l l.stand pick) }
    ensures back { (x : Speech Body Q Reply) (acknowledged : Q → Bool) (more : Body → Bool) (passed : Q → Bool) (frame at : ℕ) (under : Bool) (carried : Carried) (spot : Spot) (ns : List (News Body)) (lens : ℕ → Lens) (octets : List ℕ) (came : Option (Bool × Option Found)) (kept : Kept) (l : Life Body Q Reply) →
        1 ≤ spot.station → (l.stand ≡ Stand.Open → Under spot.station at under carried l.era.side.halves (duty_access l.era.account.hand) (seen lens octets)) → LifeKept kept l →
        LifeKept (kept_on l.stand spot.station kept (came_so (seen lens octets))) (life_back x acknowledged more passed frame spot ns (seen lens octets) came l l.stand) }
    ensures lost { (x : Speech Body Q Reply) (acknowledged : Q → Bool) (more : Body → Bool) (passed : Q → Bool) (at : ℕ) (under : Bool) (carried : Carried) (spot : Spot) (ns : List (News Body)) (lens : ℕ → Lens) (octets : List ℕ) (kept : Kept) (l : Life Body Q Reply) →
        1 ≤ spot.station → (l.stand ≡ Stand.Open → Under spot.station at under carried l.era.side.halves (duty_access l.era.account.hand) (seen lens octets)) → LifeKept kept l →
        LifeKept (kept_on l.stand spot.station kept (lost_so (seen lens octets))) (life_lost x acknowledged more passed spot ns (seen lens octets) l l.stand) }
    ensures given { (recover frame : ℕ) (spot : Spot) (kept : Kept) (l : Life Body Q Reply) → LifeKept kept (gives_up recover spot frame l) }
    ensures stands { (stand : Stop.Stand) (kept : Kept) (l : Life Body Q Reply) → (stand ≡ Stop.Stand.Open → l.stand ≡ Stand.Open) → LifeKept kept l → StandKept stand kept l }
{}
