//! A ring with nothing to repair, as the frames of a run are counted; and the state services in hand of its lives. Definitions and laws, no running code: the
//! function here does nothing, and its contract states the laws.

ghost use Rattle.std.specs.Prelude.{◌≡◌, ◌≤◌, ℕ, Bool, List, Option, length};
ghost use Rattle.slave_server.specs.of_exchange_model.Exchange.{Speech};
ghost use Rattle.whole_ring.specs.of_life_model.Lives.{Spot};
ghost use Rattle.run_frames.specs.Clocks.{Clocked, repair_of};
ghost use Rattle.run_frames.specs.Goes.{Under, AllUnder, all_back, all_lost};
ghost use Rattle.run_frames.specs.Orders.{AllRepaired};
ghost use Rattle.slave_server.specs.of_segment_model.Slaves.{Datagram};
ghost use Rattle.plan_ring.specs.Hands.{AllHand};

/// BEHIND THE FIRST BRING-UP nothing is to be repaired of a ring just where nothing is of any slave. And no open slave of a run has a state service in hand
/// that has begun to reopen it, from the first frame on.
pub fn quiet_law<M, Q, R>()
    ensures none { (slowest opened number : ℕ) (last : Option ℕ) (cs : List (Clocked M Q R)) → length cs ≤ opened → repair_of slowest (length cs) opened last number cs ≡ 0 → AllRepaired cs }
    ensures some { (slowest opened number : ℕ) (last : Option ℕ) (cs : List (Clocked M Q R)) → length cs ≤ opened → AllRepaired cs → repair_of slowest (length cs) opened last number cs ≡ 0 }
    ensures back { (x : Spot → Speech M Q R) (acknowledged : Q → Bool) (more : M → Bool) (passed : Q → Bool) (number : ℕ) (sent back : List (Datagram M)) (cs : List (Clocked M Q R)) (us : List (Under M Q R)) →
        AllUnder x acknowledged more passed number sent cs us → AllHand cs → AllHand (all_back x acknowledged more passed number back cs us) }
    ensures lost { (x : Spot → Speech M Q R) (acknowledged : Q → Bool) (more : M → Bool) (passed : Q → Bool) (gives : Bool) (recover number : ℕ) (sent : List (Datagram M)) (cs : List (Clocked M Q R)) (us : List (Under M Q R)) →
        AllUnder x acknowledged more passed number sent cs us → AllHand cs → AllHand (all_lost x acknowledged more passed gives recover number sent cs us) }
{}
