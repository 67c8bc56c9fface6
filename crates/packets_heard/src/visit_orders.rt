//! The order in which a running master goes through its slaves, by places in the ring, and the visits of a tour, by stations. No running code:
//! each function here does nothing, and its contract states a law.

ghost use Rattle.std.specs.Prelude.{◌≡◌, ◌≤◌, ◌<◌, ◌∷◌, [], ℕ, Bool, false, List, Option, None, length, drop, ◌++◌};
ghost use Rattle.slave_server.specs.of_segment_model.Visits.{Stop, IsVisit, carried};
ghost use Rattle.master_node.specs.of_life_model.Tours.{Member, round, is_live_in};
ghost use Rattle.master_node.specs.of_master_tour.Orders.{visits_left, IsNextOf, IsCarried};
ghost use Rattle.packets_heard.specs.Visits.{AreOf, AreApart, IsPlace, GoesThrough, last_station, stations_at, stop_at, Carried};
ghost use Rattle.master_node.specs.of_frame_view.View.{Lens};
ghost use Rattle.master_node.specs.of_life_runs.Led.{Exchanged, Leads, IsLed, Turn, IsLedFrame};
ghost use Rattle.master_node.specs.of_master_tour.Toured.{Tour, visit_of, IsOfTour, new_tour, goes_on, lost_on};
ghost use Rattle.master_node.specs.of_frame_view.Seen.{seen};
ghost use Rattle.master_node.specs.Toured.{turn_share, tour_of};
ghost use Rattle.master_node.specs.Shows.{is_opening_lead};
ghost use Rattle.master_node.specs.declared.node.MasterNode.{MasterNode};
ghost use Rattle.master_node.specs.of_segment_ring.declared.wire.Fate.{Fate};
ghost use Rattle.packets_heard.specs.Toured.{IsToured, IsTourFrame, AreAt, lives_behind, stations_of, visit_stations};

/// BEHIND THE FIRST BRING-UP a frame is a visit of the tour where the master goes through the places of its round as it does: it carries the live
/// slaves one behind the other, at least one, and ends before the first that may not fit.
pub fn round_law()
    ensures round { (size opened : ℕ) (ring : List Stop) (members : List Member) (last : Option ℕ) (visit places : List ℕ) → AreOf ring members → AreApart ring → IsPlace ring last → length ring ≤ opened → 1 ≤ length places →
        GoesThrough size ring members (visits_left false visit opened (length ring) last 0) places → IsVisit size None [] (round ring (last_station ring last) members) (stations_at ring places) }
    // In the first bring-up it is one too: it carries the slave that is brought up.
    ensures first { (size opened : ℕ) (ring : List Stop) (members : List Member) (last : Option ℕ) (visit places : List ℕ) (others round : List Stop) → opened < length ring → 1 ≤ length places →
        GoesThrough size ring members (visits_left false visit opened (length ring) last 0) places → IsVisit size None (stop_at ring opened ∷ others) round (stations_at ring places) }
{}

/// NO SLAVE IS CARRIED TWICE by a frame: where each visit is the next of those left, the places carried are different ones, and none of them is
/// among those left, unless the slaves of a lost frame come again.
pub fn once_law()
    ensures { (again under : Bool) (place : ℕ) (left next old new : List ℕ) → Carried again left old → IsNextOf place left next → IsCarried under again place old new → Carried again next new }
{}

/// A RUN WHOSE FRAMES ARE VISITS of one tour is one of frames and lives, with as many lost in a row; and a visit by places is the tour's by stations:
/// the slaves of the lost frame before it, else the one that is brought up, else those of a round.
pub fn toured_law()
    ensures led { (lens : ℕ → Lens) (recover retry : ℕ) (first : List Leads) (fs : List Exchanged) (t : Tour) (as' : List Leads) → IsToured lens recover retry first fs t as' → IsLed lens recover retry first fs t.missed as' }
    ensures stations { (ring : List Stop) (members : List Member) (live : ℕ → Bool) (again : Option (List ℕ)) (opened : ℕ) (last : Option ℕ) → AreOf ring members → AreApart ring → IsPlace ring last → ((k : ℕ) → live k ≡ is_live_in (stop_at ring k).station members) →
        stations_at ring (visit_of live (length ring) again opened last) ≡ visit_stations (stations_of ring again) (drop opened ring) (round ring (last_station ring last) members) }
{}

/// THE STATIONS THAT A FRAME OF SUCH A RUN IS ADDRESSED TO, datagram by datagram, are those of its visit, and it has no other datagram: behind a lost
/// frame just the same again; in the first bring-up the one that is brought up; else the first of a round, and none is left out that would fit.
pub fn stations_law()
    ensures { (lens : ℕ → Lens) (ring : List Stop) (members : List Member) (made : ℕ) (octets : List ℕ) (as' : List Leads) (us : List Turn) (live : ℕ → Bool) (size : ℕ) (area : ℕ → ℕ) (t : Tour) (visit : List ℕ) → length ring ≤ 16 → length us ≡ length ring → AreAt ring 0 us → AreOf ring members → AreApart ring → IsPlace ring t.last →
        ((k : ℕ) → live k ≡ is_live_in (stop_at ring k).station members) → ((k : ℕ) → area k ≡ (stop_at ring k).area) → IsLedFrame lens made octets as' us → IsOfTour (λ u. turn_share u) live size area t us (length (seen lens octets)) visit →
        IsVisit size (stations_of ring t.again) (drop t.opened ring) (round ring (last_station ring t.last) members) (carried ring (seen lens octets)) }
{}

/// THE FRAMES OF A MASTER ARE A RUN OF ONE TOUR, from its begin on, by what it tells of each frame that it makes, and behind its return and its loss.
pub fn master_law()
    ensures begins { (lens : ℕ → Lens) (recover retry : ℕ) (first : List Leads) (m : MasterNode) → tour_of m ≡ new_tour → IsToured lens recover retry first [] (tour_of m) first }
    ensures returns { (lens : ℕ → Lens) (recover retry : ℕ) (first : List Leads) (fs : List Exchanged) (as' : List Leads) (us : List Turn) (f : Exchanged) (m under behind : MasterNode) → IsToured lens recover retry first fs (tour_of m) as' → IsLedFrame lens (length fs) f.sent as' us →
        tour_of under ≡ tour_of m → IsTourFrame lens as' f.sent us (tour_of m) under.tour.visit.items → f.fate ≡ Fate.Pass → tour_of behind ≡ goes_on is_opening_lead (lives_behind lens recover retry m.tour.missed (length fs) f us) (tour_of under) under.tour.visit.items →
        IsToured lens recover retry first (fs ++ f ∷ []) (tour_of behind) (lives_behind lens recover retry m.tour.missed (length fs) f us) }
    ensures loses { (lens : ℕ → Lens) (recover retry : ℕ) (first : List Leads) (fs : List Exchanged) (as' : List Leads) (us : List Turn) (f : Exchanged) (after : ℕ) (m under behind : MasterNode) → IsToured lens recover retry first fs (tour_of m) as' → IsLedFrame lens (length fs) f.sent as' us →
        tour_of under ≡ tour_of m → IsTourFrame lens as' f.sent us (tour_of m) under.tour.visit.items → f.fate ≡ Fate.Lost after → tour_of behind ≡ lost_on is_opening_lead retry (lives_behind lens recover retry m.tour.missed (length fs) f us) (tour_of under) under.tour.visit.items →
        IsToured lens recover retry first (fs ++ f ∷ []) (tour_of behind) (lives_behind lens recover retry m.tour.missed (length fs) f us) }
{}
