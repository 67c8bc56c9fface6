//! The ring of a plan's slaves, with their services as the master asks for them, and a run of it: the lives that its master leads are lived by the nodes
//! of its slaves. No running code: each function here does nothing, and its contract states a law.
#![tactic(auto)]

ghost use Rattle.whole_ring.specs.of_life_model.Script.{Addressed, AnyLive};
ghost use Rattle.whole_ring.specs.of_life_model.Lives.{Spot, Stand};
ghost use Rattle.run_frames.specs.of_life_runs.First.{lens_of, first_leads};
ghost use Rattle.run_frames.specs.of_life_runs.Led.{Exchanged, Leads, IsLed};
ghost use Rattle.run_frames.specs.of_datagrams.Datagram as Raw;
ghost use Rattle.run_frames.specs.of_datagrams.Frame.{IsFrame, chained};
ghost use Rattle.whole_ring.specs.of_frame_view.View.{Lens};
ghost use Rattle.slave_server.specs.of_link_mails.Body.{Body};
ghost use Rattle.run_frames.specs.of_master_hand.Spoken.{Asked, hand_speech};
ghost use Rattle.slave_server.specs.of_segment_plan.Sound as Plan;
ghost use Rattle.slave_server.specs.of_segment_plan.Sound.{IsPlan};
ghost use Rattle.slave_server.specs.of_segment_plan.declared.plan.Scenario.{Scenario};
ghost use Rattle.slave_server.specs.of_segment_plan.declared.slave.SlaveSpec.{SlaveSpec};
ghost use Rattle.run_frames.specs.of_segment_ring.Ring.{RingState, ring_behind};
ghost use Rattle.run_frames.specs.of_segment_ring.Schedule.{fate_at};
ghost use Rattle.run_frames.specs.of_segment_ring.declared.wire.Fate.{Fate};
ghost use Rattle.plan_ring.specs.Alike.{Alike};
ghost use Rattle.plan_ring.specs.Asked.{is_service, asked};
ghost use Rattle.plan_ring.specs.First.{AllFirst, AllStay, AllOpen, AllBooks, AllAtRest, runs_of, RunEnds};
ghost use Rattle.plan_ring.specs.KeptFirst.{FirstBook};
ghost use Rattle.plan_ring.specs.Lives.{IsKnown, AreLived};
ghost use Rattle.plan_ring.specs.Master.{owed, Under, IsLed as IsLedMember, AllLed, AllUnder, AllBehind, GoesOn};
ghost use Rattle.plan_ring.specs.Plan.{PlanMember, FitsPlan, AllMacs, lens_of, members_of, step};
ghost use Rattle.plan_ring.specs.Real.{real_clearing};
ghost use Rattle.plan_ring.specs.Round.{ring_of, AllRound};
ghost use Rattle.plan_ring.specs.Rows.{IsFirst};
ghost use Rattle.whole_ring.specs.of_slave_lives.Opening as Opening;
ghost use Rattle.slave_server.specs.of_segment_model.Record.{Frame};
ghost use Rattle.slave_server.specs.of_slave_model.Profile.{Profile, IsProfile, areas_of};
ghost use Rattle.slave_server.specs.Serving.{Serving};
ghost use Rattle.slave_server.specs.Spec.{node_of};
ghost use Rattle.slave_server.specs.of_slave_node.Node.{Node, node_passed};
ghost use Rattle.std.specs.Prelude.{◌≡◌, ◌<◌, ◌∷◌, ◌++◌, ℕ, suc, Bool, List, [], map, length};
ghost use Rattle.whole_ring.specs.Members.{MemberIs, IsRing, first_ring};
ghost use Rattle.whole_ring.specs.Turning.{Turn, AllTurn, frame_at, behind_frame, given_up};
ghost use Rattle.whole_ring.specs.Whole.{OwesLaws};

pub mod book_lives;
pub mod due_rows;
pub mod half_asked;
pub mod kept_lives;
pub mod named_lives;
pub mod named_waits;
pub mod open_met;
pub mod plan_dues;
pub mod plan_met;
pub mod plan_rooms;
pub mod quiet_rings;
pub mod ring_clocks;
pub mod run_answers;
pub mod server_lives;
pub mod slave_clocks;

/// The services of a slave of a plan, as the master asks for them, are such as the laws of whole lives speak of; and the master speaks of them as
/// their own client does, but for mails that are passed on.
pub fn asked_whole_law()
    ensures whole { (p : Profile) → IsProfile p → (boot : Bool) (lens : ℕ → Lens) (plan : Opening.Plan) (spot : Spot) → Opening.IsPlan boot lens plan → plan.station ≡ spot.station → plan.start ≡ spot.start → OwesLaws (asked p boot lens) real_clearing plan spot }
    ensures speech { (p : Profile) (boot : Bool) (lens : ℕ → Lens) → Alike is_service (hand_speech (areas_of p)) (asked p boot lens).exchange.speech }
{
    slave_parts::slave_is_lawful();
    crate::server_lives::real_server_law();
}

/// THE LIVES OF A PLAN'S RING begin with the ring that runs; they go on by each frame and step, and where slaves are given up.
pub fn plan_ring_law()
    ensures begins { (plan : Scenario) → Plan.IsPlan plan → AllMacs plan.slaves → IsRing (lens_of plan.slaves) step (FitsPlan plan.slaves) [] (first_ring plan.lose (members_of plan)) (members_of plan) }
    ensures runs { (plan : Scenario) → Plan.IsPlan plan → first_ring plan.lose (members_of plan) ≡ record { nodes = map node_of plan.slaves; paces = plan.paces; lose = plan.lose; number = 0 } }
    ensures turns { (lens : ℕ → Lens) (ss : List SlaveSpec) (more : Body → Bool) (passed : Asked → Bool) (fs : List (Frame Body)) (ring : RingState (Node Serving)) (octets : List ℕ) (ds : List Raw.Datagram) (ms : List PlanMember) (turns : List (Turn Asked)) →
        IsFrame octets (chained ds) → IsRing lens step (FitsPlan ss) fs ring ms → AllTurn more passed lens (length fs) ds ms turns →
        IsRing lens step (FitsPlan ss) (fs ++ frame_at lens ring octets ∷ []) (ring_behind node_passed step ring octets) (behind_frame more passed (length fs) (frame_at lens ring octets) (fate_at ring.lose ring.number) 0 ms turns (chained ds)) }
    ensures gives { (lens : ℕ → Lens) (ss : List SlaveSpec) (fs : List (Frame Body)) (ring : RingState (Node Serving)) (recover frame : ℕ) (ms : List PlanMember) (carried : List Bool) →
        IsRing lens step (FitsPlan ss) fs ring ms → IsRing lens step (FitsPlan ss) fs ring (given_up recover frame ms carried) }
{
    asked_whole_law();
    crate::server_lives::real_server_law();
    crate::server_lives::real_room_law();
}

/// A MASTER OF A PLAN'S RING leads the lives of its slaves: it begins with them, whose services owe the laws; and where the frame under way is its own, and was exchanged with the
/// ring, the lives that it shows behind the frame are lived by the ring's nodes, whether it came back, was lost, or slaves were given up by it.
pub fn master_ring_law()
    ensures begins { (plan : Scenario) → Plan.IsPlan plan → AllMacs plan.slaves → AllLed (members_of plan) }
    ensures goes_on { (more : Body → Bool) (passed : Asked → Bool) (lens : ℕ → Lens) (ss : List SlaveSpec) (gives : Bool) (recover : ℕ) (fs : List (Frame Body)) (ring : RingState (Node Serving)) (octets : List ℕ) (ds : List Raw.Datagram) (ms : List PlanMember) (us : List Under) →
        IsFrame octets (chained ds) → IsRing lens step (FitsPlan ss) fs ring ms → AllLed ms → AllUnder more passed lens (length fs) ds ms us → GoesOn more passed lens ss gives recover fs ring octets ms us }
{
    slave_parts::slave_is_lawful();
}

/// THE BOOK OF EACH SLAVE THAT IS IN ITS FIRST EPOCH: of such a ring's slave, which its master leads, the answers are those that the frames give, the
/// application of its node is what is done of its rows, and where it is settled and nothing is wanted of it, all is done.
pub fn first_book_law()
    ensures { (lens : ℕ → Lens) (ss : List SlaveSpec) (more : Body → Bool) (fs : List (Frame Body)) (place : ℕ) (m : PlanMember) → (i : MemberIs lens step (FitsPlan ss) fs place m) → (led : IsLedMember m) → IsFirst (length fs) m.life → m.life.stand ≡ Stand.Open →
        FirstBook m.services m.clearing m.plan m.spot (owed m i.whole led) led.forgets more m.first m.life fs m.node }
{}

/// A RUN IN WHICH NO SLAVE IS GIVEN UP OR RETURNED TO INIT: each slave stays in its first epoch, from the switch on and by each frame; each that is
/// open has its book; and where nothing is wanted of any and all that is addressed to it came into hand, nothing is left of the run, and all is done.
pub fn first_run_law<P>()
    ensures begins { (plan : Scenario) → AllFirst 0 (members_of plan) }
    ensures goes_on { (more : Body → Bool) (passed : Asked → Bool) (lens : ℕ → Lens) (made : ℕ) (ds : List Raw.Datagram) (gives : Bool) (recover : ℕ) (f : Frame Body) (fate : Fate) (ms : List PlanMember) (us : List Under) (ns : List PlanMember) → (xs : AllUnder more passed lens made ds ms us) →
        AllStay more passed lens made ds gives fate ms us xs → AllBehind more passed gives recover made f fate ms us ns → AllFirst made ms → AllFirst (suc made) ns }
    ensures books { (lens : ℕ → Lens) (ss : List SlaveSpec) (more : Body → Bool) (fs : List (Frame Body)) (ring : RingState (Node Serving)) (ms : List PlanMember) → (lives : IsRing lens step (FitsPlan ss) fs ring ms) → (led : AllLed ms) → AllFirst (length fs) ms → AllOpen lens ss more fs ms →
        AllBooks lens ss more fs 0 ms lives.each led }
    ensures ends { (lens : ℕ → Lens) (ss : List SlaveSpec) (more : Body → Bool) (fs : List (Frame Body)) (ring : RingState (Node Serving)) (ms : List PlanMember) → (lives : IsRing lens step (FitsPlan ss) fs ring ms) → (led : AllLed ms) → (books : AllBooks lens ss more fs 0 ms lives.each led) →
        (as' : List (Addressed Asked)) (host arrived : List P) → AllAtRest lens ss more fs ms as' → (AnyLive (runs_of lens ss more fs 0 ms lives.each led books as') → arrived ≡ host) → RunEnds lens ss more fs 0 ms lives.each led books as' host arrived }
{}

/// A MASTER THAT LEADS THE LIVES of a plan's slaves, by frames that went round their ring, leads lives that the nodes of the ring live: whatever
/// frames are lost, and where slaves are given up, taken up again or returned to Init.
pub fn run_lives_law()
    ensures { (plan : Scenario) → IsPlan plan → IsKnown plan → (fs : List Exchanged) (missed : ℕ) (as' : List Leads) →
        IsLed (lens_of plan.slaves) plan.recover plan.retry (first_leads plan) fs missed as' → AllRound (ring_of plan) fs → AreLived plan fs as' }
{
    plan_ring_law();
    master_ring_law();
}
