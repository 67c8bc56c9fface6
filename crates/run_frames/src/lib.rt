//! How the frames of a run count: each lost frame, each that repairs, each that gains; and what of a script came into hand over a run. Definitions
//! and laws, no running code: the functions here do nothing, and their contracts state the laws.
#![tactic(auto)]

pub mod script_answers;
pub mod script_runs;
pub mod script_work;

ghost use Rattle.std.specs.Prelude.{◌≡◌, ◌≤◌, ◌<◌, ℕ, suc, ◌+◌, ◌-◌, ◌*◌, Bool, Option, List, length};
ghost use Rattle.life_runs.specs.of_exchange_model.Exchange.{Speech};
ghost use Rattle.life_runs.specs.First.{lens_of, first_leads};
ghost use Rattle.life_runs.specs.Led.{Exchanged, Leads, IsLed};
ghost use Rattle.life_runs.specs.of_link_mails.Body.{Body};
ghost use Rattle.life_runs.specs.of_master_duty.Reply.{Reply};
ghost use Rattle.life_runs.specs.of_master_hand.Spoken.{Asked};
ghost use Rattle.life_runs.specs.of_segment_model.Slaves.{Datagram};
ghost use Rattle.life_runs.specs.of_segment_plan.Bound.{slowest};
ghost use Rattle.life_runs.specs.of_segment_plan.Sound.{IsPlan};
ghost use Rattle.life_runs.specs.of_segment_plan.declared.plan.Scenario.{Scenario};
ghost use Rattle.life_runs.specs.of_life_model.Lives.{Spot};
ghost use Rattle.life_runs.specs.of_life_model.Tally.{Counts, Counted, new_tally, quiet};
ghost use Rattle.run_frames.specs.Answers.{AllReturned};
ghost use Rattle.run_frames.specs.Begins.{AllNew};
ghost use Rattle.run_frames.specs.Brings.{AllBring};
ghost use Rattle.run_frames.specs.Clocks.{Clocked, gains_all, reopened_all, repair_of, still_behind, tally_of};
ghost use Rattle.run_frames.specs.Goes.{Under, AllUnder, AllClocked, OneUnder, all_back, all_lost};
ghost use Rattle.run_frames.specs.Orders.{IsOpening, IsRound, AllRepaired, last_of};
ghost use Rattle.run_frames.specs.Fates.{AreFated, gained_in, lost_of};
ghost use Rattle.run_frames.specs.Led.{AreLed, IsTallied};
ghost use Rattle.run_frames.specs.Runs.{Progress, IsRun};
ghost use Rattle.run_frames.specs.States.{states_all};
ghost use Rattle.run_frames.specs.Toured.{IsToured, AskIn, AnswerIn, WaitIn};

/// BEFORE THE FIRST FRAME the tally of a ring is new: each slave is brought up by five accesses and the wait for one step, one slave behind the other.
pub fn begins_law<M, Q, R>()
    ensures { (slowest : ℕ) (last : Option ℕ) (cs : List (Clocked M Q R)) → AllNew cs → tally_of slowest (length cs) 0 last 0 0 0 cs ≡ new_tally (length cs * (5 + slowest)) }
{}

/// A LOST FRAME COUNTS AS LOST, whether the slaves that it carried are given up by it or not, in the first bring-up, where it carries one slave at most,
/// and behind it: nothing is gained and none is reopened by a state service, and what is to be repaired takes longer by a reopening at most.
pub fn lost_law<M, Q, R>()
    ensures counts { (x : Spot → Speech M Q R) (acknowledged : Q → Bool) (more : M → Bool) (passed : Q → Bool) (gives : Bool) (recover slowest opened later number lost still : ℕ) (last next : Option ℕ) (sent : List (Datagram M)) (as' : List (Clocked M Q R)) (us : List (Under M Q R)) →
        AllClocked slowest as' → AllUnder x acknowledged more passed number sent as' us → opened ≤ later → (opened < length as' → OneUnder us) →
        Counts (length as') slowest (tally_of slowest (length as') opened last number lost still as') (tally_of slowest (length as') later next (suc number) (suc lost) 0 (all_lost x acknowledged more passed gives recover number sent as' us)) }
    // What stands behind it is a ring's again, with as many slaves.
    ensures clocked { (x : Spot → Speech M Q R) (acknowledged : Q → Bool) (more : M → Bool) (passed : Q → Bool) (gives : Bool) (recover slowest number : ℕ) (sent : List (Datagram M)) (as' : List (Clocked M Q R)) (us : List (Under M Q R)) →
        AllClocked slowest as' → AllUnder x acknowledged more passed number sent as' us → AllClocked slowest (all_lost x acknowledged more passed gives recover number sent as' us) × (length (all_lost x acknowledged more passed gives recover number sent as' us) ≡ length as') }
{}

/// A FRAME THAT CAME BACK COUNTS: a state service began to reopen a slave by it, and gained; or all that is to be repaired comes a frame nearer to its
/// end; or, with nothing to repair, it gained, or it is one of a few in a row that gained nothing, where those are no more than what is quiet.
pub fn returned_law<M, Q, R>()
    // In the first bring-up the frame carries the slave that is brought up; behind it nothing is to be repaired.
    ensures opening { (x : Spot → Speech M Q R) (acknowledged : Q → Bool) (more : M → Bool) (passed : Q → Bool) (slowest opened later number lost still : ℕ) (last next : Option ℕ) (sent back : List (Datagram M)) (as' : List (Clocked M Q R)) (us : List (Under M Q R)) →
        AllClocked slowest as' → AllUnder x acknowledged more passed number sent as' us → AllBring back as' us → opened < length as' → IsOpening us →
        let bs = all_back x acknowledged more passed number back as' us in let many = still_behind (repair_of slowest (length as') opened last number as') as' bs still in
        (length as' ≤ later → AllRepaired bs) → many ≤ quiet (length as') slowest →
        Counts (length as') slowest (tally_of slowest (length as') opened last number lost still as') (tally_of slowest (length as') later next (suc number) lost many bs) }
    // Behind it the frame carries the first live slaves of a round.
    ensures round { (x : Spot → Speech M Q R) (acknowledged : Q → Bool) (more : M → Bool) (passed : Q → Bool) (slowest opened later number lost still : ℕ) (last : Option ℕ) (sent back : List (Datagram M)) (as' : List (Clocked M Q R)) (us : List (Under M Q R)) (ps : List ℕ) →
        AllClocked slowest as' → AllUnder x acknowledged more passed number sent as' us → AllBring back as' us → length as' ≤ opened → length as' ≤ later → IsRound (length as') last as' us ps →
        let bs = all_back x acknowledged more passed number back as' us in let many = still_behind (repair_of slowest (length as') opened last number as') as' bs still in
        many ≤ quiet (length as') slowest → Counts (length as') slowest (tally_of slowest (length as') opened last number lost still as') (tally_of slowest (length as') later (last_of last ps) (suc number) lost many bs) }
    ensures clocked { (x : Spot → Speech M Q R) (acknowledged : Q → Bool) (more : M → Bool) (passed : Q → Bool) (slowest number : ℕ) (sent back : List (Datagram M)) (as' : List (Clocked M Q R)) (us : List (Under M Q R)) →
        AllClocked slowest as' → AllUnder x acknowledged more passed number sent as' us → AllBring back as' us → let bs = all_back x acknowledged more passed number back as' us in AllClocked slowest bs × (length bs ≡ length as') }
{}

/// THE FRAMES OF A RUN COUNT, from the first on: each is lost, repairs, gains, or begins a reopening by a state service, or is one of a few. So at each
/// moment they are fewer than `16 * pace * (slaves + 1)` for each mail told and heard, each step of a state service and each reopening, each lost frame, and
/// two for each slave.
pub fn counts_law<M, Q, R>()
    ensures counted { (x : Spot → Speech M Q R) (acknowledged : Q → Bool) (more : M → Bool) (passed : Q → Bool) (recover slowest : ℕ) (first cs : List (Clocked M Q R)) (p : Progress) → IsRun x acknowledged more passed recover slowest first p cs →
        Counted (length first) slowest (new_tally (length first * (5 + slowest))) (tally_of slowest (length first) p.opened p.last p.frames p.lost p.still cs) }
    ensures within { (x : Spot → Speech M Q R) (acknowledged : Q → Bool) (more : M → Bool) (passed : Q → Bool) (recover slowest work lost : ℕ) (first cs : List (Clocked M Q R)) (p : Progress) → IsRun x acknowledged more passed recover slowest first p cs →
        1 ≤ length first → 1 ≤ slowest → gains_all cs + reopened_all cs ≤ length first + work → p.lost ≤ lost → p.frames < 16 * slowest * (length first + 1) * (work + lost + 2 * length first) }
{}

/// EACH REOPENING THAT A STATE SERVICE BEGAN is of a state service that came into hand: over a run there are no more.
pub fn reopened_law<M, Q, R>()
    ensures { (x : Spot → Speech M Q R) (acknowledged : Q → Bool) (more : M → Bool) (passed : Q → Bool) (recover slowest : ℕ) (first cs : List (Clocked M Q R)) (p : Progress) → IsRun x acknowledged more passed recover slowest first p cs → reopened_all cs ≤ states_all cs }
{}

/// THE FRAMES OF A RUN THAT A MASTER LEADS COUNT, of a plan's slaves with their paces: so they are fewer than `16 * pace * (slaves + 1)` for each mail told
/// and heard, each step and each reopening of a state service, each lost frame, and two for each slave.
pub fn led_counts()
    ensures led { (plan : Scenario) (fs : List Exchanged) (missed : ℕ) (as' : List Leads) (p : Progress) (cs : List (Clocked Body Asked Reply)) → IsPlan plan → IsTallied (lens_of plan.slaves) plan.recover plan.retry (slowest plan.paces) (first_leads plan) plan.paces fs missed as' p cs →
        IsLed (lens_of plan.slaves) plan.recover plan.retry (first_leads plan) fs missed as' × AreLed as' cs × (p.frames ≡ length fs) }
    ensures counted { (plan : Scenario) (fs : List Exchanged) (missed : ℕ) (as' : List Leads) (p : Progress) (cs : List (Clocked Body Asked Reply)) → IsPlan plan → IsTallied (lens_of plan.slaves) plan.recover plan.retry (slowest plan.paces) (first_leads plan) plan.paces fs missed as' p cs →
        Counted (length plan.slaves) (slowest plan.paces) (new_tally (length plan.slaves * (5 + slowest plan.paces))) (tally_of (slowest plan.paces) (length plan.slaves) p.opened p.last p.frames p.lost p.still cs) }
    // Besides the frames that the schedule loses `entered` more count as lost: those with which a packet of the host came in and nothing was gained.
    ensures within { (plan : Scenario) (fs : List Exchanged) (missed work entered : ℕ) (as' : List Leads) (p : Progress) (cs : List (Clocked Body Asked Reply)) → IsPlan plan → IsTallied (lens_of plan.slaves) plan.recover plan.retry (slowest plan.paces) (first_leads plan) plan.paces fs missed as' p cs →
        AreFated plan.lose 0 fs → gained_in as' ≤ length plan.slaves + work → p.lost ≤ lost_of fs + entered → length fs < 16 * slowest plan.paces * (length plan.slaves + 1) * (work + entered + length plan.lose + 2 * length plan.slaves) }
{
    frame_view::seen_is();
}

/// A RUN THAT A MASTER LEADS COUNTS, where its frames are visits of one tour: in the first bring-up of the slave that is brought up, behind it of the first
/// live slaves of a round, and behind a lost frame of those that it carried, unless they were given up. What came back of each is the return of what was
/// sent; it asked by the inward half first, and each slave answered what awaits a step behind one; and while nothing is gained some slave waits yet,
/// unless a packet of the host came in.
pub fn toured_law()
    ensures { (plan : Scenario) (fs : List Exchanged) (again : Option (List ℕ)) (missed : ℕ) (as' : List Leads) (p : Progress) (cs : List (Clocked Body Asked Reply)) → IsPlan plan →
        (run : IsToured (lens_of plan.slaves) plan.recover plan.retry (slowest plan.paces) (first_leads plan) plan.paces fs again missed as' p cs) → AllReturned (lens_of plan.slaves) fs → AskIn run → AnswerIn run → WaitIn run →
        IsTallied (lens_of plan.slaves) plan.recover plan.retry (slowest plan.paces) (first_leads plan) plan.paces fs missed as' p cs }
{
    frame_view::seen_is();
}
