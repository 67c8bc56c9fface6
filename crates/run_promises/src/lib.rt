//! What a run of a plan's ring promises of each slave, and of each where the plan was read; and that the packets which its master joins are of the
//! services that came into hand. No running code: each function here does nothing, and its contract states a law.
#![tactic(auto)]

pub mod accepted_mails;
pub mod sent_packets;
pub mod served_packets;
pub mod slave_sends;
pub mod switched_runs;
pub mod switched_servings;
pub mod whole_packets;

ghost use Rattle.std.specs.Prelude.{ℕ, List, ◌++◌};
ghost use Rattle.packets_heard.specs.of_life_runs.First.{lens_of, first_leads};
ghost use Rattle.packets_heard.specs.of_life_runs.Led.{Exchanged, Leads, IsLed};
ghost use Rattle.packets_heard.specs.of_segment_plan.Sound.{IsPlan};
ghost use Rattle.packets_heard.specs.of_segment_plan.declared.plan.Scenario.{Scenario};
ghost use Rattle.served_rings.specs.of_plan_ring.Lives.{IsKnown};
ghost use Rattle.served_rings.specs.of_plan_ring.Round.{ring_of, AllRound, ring_after};
ghost use Rattle.run_promises.specs.Books.{AllHaveBooks};
ghost use Rattle.run_promises.specs.Rests.{AllDoneIf};
ghost use Rattle.run_promises.specs.Slaves.{AllServed};
ghost use Rattle.served_rings.specs.of_scenario.Told.{IsTold};
ghost use Rattle.run_promises.specs.Promise.{Keeps};
ghost use Rattle.run_promises.specs.Rest.{AllStayed, IsResting, NothingIsLeft, AllIsDone};

/// THE PROMISE OF A RUN, whatever frames are lost: of each slave just the first services of its script came into hand, with the packets of its port
/// among them, and its application, which is that of the ring's node behind the frames, has carried out in each epoch just the first of these, each
/// once and in order; each reply is that application's; and where nothing is left of an open slave all of them are carried out.
pub fn run_promise_law()
    ensures { (plan : Scenario) → IsPlan plan → IsKnown plan → (fs : List Exchanged) (missed : ℕ) (as' : List Leads) →
        IsLed (lens_of plan.slaves) plan.recover plan.retry (first_leads plan) fs missed as' → AllRound (ring_of plan) fs → AllServed plan fs 0 plan.slaves as' (ring_after (ring_of plan) fs).nodes }
{
    plan_ring::run_lives_law();
    run_frames::script_runs::script_run_law();
}

/// THE BOOK OF EACH SLAVE THAT STAYS UP: of one that is open, was never given up and never returned to Init, what a book tells of its rows fits its
/// application; and where it is settled and nothing is wanted of it, nothing is left and all is done.
pub fn run_book_law()
    ensures { (plan : Scenario) → IsPlan plan → IsKnown plan → (fs : List Exchanged) (missed : ℕ) (as' : List Leads) →
        IsLed (lens_of plan.slaves) plan.recover plan.retry (first_leads plan) fs missed as' → AllRound (ring_of plan) fs → AllHaveBooks plan fs 0 plan.slaves as' (ring_after (ring_of plan) fs).nodes }
{
    plan_ring::run_lives_law();
}

/// WHERE NOTHING IS LEFT: of each slave that is settled and of which its master wants nothing, all services of the script came into hand, and those of
/// its newest epoch are carried out, each once and in order, and each is answered.
pub fn run_done_law()
    ensures { (plan : Scenario) → IsPlan plan → IsKnown plan → (fs : List Exchanged) (missed : ℕ) (as' : List Leads) →
        IsLed (lens_of plan.slaves) plan.recover plan.retry (first_leads plan) fs missed as' → AllRound (ring_of plan) fs → AllDoneIf plan fs 0 plan.slaves as' (ring_after (ring_of plan) fs).nodes }
{
    plan_ring::run_lives_law();
    run_frames::script_runs::script_run_law();
}

/// THE PROMISE FOR A PLAN THAT WAS READ, whatever frames are lost: behind frames that its master led, with or without others behind them, that went
/// round the ring of its new slaves, each slave has begun just the first services of its script, each once and in order, with packets between them; in
/// each epoch it has carried out just the first of these, and each reply is its application's; and where nothing is left of it, all is done.
pub fn read_promise_law()
    ensures { (plan : Scenario) → IsPlan plan → IsTold plan → (fs others : List Exchanged) (missed : ℕ) (as' : List Leads) →
        IsLed (lens_of plan.slaves) plan.recover plan.retry (first_leads plan) fs missed as' → AllRound (ring_of plan) (fs ++ others) → Keeps plan fs as' }
{
    run_promise_law();
    run_book_law();
    run_done_law();
}

/// WHERE A RUN IS AT REST, each slave given up for good, or settled and nothing wanted of it by its master, nothing is left: of each slave that wasn't
/// given up for good the whole script came into hand, and all of its newest epoch is carried out and answered. Where none was
/// given up at all, so it is of each.
pub fn rest_promise_law()
    ensures rests { (plan : Scenario) (fs : List Exchanged) (as' : List Leads) → Keeps plan fs as' → IsResting plan fs as' → NothingIsLeft plan fs as' }
    ensures done { (plan : Scenario) (fs : List Exchanged) (as' : List Leads) → Keeps plan fs as' → IsResting plan fs as' → AllStayed as' → AllIsDone plan fs as' }
{}
