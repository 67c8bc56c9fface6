//! A master before its first frame.

ghost use Rattle.std.specs.Prelude.{◌≡◌, ◌≤◌, ◌<◌, length, map, replicate, vec_len, false, All, IfOk, None};
ghost use Rattle.life_runs.specs.of_frame_view.Shares.{AllBoth, AllFrom};
ghost use Rattle.master_node.specs.Serving.{IsPaced};
ghost use Rattle.master_node.specs.Lives.{waiting_of};
ghost use Rattle.life_runs.specs.of_segment_plan.Sound.{IsPlan, IsSlave, IsPace};
ghost use Rattle.master_node.specs.First.{IsNewSide, IsFirst};
ghost use Rattle.master_node.specs.Origins.{CountsNone};
ghost use Rattle.master_node.specs.declared.post.Work.{Work};
ghost use Rattle.master_node.specs.Shows.{WaitsNone};

use crate::copies::script_of;
use crate::event::EventList;
use crate::lan::Lan;
use crate::node::MasterNode;
use crate::post::Post;
use al_state::bring_new;
use arrayvec::ArrayVec;
use ec_fields::NoMemory;
use master_hand::InHand;
use master_side::Side;
use master_tour::{Stand, Stop, Tour};
use segment_plan::{Scenario, SlaveSpec};
use std::alloc::Global;

// The side of a slave: nothing is in hand, and its script is its own.
fn side_of(
    alloc: Global,
    plan: &Scenario,
    place: u32,
    spec: &SlaveSpec,
    pace: u32,
) -> Result<Side<InHand>, NoMemory>
    requires plan { IsPlan plan.now }
    requires slave { IsSlave spec.now }
    requires pace { IsPace pace }
    ensures is { IfOk result (λ s. IsNewSide plan.now.services place spec.now s) }
    ensures paced { IfOk result (λ s. (s.read_at ≡ None) × (s.pace ≡ pace)) }
{
    let script = script_of(alloc, place, plan.services.as_slice())?;
    let hand = InHand::new(alloc, spec.out_len, spec.in_len, script)?;
    Ok(Side::new(spec.station, spec.out_len, spec.in_len, pace, hand))
}

// A slave before its bring-up.
fn stop_of(
    alloc: Global,
    plan: &Scenario,
    place: u32,
    spec: &SlaveSpec,
    pace: u32,
) -> Result<Stop<InHand>, NoMemory>
    requires plan { IsPlan plan.now }
    requires slave { IsSlave spec.now }
    requires pace { IsPace pace }
    requires place { place < 16 }
    ensures is { IfOk result (λ s. IsFirst plan.now place spec.now s) }
    ensures paced { IfOk result (λ s. IsPaced pace s) }
{
    let side = side_of(alloc, plan, place, spec, pace)?;
    let up = bring_new(place, spec.station, spec.out_len, spec.in_len, spec.start);
    Ok(Stop {
        side,
        stand: Stand::Opening(up),
        place,
        start: spec.start,
        spare: plan.recover,
        news: None,
        under: false,
        at: 0,
    })
}

// All slaves before their bring-up.
fn stops_of(alloc: Global, plan: &Scenario) -> Result<Vec<Stop<InHand>>, NoMemory>
    requires { IsPlan plan.now }
    ensures many { IfOk result (λ stops. vec_len stops ≡ length plan.now.slaves) }
    ensures first { IfOk result (λ stops. AllFrom (λ place spec s. IsFirst plan.now place spec s) 0 plan.now.slaves stops.items) }
    ensures paced { IfOk result (λ stops. AllBoth (λ pace s. IsPaced pace s) plan.now.paces stops.items) }
{
    let slaves = plan.slaves.as_slice();
    let paces = plan.paces.as_slice();
    let mut stops = Vec::new(alloc);
    for place in 0..slaves.len() {
        stops.push(stop_of(alloc, plan, place as u32, &slaves[place], paces[place])?)?;
    }
    Ok(stops)
}

// Nothing is in hand of any slave.
fn posts_of(alloc: Global, count: usize) -> Result<Vec<Post>, NoMemory>
    ensures many { IfOk result (λ posts. vec_len posts ≡ count) }
    ensures quiet { IfOk result (λ posts. All WaitsNone posts.items) }
    ensures waiting { IfOk result (λ posts. map waiting_of posts.items ≡ replicate count 0) }
    ensures counts { IfOk result (λ posts. All CountsNone posts.items) }
    ensures works { IfOk result (λ posts. All (λ p. p.work ≡ Work.Nothing) posts.items) }
    ensures oldest { IfOk result (λ posts. All (λ p. p.oldest ≡ 0) posts.items) }
    ensures answers { IfOk result (λ posts. All (λ p. p.answer ≡ None) posts.items) }
{
    let mut posts = Vec::new(alloc);
    for _ in 0..count {
        posts.push(Post::new(alloc)?)?;
    }
    Ok(posts)
}

// The tour before its first frame.
fn tour_of(alloc: Global, plan: &Scenario) -> Result<Tour<InHand>, NoMemory>
    requires { IsPlan plan.now }
    ensures many { IfOk result (λ tour. vec_len tour.stops ≡ length plan.now.slaves) }
    ensures first { IfOk result (λ tour. AllFrom (λ place spec s. IsFirst plan.now place spec s) 0 plan.now.slaves tour.stops.items) }
    ensures paced { IfOk result (λ tour. AllBoth (λ pace s. IsPaced pace s) plan.now.paces tour.stops.items) }
    ensures begins { IfOk result (λ tour. (tour.opened ≡ 0) × (tour.again ≡ false) × (tour.missed ≡ 0) × (tour.retry ≡ plan.now.retry)) }
    ensures last { IfOk result (λ tour. tour.last ≡ None) }
{
    let stops = stops_of(alloc, plan)?;
    Ok(Tour {
        stops,
        visit: ArrayVec::new(),
        opened: 0,
        again: false,
        missed: 0,
        retry: plan.retry as u8,
        last: None,
        count: 0,
        passed: 0,
    })
}

impl MasterNode {
    ghost use Rattle.std.specs.Prelude.{◌≡◌, length, map, replicate, vec_len, IfOk, ℕ, None, []};
    ghost use Rattle.master_node.specs.Lives.{waiting_of};
    ghost use Rattle.master_node.specs.Origins.{forwards_at};
    ghost use Rattle.master_node.specs.Answered.{answer_at};
    ghost use Rattle.life_runs.specs.of_segment_plan.Sound.{IsPlan};
    ghost use Rattle.life_runs.specs.First.{lens_of, first_leads};
    ghost use Rattle.master_node.specs.Shows.{MasterShows};
    ghost use Rattle.master_node.specs.Serving.{ServedShows};
    ghost use Rattle.life_runs.specs.Served.{all_serve};
    ghost use Rattle.master_node.specs.Joined.{HasUnfinished, stand_before};
    ghost use Rattle.eoe_switch.specs.Switch.{first_switch};
    ghost use Rattle.master_node.specs.Happened.{HasHappened};
    ghost use Rattle.master_node.specs.Ports.{ports_of, ports_behind};
    ghost use Rattle.life_runs.specs.of_master_tour.Toured.{new_tour};
    ghost use Rattle.master_node.specs.Toured.{tour_of};
    ghost use Rattle.master_node.specs.Eager.{recalls};
    ghost use Rattle.master_node.specs.Recalled.{AllKnow};

    /// The master of a segment before its first frame: no slave is brought up, and no packet of the host has come in.
    pub fn new(alloc: Global, plan: &Scenario) -> Result<MasterNode, NoMemory>
        requires { IsPlan plan.now }
        ensures posts { IfOk result (λ master. vec_len master.posts ≡ length plan.now.slaves) }
        ensures waiting { IfOk result (λ master. map waiting_of master.posts.items ≡ replicate (length plan.now.slaves) 0) }
        ensures tour { IfOk result (λ master. tour_of master ≡ new_tour) }
        ensures counts { IfOk result (λ master. (k : ℕ) → forwards_at master.posts.items k ≡ 0) }
        ensures answers { IfOk result (λ master. (k : ℕ) → answer_at master.posts.items k ≡ None) }
        ensures switch { IfOk result (λ master. master.lan.switch ≡ first_switch (length master.lan.switch.ports)) }
        ensures begins { IfOk result (λ master. HasHappened (ports_of plan.now.slaves) plan.now.host [] master.lan) }
        ensures ports { IfOk result (λ master. master.lan.ports.items ≡ ports_behind 0 plan.now.slaves) }
        ensures leads { IfOk result (λ master. MasterShows (lens_of plan.now.slaves) plan.now.recover plan.now.retry master 0 (first_leads plan.now)) }
        ensures knows { IfOk result (λ master. AllKnow (recalls master)) }
        ensures served { IfOk result (λ master. ServedShows (lens_of plan.now.slaves) plan.now.recover plan.now.retry master 0 0 (all_serve plan.now.paces (first_leads plan.now))) }
        ensures joined { IfOk result (λ master. HasUnfinished master (map stand_before (first_leads plan.now)) (map (λ spec. None) plan.now.slaves)) }
    {
        let tour = tour_of(alloc, plan)?;
        let posts = posts_of(alloc, plan.slaves.len())?;
        let lan = Lan::new(alloc, plan)?;
        let list = EventList::new(alloc)?;
        Ok(MasterNode {
            tour,
            posts,
            lan,
            list,
            made: 0,
        })
    }
}
