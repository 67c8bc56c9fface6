//! The counters that a record keeps of an open slave are those of its epoch, frame by frame, and what a frame tells of it is the same by both. A definition and
//! a law, no running code: the function here does nothing, and its contract states the law.

ghost use Rattle.std.specs.Prelude.{◌≡◌, ◌<◌, ◌∷◌, ◌++◌, ◌==◌, ◌%◌, ℕ, suc, Bool, true, List, [], length};
ghost use Rattle.served_places.specs.of_life_model.Lives.{Spot};
ghost use Rattle.served_places.specs.of_life_model.Own.{AreSeen, own};
ghost use Rattle.served_places.specs.of_link_mails.Body.{Body};
ghost use Rattle.served_places.specs.of_link_model.Segment.{RingFate};
ghost use Rattle.run_work.specs.of_master_side.Passing.{news_back, news_lost};
ghost use Rattle.run_work.specs.of_master_side.Counts as Record;
ghost use Rattle.run_work.specs.of_few_replies.Led.{EraTurn, counts_behind, frame_in, has_step, news_in};
ghost use Rattle.served_places.specs.of_segment_model.Record.{Frame, Kept, kept_after, nothing_kept};
ghost use Rattle.served_places.specs.of_segment_model.Slaves.{Slave, ring_back};
ghost use Rattle.served_rings.specs.Counters.{IsCounted};

/// They begin alike; and behind a frame that came back, of which the record knows only how it came back, or that was lost, of which it knows how it was sent,
/// they stay alike: then the record says the same news of the slave as its epoch goes on by.
pub fn counters_law<V, Q>()
    ensures begins { (spot : Spot) (opened : ℕ) (fs : List (Frame Body)) → length fs ≡ suc opened → IsCounted spot opened fs true nothing_kept true }
    ensures back { (spot : Spot) (opened : ℕ) (fs : List (Frame Body)) (led : Bool) (kept : Kept) (counts : Bool) (t : EraTurn V Body Q) → IsCounted spot opened fs led kept counts → opened < length fs → (n : Slave V Body) (pace made : ℕ) → AreSeen t.sent → AreSeen t.back →
        ring_back ((spot.station, n) ∷ []) (own spot.station t.sent) RingFate.Back ≡ own spot.station t.back → has_step t.steps ≡ (suc made % pace == 0) →
        (news_back spot.station kept counts t.back ≡ news_in spot opened fs led t)
        × IsCounted spot opened (fs ++ frame_in t ∷ []) (counts_behind spot.station t.steps (own spot.station t.back) led) (kept_after spot.station kept (record { sent = t.back; fate = RingFate.Back; back = t.back })) (Record.counts_behind spot.station pace made t.back counts) }
    ensures lost { (spot : Spot) (opened : ℕ) (fs : List (Frame Body)) (led : Bool) (kept : Kept) (counts : Bool) (t : EraTurn V Body Q) → IsCounted spot opened fs led kept counts → opened < length fs → (pace made : ℕ) → AreSeen t.sent → t.back ≡ [] → has_step t.steps ≡ (suc made % pace == 0) →
        (news_lost spot.station kept t.sent ≡ news_in spot opened fs led t)
        × IsCounted spot opened (fs ++ frame_in t ∷ []) (counts_behind spot.station t.steps (own spot.station t.back) led) (kept_after spot.station kept (record { sent = t.sent; fate = RingFate.Lost 0; back = [] })) (Record.counts_behind spot.station pace made [] counts) }
{}
