//! The rows of the mails that are passed on to the slaves of a serving. Definitions and laws, no running code: the functions here do nothing, and their
//! contracts state the laws.

ghost use Rattle.std.specs.Prelude.{◌≡◌, ◌≤◌, ◌++◌, ℕ, Bool, List, Some, None, All};
ghost use Rattle.run_frames.specs.of_life_runs.Lives.{LifeKept};
ghost use Rattle.served_places.specs.Rows.{HearsNoMore, IsHeld, Stays, ToldAll, last_more, passed_rows, passings, replies_of, row_begun, told_besides};
ghost use Rattle.run_frames.specs.of_datagrams.Datagram as Raw;
ghost use Rattle.run_frames.specs.of_datagrams.Frame.{IsFrame, chained};
ghost use Rattle.run_frames.specs.of_frame_view.Seen.{seen};
ghost use Rattle.run_frames.specs.of_frame_view.View.{Lens};
ghost use Rattle.run_frames.specs.of_frame_view.Shares.{AllBoth};
ghost use Rattle.run_frames.specs.of_master_hand.Spoken.{Asked, is_passed};
ghost use Rattle.run_frames.specs.of_master_side.Passing.{passing_behind};
ghost use Rattle.run_frames.specs.of_segment_ring.declared.wire.Fate.TheVariants.{Pass};
ghost use Rattle.run_frames.specs.of_life_runs.Led.{Exchanged, Leads};
ghost use Rattle.few_replies.specs.of_segment_model.Returned.{Returns};
ghost use Rattle.few_replies.specs.of_state_model.Stated.{Service};
ghost use Rattle.run_frames.specs.of_life_runs.Served.{Serves, ServedTurn, IsServedLed, IsServedTurn, accepted_by, all_serve, new_serves, served_behind};
ghost use Rattle.run_frames.specs.of_life_runs.Told.{Passed, TellsOwn};
ghost use Rattle.few_replies.specs.of_life_model.Lives.{Stand};

/// A ROW OF A MAIL THAT WAS PASSED ON STAYS in its place among them, over all epochs of its slave's life: its service, and the frame before which it came into
/// hand; more may be heard in it. Before a frame there is one more where such a mail comes into hand, behind the others, and behind it there is none more.
pub fn rows_law()
    ensures next { (lens : ℕ → Lens) (made : ℕ) (ds : List Raw.Datagram) (w : Serves) (v : ServedTurn) → IsServedTurn lens made ds w v →
        AllBoth Stays (passed_rows w.lead.lived.life ++ row_begun made v.turn.begun) (passed_rows v.turn.lived.life) }
    ensures behind { (lens : ℕ → Lens) (recover retry : ℕ) (gives : Bool) (made : ℕ) (f : Exchanged) (v : ServedTurn) →
        AllBoth Stays (passed_rows v.turn.lived.life) (passed_rows (served_behind lens recover retry gives made f v).lead.lived.life) }
{}

/// WHAT IS HEARD IN THESE ROWS, where a frame brings no reply more to a mail that is over: before it the same, and nothing in the row of a mail that comes into
/// hand; behind it just the replies that are told besides, in the row of the mail in hand. And a mail that was over is so before the frame and behind it.
pub fn heard_law()
    ensures next { (lens : ℕ → Lens) (made : ℕ) (ds : List Raw.Datagram) (w : Serves) (v : ServedTurn) → IsServedTurn lens made ds w v →
        replies_of (passed_rows v.turn.lived.life) ≡ replies_of (passed_rows w.lead.lived.life) ++ replies_of (row_begun made v.turn.begun) }
    ensures behind { (lens : ℕ → Lens) (recover retry : ℕ) (gives : Bool) (made : ℕ) (f : Exchanged) (v : ServedTurn) → ((p : Passed) → v.hand ≡ Some p → TellsOwn p v.turn.lived.life.era.passing v.turn.lived.life.era.side.now) →
        (v.hand ≡ None → v.turn.lived.life.stand ≡ Stand.Open → v.turn.lived.life.era.passing ≡ None) → HearsNoMore lens recover retry f v →
        replies_of (passed_rows (served_behind lens recover retry gives made f v).lead.lived.life) ≡ last_more (told_besides v.hand v.turn.lived.life.era.passing (accepted_by lens recover retry f f.fate v)) (replies_of (passed_rows v.turn.lived.life)) }
    ensures over { (lens : ℕ → Lens) (recover retry : ℕ) (gives : Bool) (made : ℕ) (f : Exchanged) (v : ServedTurn) →
        AllBoth (λ p q. p ≡ None → q ≡ None) (passings v.turn.lived.life) (passings (served_behind lens recover retry gives made f v).lead.lived.life) }
{}

/// WHAT COMES INTO HAND finds no mail there that is passed on; and such a mail waits to be sent then.
pub fn begins_law()
    ensures free { (lens : ℕ → Lens) (made : ℕ) (ds : List Raw.Datagram) (w : Serves) (v : ServedTurn) → IsServedTurn lens made ds w v → (s : Service Asked) → v.turn.begun ≡ Some s → w.lead.lived.life.era.passing ≡ None }
    ensures passing { (lens : ℕ → Lens) (made : ℕ) (ds : List Raw.Datagram) (w : Serves) (v : ServedTurn) → IsServedTurn lens made ds w v → v.turn.lived.life.era.passing ≡ passing_behind is_passed w.lead.lived.life.era.passing v.turn.begun }
{}

/// A SLAVE IS OPEN while the mail that was passed on last is the newest of its services, over all frames of a serving.
pub fn held_law()
    ensures { (lens : ℕ → Lens) (recover retry : ℕ) (paces : List ℕ) (first : List Leads) (fs : List Exchanged) (missed : ℕ) (ws : List Serves) → IsServedLed lens recover retry (all_serve paces first) fs missed ws → All IsHeld ws }
{}

/// WHEN A MAIL THAT WAS PASSED ON IS OVER, what was told of it are all its replies: over a frame, of which an answer comes back with just the datagrams that were
/// sent, of a slave whose counters the record has; and so before the first frame.
pub fn all_law()
    ensures begins { (pace : ℕ) (a : Leads) → ToldAll (new_serves pace a) }
    ensures goes { (lens : ℕ → Lens) (recover retry : ℕ) (gives : Bool) (made : ℕ) (ds : List Raw.Datagram) (f : Exchanged) (w : Serves) (v : ServedTurn) → IsFrame f.sent (chained ds) → IsServedTurn lens made ds w v →
        (f.fate ≡ Pass → Returns (seen lens f.sent) (seen lens f.back)) → 1 ≤ w.lead.lived.spot.station → LifeKept w.kept w.lead.lived.life → IsHeld w → ToldAll w → ToldAll (served_behind lens recover retry gives made f v) }
{}
