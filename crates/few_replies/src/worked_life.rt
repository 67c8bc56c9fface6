//! A worked life of a slave of SoE, frame by frame, with the values of a run. Definitions and laws, no running code.

ghost use Rattle.std.specs.Prelude.{◌≡◌, ℕ, false, Some, None, List, [], ◌∷◌, ◌++◌, map, length};
ghost use Rattle.slave_parts.specs.of_mailbox_mail.declared.outcome.ReplyKind.{ReplyKind};
ghost use Rattle.slave_parts.specs.of_segment_model.Seats.{rows_of};
ghost use Rattle.slave_parts.specs.of_life_model.Lives.{Stand, reopening};
ghost use Rattle.few_replies.specs.Frames.{life_of, brought_up, cut_off, reopened, passed_on, written, octets, served};

/// A bring-up with a lost access; a write in fragments that a give-up cuts off; a reopening with a new epoch; a fragment that is passed on and leaves a
/// join; and a write that meets it.
pub fn worked_life()
    ensures opened { (life_of brought_up).era.opened ≡ Some 5 }
    ensures given_up { let l = life_of cut_off in (l.gave ≡ 10 ∷ []) × (l.stand ≡ reopening 2 false) }
    // The epoch before keeps its row, which stays in doubt, and the next one has none.
    ensures past { let es = (life_of reopened).past in (map (λ e. e.opened) es ≡ Some 5 ∷ []) × (map (λ e. map (λ r. r.answer) (rows_of e.side)) es ≡ (None ∷ []) ∷ []) }
    ensures anew { let e = (life_of reopened).era in (e.cleared ≡ Some 12) × (e.opened ≡ Some 19) × (e.account.started ≡ []) × (rows_of e.side ≡ []) }
    // The mail that was passed on is over without a reply, and the write behind it is done.
    ensures passed { let e = (life_of passed_on).era in (e.passing ≡ None) × (length e.account.started ≡ 1) }
    ensures answered { map (λ r. r.answer) (rows_of (life_of written).era.side) ≡ None ∷ Some (Some (ReplyKind.Done, []), 24) ∷ [] }
    // It wrote the join's octets, followed by its own.
    ensures joined { served.app ≡ octets 54 0 ++ 7 ∷ [] }
{}
