//! Mails that are passed on, beyond one epoch: what a return to Init does to a server that sees what is meant by its mails. Definitions and laws, no
//! running code.

ghost use Rattle.std.specs.Prelude.{◌≡◌, ℕ, Bool, true, List, [], ◌∷◌, ◌++◌, map, option_map, Some, None};
ghost use Rattle.slave_parts.specs.of_exchange_model.Exchange.{Speech, Exchange};
ghost use Rattle.slave_parts.specs.of_link_model.Frames.{all_accepted};
ghost use Rattle.slave_parts.specs.of_segment_model.Slaves.{Datagram, grams};
ghost use Rattle.slave_parts.specs.of_segment_model.Record.{Frame, Kept, frame_news, kept_after, news_each};
ghost use Rattle.slave_parts.specs.of_segment_model.Seats.{Side, Choice, side_next, side_back, side_lost};
ghost use Rattle.slave_parts.specs.of_serving_model.Erasing.{all_as};
ghost use Rattle.few_replies.specs.Erased.{side_seen, frame_as, all_news_as, AreOne, PlanOne, EndOne, OfRow};
ghost use Rattle.slave_parts.specs.of_serving_model.Tagged.{IsServed, Tagged, Rowed, Meant, Asked, real, ideal, tagged, serve_tagged, tagged_speech};
ghost use Rattle.few_replies.specs.Client.{asked_speech, ByContents, MarksTold};
ghost use Rattle.few_replies.specs.Clearing.{InRow, Forgets, cleared_rowed};

/// A return to Init clears the server that stands, in whatever row, and that is to clear the one behind whole rows: so an epoch begins with what the
/// one before carried out, cleared, also where a transfer or a join was unfinished.
pub fn clear_law<V, M, Q, R, C>()
    ensures clears { (x : Exchange V V M Q R) (core : V → C) → IsServed x core → (clear : V → V) → Forgets x core clear → (w : Rowed V M Q) → InRow x w → (tagged x).app (cleared_rowed x clear w) ≡ clear ((tagged x).app w) }
    ensures real_too { (x : Exchange V V M Q R) (clear : V → V) (w : Rowed V M Q) → real x (cleared_rowed x clear w) ≡ clear (real x w) }
    // No row is counted anew, and the server is between rows.
    ensures counts { (x : Exchange V V M Q R) (clear : V → V) (w : Rowed V M Q) → (tagged x).handled (cleared_rowed x clear w) ≡ (tagged x).handled w }
    ensures between { (x : Exchange V V M Q R) (clear : V → V) (w : Rowed V M Q) → InRow x (cleared_rowed x clear w) }
    // A server that takes the mails of its rows is between rows or in one.
    ensures first { (x : Exchange V V M Q R) (w : Rowed V M Q) (q : Q) (m : M) (rest : List M) → x.ready (ideal x w) ≡ true → x.speech.valid q ≡ true → x.full (ideal x w) q ≡ m ∷ rest → InRow x (serve_tagged x w m (Meant.First q)).0 }
    ensures one_more { (x : Exchange V V M Q R) (w : Rowed V M Q) (q : Q) (m : M) (rest : List M) → w.hand ≡ Some q → x.ready w.base ≡ true → x.speech.valid q ≡ true → x.full w.base q ≡ w.part ++ m ∷ rest → InRow x (serve_tagged x w m Meant.More).0 }
    ensures alone { (x : Exchange V V M Q R) (w : Rowed V M Q) (m : M) (answers : Bool) → InRow x (serve_tagged x w m (Meant.Alone answers)).0 }
{}

/// A master's side of a slave is the same where mails are seen otherwise, as with what is meant by them or without, and services and replies have other
/// names, where its two clients plan the row in hand alike, and end it alike as long as it has no answer: by its choices, by frames that came back, and by lost ones. What frames tell of a slave is the same too.
pub fn erased_law<N, M, P, Q, S, R>()
    ensures next { (f : N → M) (g : P → Q) (h : S → R) (y : Speech N P S) (x : Speech M Q R) → AreOne f g h y x → ((q : P) → PlanOne f g h y x q []) → (frame : ℕ) (d : Side N P S) (c : Choice P) → OfRow (λ r. PlanOne f g h y x r.service r.heard) d.now →
        side_seen f g h (side_next y frame d c) ≡ side_next x frame (side_seen f g h d) (record { begin = option_map g c.begin; hold = c.hold }) }
    ensures back { (f : N → M) (g : P → Q) (h : S → R) (y : Speech N P S) (x : Speech M Q R) (frame station : ℕ) (back : List (Datagram N)) (d : Side N P S) → OfRow (λ r. r.answer ≡ None → EndOne f g h y x r.service (r.heard ++ all_accepted station d.halves (grams back))) d.now →
        side_seen f g h (side_back y frame station back d) ≡ side_back x frame station (all_as f back) (side_seen f g h d) }
    ensures lost { (f : N → M) (g : P → Q) (h : S → R) (station : ℕ) (sent : List (Datagram N)) (d : Side N P S) → side_seen f g h (side_lost station sent d) ≡ side_lost station (all_as f sent) (side_seen f g h d) }
    ensures news { (f : N → M) (station : ℕ) (kept : Kept) (k : Frame N) → all_news_as f (frame_news station kept k) ≡ frame_news station kept (frame_as f k) }
    ensures counters { (f : N → M) (station : ℕ) (kept : Kept) (k : Frame N) → kept_after station kept k ≡ kept_after station kept (frame_as f k) }
    ensures record_ { (f : N → M) (station : ℕ) (kept : Kept) (ks : List (Frame N)) → map (λ ns. all_news_as f ns) (news_each station kept ks) ≡ news_each station kept (map (λ k. frame_as f k) ks) }
{}

/// Two such clients: one sees what is meant by its mails, the other the mails alone. They are one where the contents of the mails that a row heard tell
/// which are replies, and, of the replies to a mail that was passed on, whether the last is there (`passed_law` of `serving_model`).
pub fn asked_law<M, Q, R>()
    ensures one { (x : Speech M Q R) (more : M → Bool) → AreOne (λ t. t.mail) (λ p. p) (λ r. r) (tagged_speech x) (asked_speech x more) }
    ensures plans { (x : Speech M Q R) (more : M → Bool) (q : Asked M Q) (hs : List (Tagged M Q)) → ByContents x.emission hs → PlanOne (λ t. t.mail) (λ p. p) (λ r. r) (tagged_speech x) (asked_speech x more) q hs }
    ensures ends { (x : Speech M Q R) (more : M → Bool) (q : Asked M Q) (hs : List (Tagged M Q)) → ByContents x.emission hs → MarksTold more q hs → EndOne (λ t. t.mail) (λ p. p) (λ r. r) (tagged_speech x) (asked_speech x more) q hs }
{}
