//! The accesses by which a slave is opened, and returned to Init and opened anew.

ghost use Rattle.std.specs.Prelude.{◌≡◌, ◌<◌, ◌≤◌, ◌==◌, ◌⊎◌, ◌+◌, ℕ, Bool, List, None, true, false, length};
ghost use Rattle.frames_seen.specs.of_datagrams.Datagram as Raw;
ghost use Rattle.frames_seen.specs.of_al_state.Request.{is_state};
ghost use Rattle.frames_seen.specs.of_ec_fields.Fields.{number_at};
ghost use Rattle.frames_seen.specs.of_esc_registers.declared.registers.Registers.{Registers};
ghost use Rattle.frames_seen.specs.of_esc_registers.Registers.{first_registers};
ghost use Rattle.frames_seen.specs.of_slave_node.Passing.{passed, registers_after};
ghost use Rattle.frames_seen.specs.of_frame_view.View.{Lens};
ghost use Rattle.frames_seen.specs.Own.{IsApart};
ghost use Rattle.frames_seen.specs.Ring.{all_after, AllApart};
ghost use Rattle.frames_seen.specs.Slaves.{IsOpen, registers_seen};
ghost use Rattle.frames_seen.specs.of_mailbox_slave.Kept.{Kept};
ghost use Rattle.slave_lives.specs.Opening.{Plan, IsPlan, IsAccess, IsBring, IsBringing, IsOpened, AtMostOne, JustOne, access_behind};
ghost use Rattle.slave_lives.specs.Returning.{Clears, IsFrozen, IsReturned, IsTurn, turn_behind};
ghost use Rattle.slave_lives.specs.Steps.{Running, HasStepped, KeepsOthers};
ghost use Rattle.slave_lives.specs.Ways.{OneOnWay};

/// A first bring-up, over the slave's registers, for any frames, fates and steps: it begins from the first registers with a new box; a frame
/// leaves what is known, whether it meets the slave or not; one that meets it lets the master go on; a step leaves it too. What is known is what
/// is known of a reopening in Init, so its end is the same.
pub fn bring_law<S>()
    ensures begins { (p : Plan) (s : S) → IsBringing p 3 (first_registers p.out p.back) (record { last_taken = 0; newest = 0; again = false; last_read = None; fresh = None; withdrawn = None }) s }
    ensures stays { (boot : Bool) (lens : ℕ → Lens) (p : Plan) → IsPlan boot lens p → (n : ℕ) (r : Registers) (k : Kept) (s : S) (ds : List Raw.Datagram) → IsBring n → IsBringing p n r k s → AtMostOne p n r ds → IsBringing p n (registers_after r ds) k s }
    ensures goes { (boot : Bool) (lens : ℕ → Lens) (p : Plan) → IsPlan boot lens p → (n : ℕ) (r : Registers) (k : Kept) (s : S) (ds : List Raw.Datagram) → IsBring n → IsBringing p n r k s → JustOne p n r ds → IsBringing p (access_behind n) (registers_after r ds) k s }
    ensures steps { (u : Running S) (boot : Bool) (lens : ℕ → Lens) (p : Plan) → IsPlan boot lens p → (n : ℕ) (r q : Registers) (k j : Kept) (s t : S) →
        IsBringing p n r k s → u.next s ≡ None → u.clear s ≡ s → KeepsOthers r q → HasStepped u boot r q k j s t → q.al_status < 32 → q.al_code < 65536 → IsBringing p n q j t × (t ≡ s) }
    ensures returned { (u : Running S) (boot : Bool) (lens : ℕ → Lens) (p : Plan) → IsPlan boot lens p → (n : ℕ) (r : Registers) (k : Kept) (s : S) → IsBringing p n r k s → u.clear s ≡ s → u.next s ≡ None → IsReturned u p n r k s }
{}

/// A reopening, over the slave's registers, for any frames, fates and steps. An open slave that meets access 1 is frozen; a frame leaves it so;
/// a step returns it to Init with a new box and a cleared server. From there on a frame leaves what is known, whether it meets the slave or
/// not; one that meets it lets the master go on; a step leaves it too; a status of Init is shown by no frozen slave; and where the last access
/// shows the state that is opened, the slave is open with a new link.
pub fn return_law<S>()
    ensures freezes { (lens : ℕ → Lens) (p : Plan) (r : Registers) (ds : List Raw.Datagram) → IsOpen lens r → r.station ≡ p.station → is_state (registers_seen r).state ≡ true → ((registers_seen r).state == 1) ≡ false → JustOne p 1 r ds → IsFrozen lens p (registers_after r ds) }
    ensures frozen { (lens : ℕ → Lens) (p : Plan) (n : ℕ) (r : Registers) (ds : List Raw.Datagram) → (n ≡ 1) ⊎ (n ≡ 2) → IsFrozen lens p r → AtMostOne p n r ds → IsFrozen lens p (registers_after r ds) }
    ensures unseen { (lens : ℕ → Lens) (p : Plan) (r : Registers) (d : Raw.Datagram) → IsFrozen lens p r → IsAccess p 2 d → number_at 2 (passed r d).body 0 ≡ 1 → ⊥ }
    ensures returns { (u : Running S) (boot : Bool) (lens : ℕ → Lens) (p : Plan) → IsPlan boot lens p → Clears u → (n : ℕ) → n < 3 → (r q : Registers) (k j : Kept) (s t : S) → IsFrozen lens p r →
        KeepsOthers r q → HasStepped u boot r q k j s t → q.al_status < 32 → q.al_code < 65536 → IsReturned u p n q j t × (t ≡ u.clear s) }
    ensures stays { (u : Running S) (boot : Bool) (lens : ℕ → Lens) (p : Plan) → IsPlan boot lens p → (n : ℕ) (r : Registers) (k : Kept) (s : S) (ds : List Raw.Datagram) → IsTurn n → IsReturned u p n r k s → AtMostOne p n r ds → IsReturned u p n (registers_after r ds) k s }
    ensures goes { (u : Running S) (boot : Bool) (lens : ℕ → Lens) (p : Plan) → IsPlan boot lens p → (n : ℕ) (r : Registers) (k : Kept) (s : S) (ds : List Raw.Datagram) → IsTurn n → IsReturned u p n r k s → JustOne p n r ds → IsReturned u p (turn_behind n) (registers_after r ds) k s }
    ensures steps { (u : Running S) (boot : Bool) (lens : ℕ → Lens) (p : Plan) → IsPlan boot lens p → (n : ℕ) (r q : Registers) (k j : Kept) (s t : S) → IsReturned u p n r k s →
        KeepsOthers r q → HasStepped u boot r q k j s t → q.al_status < 32 → q.al_code < 65536 → IsReturned u p n q j t }
    ensures kept { (u : Running S) (boot : Bool) (lens : ℕ → Lens) (p : Plan) → IsPlan boot lens p → (n : ℕ) (r q : Registers) (k j : Kept) (s t : S) → IsReturned u p n r k s → HasStepped u boot r q k j s t → (registers_seen r).state ≡ p.start → (registers_seen q).state ≡ p.start }
    ensures shown { (u : Running S) (boot : Bool) (lens : ℕ → Lens) (p : Plan) → IsPlan boot lens p → (r : Registers) (k : Kept) (s : S) (d : Raw.Datagram) → IsReturned u p 9 r k s → IsAccess p 9 d → number_at 2 (passed r d).body 0 ≡ p.start → (registers_seen r).state ≡ p.start }
    ensures opened { (u : Running S) (boot : Bool) (lens : ℕ → Lens) (p : Plan) → IsPlan boot lens p → (n : ℕ) → 7 < n → (r : Registers) (k : Kept) (s : S) → IsReturned u p n r k s → (registers_seen r).state ≡ p.start → IsOpened lens p r k s }
    ensures raised { (u : Running S) (boot : Bool) (lens : ℕ → Lens) (p : Plan) (start : ℕ) → IsPlan boot lens p → IsPlan boot lens (record p { start = start }) → (m : ℕ) (r : Registers) (k : Kept) (s : S) (d : Raw.Datagram) →
        IsReturned u (record p { start = start }) m r k s → IsAccess p 1 d → IsFrozen lens p (passed r d).registers ⊎ IsReturned u p 2 (passed r d).registers k s }
{}

/// A slave that is opened or returned is apart from other stations: it has no station yet, or its own, and at most its access means it.
pub fn closed_law()
    ensures { (station : ℕ) (p : Plan) (n : ℕ) (r : Registers) (ds : List Raw.Datagram) → (0 == station) ≡ false → (p.station == station) ≡ false → (r.station ≡ 0) ⊎ (r.station ≡ p.station) →
        AtMostOne p n r ds → IsApart station r ds }
{}

/// The access of an opening comes to its slave past others that are apart, as the one datagram that means it.
pub fn way_law<S>()
    ensures way { (p : Plan) (n place behind : ℕ) (rs : List Registers) (ds : List Raw.Datagram) → IsTurn n → place < 16 → behind + length rs ≤ place → AllApart p.station rs ds → OneOnWay p n place behind ds →
        OneOnWay p n place (behind + length rs) (all_after rs ds) }
    ensures arrives { (u : Running S) (boot : Bool) (lens : ℕ → Lens) (p : Plan) → IsPlan boot lens p → (n place : ℕ) (r : Registers) (k : Kept) (s : S) (ds : List Raw.Datagram) → IsTurn n → place < 16 → IsReturned u p n r k s →
        OneOnWay p n place place ds → AtMostOne p n r ds }
{}
