//! Packets that slaves emit: cut into fragments, heard one by one, and joined again by the master. Definitions and laws, no running code.

ghost use Rattle.std.specs.Prelude.{◌≡◌, ℕ, ◌≤◌, Bool, Option, List, ◌++◌};
ghost use Rattle.master_node.specs.of_eoe.declared.message.Fragment.{Fragment};
ghost use Rattle.slave_server.specs.of_exchange_model.Exchange.{Exchange, emitted};
ghost use Rattle.slave_server.specs.of_state_model.States.{Table};
ghost use Rattle.slave_server.specs.of_state_model.Stated.{Stated};
ghost use Rattle.master_node.specs.of_life_model.Book.{Line, EpochBook, EpochFits, all_emits};
ghost use Rattle.packets_heard.specs.Packets.{Emitted, ArePackets, all_fragments, HasArrived, HaveAllArrived, parts, IsOwn, AreCut, packets_of};

/// Of the first fragments of packets, in order, the first packets are joined, each whole as it was emitted, and no fragment is dropped.
pub fn joined_law()
    ensures first { (room : ℕ) → 64 ≤ room → (ps : List Emitted) → ArePackets ps → (heard rest : List Fragment) → heard ++ rest ≡ all_fragments room ps → HasArrived heard ps }
    ensures all { (room : ℕ) → 64 ≤ room → (ps : List Emitted) → ArePackets ps → HaveAllArrived (all_fragments room ps) ps }
{}

/// So it is of each epoch of a book: the packets that arrived are the first of those that its rows emit, and all of them where all were heard.
pub fn emitted_law<V, A, M, Q, R>()
    ensures first { (x : Exchange V A M Q R) (s : Stated V A Q) (table : Table) (cleared : A → A) (weigh : A → Q → ℕ) (room : ℕ) (part : M → Option Fragment) (packets : A → Q → List Emitted) → 64 ≤ room →
        (a : A) (e : EpochBook M Q R) (ds : List (Line Q R)) → AreCut x s table cleared weigh room part packets a ds → EpochFits x s table cleared weigh a e ds →
        HasArrived (parts part e.received) (packets_of x s table cleared weigh room part packets a ds) }
    ensures all { (x : Exchange V A M Q R) (s : Stated V A Q) (table : Table) (cleared : A → A) (weigh : A → Q → ℕ) (room : ℕ) (part : M → Option Fragment) (packets : A → Q → List Emitted) → 64 ≤ room →
        (a : A) (e : EpochBook M Q R) → AreCut x s table cleared weigh room part packets a e.lines → e.received ≡ all_emits x s table cleared weigh a e.lines →
        HaveAllArrived (parts part e.received) (packets_of x s table cleared weigh room part packets a e.lines) }
    // The fragments that were heard are among the emissions.
    ensures heard { (emission : M → Bool) (part : M → Option Fragment) → IsOwn emission part → (hs : List M) → parts part hs ≡ parts part (emitted emission hs) }
{}
