//! A serving: services of a client from any server, and mails that are passed on, as one exchange. Definitions and laws, no running code.
#![tactic(auto)]

ghost use Rattle.std.specs.Prelude.{◌≡◌, ℕ, Bool, true, false, Option, List, [], ◌∷◌, ◌++◌, map};
ghost use Rattle.state_model.specs.of_exchange_model.Prefix.{IsPrefixOf};
ghost use Rattle.state_model.specs.of_exchange_model.Exchange.{Exchange, IsLawful, after, plain};
ghost use Rattle.state_model.specs.of_exchange_model.Rows.{Row, IsWhole, Settled, told_all};
ghost use Rattle.state_model.specs.of_link_model.Slave.{Node, node_takes, node_serve};
ghost use Rattle.state_model.specs.of_segment_model.Slaves.{Slave, Serving, serving, Datagram, slave_after, frame_after};
ghost use Rattle.state_model.specs.Stated.{Stated, IsStated};
ghost use Rattle.serving_model.specs.Tagged.{IsServed, Tagged, Asked, Rowed, real, ideal, tagged, untag, is_own, no_reply, answer_gifts, ends_marked, IsReal, IsForeseen, AllForeseen};
ghost use Rattle.serving_model.specs.Passing.{ends_told, LastTells, PassedWhole};
ghost use Rattle.serving_model.specs.TaggedStates.{IsStatedServed, tagged_states};
ghost use Rattle.serving_model.specs.Toy.{served_adder, value_of};
ghost use Rattle.serving_model.specs.Erasing.{slave_as, node_as, all_as};

/// A server that owes the laws of its services in whatever state it is keeps those of an exchange with mails that are passed on, and the AL
/// state is a part of the server behind whole rows.
pub fn tagged_is_lawful<V, M, Q, R, C>()
    ensures lawful { (x : Exchange V V M Q R) (core : V → C) → IsServed x core → IsLawful (tagged x) }
    ensures stated { (x : Exchange V V M Q R) (core : V → C) → IsServed x core → (s : Stated V V Q) → IsStatedServed x s → IsStated (tagged x) (tagged_states x s) }
{}

/// What is meant by the mails is told by no octet, and needn't be: whatever first part of the rows' mails was taken, the server is the one that
/// sees no tags, and gave the same mails.
pub fn rows_law<V, M, Q, R, C>()
    ensures { (x : Exchange V V M Q R) (core : V → C) → IsServed x core → (w : Rowed V M Q) (past : List (Row (Tagged M Q) (Asked M Q) (Option R))) (now : Row (Tagged M Q) (Asked M Q) (Option R)) (taken rest : List (Tagged M Q)) →
        ideal x w ≡ real x w → (tagged x).ready w ≡ true → AllForeseen x w past now → Settled (tagged x) w past →
        IsPrefixOf now.told ((tagged x).full (after (tagged x).serve w (told_all past)) now.service) → told_all past ++ now.told ≡ taken ++ rest → IsReal x w taken }
{}

/// A slave and its frames are the same where mails are seen otherwise: by a frame, and by a step of the processor at a server that agrees on the
/// mail that it takes.
pub fn erasing_law<N, M, W, V, B, A, Q, P, R, T>()
    ensures slave { (f : N → M) (h : W → V) (station : ℕ) (s : Slave W N) (ds : List (Datagram N)) → slave_as f h (slave_after station s ds) ≡ slave_after station (slave_as f h s) (all_as f ds) }
    ensures frame { (f : N → M) (h : W → V) (station : ℕ) (s : Slave W N) (ds : List (Datagram N)) → all_as f (frame_after station s ds) ≡ frame_after station (slave_as f h s) (all_as f ds) }
    ensures step { (f : N → M) (h : W → V) (y : Exchange W B N Q R) (x : Exchange V A M P T) (n : Node N (Serving W N)) →
        ((m : N) → node_takes (serving y) n ≡ m ∷ [] → (h (y.serve n.server.server m).0 ≡ (x.serve (h n.server.server) (f m)).0) × (map f (y.serve n.server.server m).1 ≡ (x.serve (h n.server.server) (f m)).1)) →
        node_as f h (node_serve (serving y) n) ≡ node_serve (serving x) (node_as f h n) }
{}

/// A mail that is passed on and answered: of a row of it that is over, all replies of the server's step were heard in it, in order; and its
/// client needs no marks, since the contents of a first part of the replies tell whether it is all of them.
pub fn passed_law<V, M, Q, R>()
    ensures whole { (x : Exchange V V M Q R) (more : M → Bool) → LastTells x more → (w : Rowed V M Q) (r : Row (Tagged M Q) (Asked M Q) (Option R)) (m : M) → (tagged x).ready w ≡ true → r.service ≡ Asked.Passed m true →
        IsForeseen x (ideal x w) (Asked.Passed m true) → IsWhole (tagged x) w r → PassedWhole x more w m r }
    ensures by_contents { (x : Exchange V V M Q R) (more : M → Bool) → LastTells x more → (v : V) (m : M) → x.ready v ≡ true → no_reply x.speech.emission (x.serve v m).1 ≡ false → (hs rest : List (Tagged M Q)) →
        plain (λ t. is_own t.meant) (answer_gifts {Q = Q} x.speech.emission m (x.serve v m).1) ≡ hs ++ rest → ends_marked hs ≡ ends_told more (untag hs) }
{}

/// The laws can be met: an adder whose half sum a mail that is passed on may leave owes them, so it keeps those of an exchange.
pub fn adder_is_served()
    ensures served { IsServed served_adder value_of }
    ensures lawful { IsLawful (tagged served_adder) }
{}
