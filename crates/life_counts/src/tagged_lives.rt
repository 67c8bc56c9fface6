//! What a life has gained in which mails are passed on beside services, by a session that sees what is meant by its mails. Definitions and laws, no
//! running code: the functions here do nothing, and their contracts state the laws.

ghost use Rattle.std.specs.Prelude.{◌≡◌, ◌≤◌, ◌+◌, ℕ, Bool};
ghost use Rattle.master_hand.specs.of_exchange_model.Exchange.{Exchange, IsLawful};
ghost use Rattle.life_counts.specs.Begun.{life_most, AreUnopened};
ghost use Rattle.few_replies.specs.of_life_model.Gains.{gains};
ghost use Rattle.few_replies.specs.of_life_model.Eras.{Clearing};
ghost use Rattle.few_replies.specs.of_life_model.Lives.{Spot, Life};
ghost use Rattle.few_replies.specs.Calm.{calm_tagged};
ghost use Rattle.master_hand.specs.of_segment_model.Slaves.{Processor};
ghost use Rattle.master_hand.specs.of_serving_model.Tagged.{tagged};
ghost use Rattle.master_hand.specs.of_serving_model.TaggedStates.{tagged_states};
ghost use Rattle.master_hand.specs.of_state_model.Stated.{Stated, IsStated};
ghost use Rattle.master_hand.specs.of_state_model.States.{Table};
ghost use Rattle.life_counts.specs.Worked.{KeepsAll, IsWorked};
ghost use Rattle.life_counts.specs.Seen.{life_seen};

/// WHAT A LIFE HAS GAINED whose epochs are sessions of an exchange is no more than what the services count that came into hand in all of them: whatever
/// its mails are, so also where it is seen what is meant by each.
pub fn worked_counts<V, A, M, Q, R, K>()
    ensures { (x : Exchange V A M Q R) (s : Stated V A Q) (processor : Processor V) (table : ℕ → Table) (spot : Spot) (c : Clearing V A) (shape : A → K) (count : K → Q → ℕ) (first : A) (l : Life M Q R) →
        IsLawful x → IsStated x s → KeepsAll x s c shape count → IsWorked x s processor table spot c first l → AreUnopened l → gains l ≤ 1 + life_most (count (shape first)) l }
{}

/// AS ANOTHER SEES IT, with other forms of its mails and other names of its services, a life has gained just as much; and its services count as much where
/// each does by its other name.
pub fn seen_law<N, M, P, Q, S, R>()
    ensures gains { (f : N → M) (g : P → Q) (h : S → R) (l : Life N P S) → gains (life_seen f g h l) ≡ gains l }
    ensures unopened { (f : N → M) (g : P → Q) (h : S → R) (l : Life N P S) → AreUnopened (life_seen f g h l) → AreUnopened l }
    ensures most { (f : N → M) (g : P → Q) (h : S → R) (most : P → ℕ) (count : Q → ℕ) (l : Life N P S) → ((q : P) → most q ≤ count (g q)) → life_most most l ≤ life_most count (life_seen f g h l) }
{}

/// THE AL STATE is a part of calm servers too, where telling it leaves them calm.
pub fn calm_stated<V, M, Q, R>()
    ensures { (x : Exchange V V M Q R) (s : Stated V V Q) (calm : V → Bool) (fair : M → Bool) → ((state : ℕ) (v : V) → calm (s.tell state v) ≡ calm v) → IsStated (tagged x) (tagged_states x s) →
        IsStated (calm_tagged x calm fair) (tagged_states x s) }
{}
