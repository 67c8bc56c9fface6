//! How many mails a mail that is passed on takes, and that the frame bound counts enough for it. Definitions and laws, no running code: the functions
//! here do nothing, and their contracts state the laws.

ghost use Rattle.std.specs.Prelude.{◌≡◌, ◌≤◌, ◌+◌, ◌*◌, ◌&&◌, ℕ, suc, Bool, true};
ghost use Rattle.slave_parts.specs.of_exchange_model.Exchange.{Exchange, IsLawful};
ghost use Rattle.slave_parts.specs.of_serving_model.Tagged.{IsServed, IsForeseen, Asked, Rowed, ideal};
ghost use Rattle.few_replies.specs.Counts.{mails_between};
ghost use Rattle.few_replies.specs.RowCounts.{AreCounted};
ghost use Rattle.slave_parts.specs.of_life_model.Tally.{quiet};
ghost use Rattle.few_replies.specs.Calm.{IsCalm, KeepsPassed, calm_tagged, asked_count};

/// SERVICES AND MAILS THAT ARE PASSED ON ARE COUNTED, by what no service and no such mail changes of the server: a service takes what it takes alone, a
/// mail itself and the most that it is answered with. That holds over servers that are calm, and of fair mails; they are an exchange that keeps its laws.
pub fn calm_law<V, M, Q, R, C, K>()
    ensures lawful { (x : Exchange V V M Q R) (core : V → C) (calm : V → Bool) (fair : M → Bool) (most : ℕ) → IsServed x core → IsCalm x calm fair most → IsLawful (calm_tagged x calm fair) }
    ensures counted { (x : Exchange V V M Q R) (core : V → C) (calm : V → Bool) (fair : M → Bool) (most : ℕ) (shape : V → K) (count : K → Q → ℕ) → IsServed x core → IsCalm x calm fair most → KeepsPassed x calm fair shape →
        AreCounted x shape count → AreCounted (calm_tagged x calm fair) (λ w. shape (ideal x w)) (asked_count count most) }
    // One that is foreseen as it is takes one less: none is made up.
    ensures foreseen { (x : Exchange V V M Q R) (calm : V → Bool) (fair : M → Bool) (most : ℕ) → IsCalm x calm fair most → (w : Rowed V M Q) (m : M) (answers : Bool) → (calm_tagged x calm fair).ready w ≡ true → fair m ≡ true →
        IsForeseen x (ideal x w) (Asked.Passed m answers) → mails_between (calm_tagged x calm fair) w (Asked.Passed m answers) ≤ 1 + most }
{}

/// THE FRAME BOUND COUNTS ENOUGH FOR A DATAGRAM THAT IS HEARD: its mail, one that may be made up, 76 that answer it and the four steps that it comes take
/// no more frames than 128 have in the bound, each for as many frames as pass without a gain, and even for six times as many.
pub fn gram_law()
    ensures quiet { (slaves pace : ℕ) → 1 ≤ pace → suc (quiet slaves pace) ≤ 4 * (pace * (slaves + 1)) }
    ensures enough { (slaves pace still : ℕ) → suc still ≤ 24 * (pace * (slaves + 1)) → (2 + 76 + 4) * suc still ≤ 16 * pace * (slaves + 1) * 128 }
{}
