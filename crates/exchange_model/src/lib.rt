//! One mailbox server against the services of one client, over mails alone: what an exchange is made of, the laws that each protocol owes for its
//! services, and what follows for the rows of a session; and several protocols of one slave as one exchange. No octets and no running code: the
//! functions here do nothing, and their contracts state the laws.
#![tactic(auto)]

pub mod exchange_sum;

ghost use Rattle.std.specs.Prelude.{◌≡◌, ◌≤◌, ◌+◌, ℕ, Bool, true, List, [], ◌∷◌, ◌++◌, length, Option, Some};
ghost use Rattle.exchange_model.specs.Prefix.{IsPrefixOf};
ghost use Rattle.exchange_model.specs.Exchange.{Exchange, IsLawful, AnswersLast, after, given, plain};
ghost use Rattle.exchange_model.specs.Dialogue.{Turn, Decides, said, sent};
ghost use Rattle.exchange_model.specs.Rows.{Row, Fits, Rest, begun, row_heard, row_told, left};
ghost use Rattle.exchange_model.specs.Laws.{Moment};
ghost use Rattle.exchange_model.specs.Lifted.{Spells, lifted};
ghost use Rattle.exchange_model.specs.Toy.{adder};

/// The laws of rows. The newest row of a slave goes on by four steps, and each keeps that rows fit: it begins, takes up a mail, hears mails,
/// and the server takes mails.
pub fn row_steps<V, A, M, Q, R>()
    // a slave's first service comes into hand
    ensures first { (x : Exchange V A M Q R) → IsLawful x → (v : V) (q : Q) (frame : ℕ) → x.ready v ≡ true → x.speech.valid q ≡ true → Moment x v [] [] (begun q frame) [] [] [] }
    // the client's side takes up the next mail of the service in hand
    ensures holds { (x : Exchange V A M Q R) → IsLawful x → (v : V) → x.ready v ≡ true → (front last : List (Row M Q R)) (now : Row M Q R) (held taken accepted : List M) →
        Moment x v front last now held taken accepted → (m : M) (more : List M) → left x.speech now ≡ m ∷ more → Moment x v front last (row_told m now) (held ++ m ∷ []) taken accepted }
    // the server takes mails that were held
    ensures takes { (x : Exchange V A M Q R) → IsLawful x → (v : V) → x.ready v ≡ true → (front last : List (Row M Q R)) (now : Row M Q R) (held taken accepted : List M) →
        Moment x v front last now held taken accepted → (ms : List M) → IsPrefixOf (taken ++ ms) held → Moment x v front last now held (taken ++ ms) accepted }
    // the client's side hears mails that were given
    ensures hears { (x : Exchange V A M Q R) → IsLawful x → (v : V) → x.ready v ≡ true → (front last : List (Row M Q R)) (now : Row M Q R) (held taken accepted : List M) →
        Moment x v front last now held taken accepted → (ms : List M) (frame : ℕ) → IsPrefixOf (accepted ++ ms) (given x.serve v taken) →
        Moment x v front last (row_heard x.speech frame ms now) held taken (accepted ++ ms) }
    // the next service comes into hand, behind an answer and with nothing left to tell
    ensures answered { (x : Exchange V A M Q R) → IsLawful x → (v : V) → x.ready v ≡ true → (front last : List (Row M Q R)) (now : Row M Q R) (held taken accepted : List M) →
        Moment x v front last now held taken accepted → (answer : R × ℕ) → now.answer ≡ Some answer → left x.speech now ≡ [] → (q : Q) (frame : ℕ) → x.speech.valid q ≡ true →
        Moment x v (front ++ last) (now ∷ []) (begun q frame) held taken accepted }
    // or behind a last write, where at most one mail is on its way
    ensures handed { (x : Exchange V A M Q R) → IsLawful x → (v : V) → x.ready v ≡ true → (front last : List (Row M Q R)) (now : Row M Q R) (held taken accepted : List M) →
        Moment x v front last now held taken accepted → x.speech.handed now.service ≡ true → left x.speech now ≡ [] → length held ≤ length taken + 1 → (q : Q) (frame : ℕ) → x.speech.valid q ≡ true →
        Moment x v (front ++ last) (now ∷ []) (begun q frame) held taken accepted }
{}

/// What rows that fit promise: the server has carried out exactly a prefix of their services, each once and in order, and what was answered
/// is its application's; and all of them, where nothing is left to tell, to take and to hear.
pub fn row_promises<V, A, M, Q, R>()
    ensures fits { (x : Exchange V A M Q R) → IsLawful x → (v : V) → x.ready v ≡ true → (front last : List (Row M Q R)) (now : Row M Q R) (held taken accepted : List M) →
        Moment x v front last now held taken accepted → Fits x v (front ++ last ++ now ∷ []) (after x.serve v taken) accepted }
    ensures rest_answered { (x : Exchange V A M Q R) → IsLawful x → (v : V) → x.ready v ≡ true → (front last : List (Row M Q R)) (now : Row M Q R) (held taken accepted : List M) →
        Moment x v front last now held taken accepted → (answer : R × ℕ) → now.answer ≡ Some answer → left x.speech now ≡ [] → taken ≡ held → accepted ≡ given x.serve v taken →
        Rest x v (front ++ last ++ now ∷ []) (after x.serve v taken) accepted }
    ensures rest_handed { (x : Exchange V A M Q R) → IsLawful x → (v : V) → x.ready v ≡ true → (front last : List (Row M Q R)) (now : Row M Q R) (held taken accepted : List M) →
        Moment x v front last now held taken accepted → x.speech.handed now.service ≡ true → left x.speech now ≡ [] → taken ≡ held → accepted ≡ given x.serve v taken →
        Rest x v (front ++ last ++ now ∷ []) (after x.serve v taken) accepted }
{}

/// A client that goes by the answers follows them: what it has sent on a first part of the replies is a first part of its mails, and on all
/// replies it has sent all of them. Several answers to one mail, mails without an answer and mails sent again are covered.
pub fn dialogues<V, M>()
    ensures follows { (serve : V → M → V × List M) (emission : M → Bool) (decide : M → List M → Option Turn) (fuel : ℕ) (v : V) (ms hs more : List M) →
        Decides serve emission decide ms → plain emission (given serve v (sent serve emission decide fuel v ms)) ≡ hs ++ more →
        IsPrefixOf (said decide fuel ms hs) (sent serve emission decide fuel v ms) }
    ensures all_said { (serve : V → M → V × List M) (emission : M → Bool) (decide : M → List M → Option Turn) (fuel : ℕ) (v : V) (ms : List M) →
        Decides serve emission decide ms → said decide fuel ms (plain emission (given serve v (sent serve emission decide fuel v ms))) ≡ sent serve emission decide fuel v ms }
{}

/// The laws over mails hold over what these mails are written as, where each mail of a service is read back from what it is written as.
pub fn laws_of_spellings<V, A, M, N, Q, R>()
    ensures { (x : Exchange V A M Q R) (read : N → M) (write : M → N) → IsLawful x → Spells x read write → IsLawful (lifted x read write) }
{}

/// Where each mail of a service brings a reply at last, so does what it is written as.
pub fn spellings_answer_last<V, A, M, N, Q, R>()
    ensures { (x : Exchange V A M Q R) (read : N → M) (write : M → N) (acknowledged : Q → Bool) → Spells x read write → AnswersLast x acknowledged → AnswersLast (lifted x read write) acknowledged }
{}

/// The laws can be met: an adder, with a service of two mails and an emission, and a posted one, owes them and keeps them.
pub fn adder_is_lawful()
    ensures { IsLawful adder }
{}
