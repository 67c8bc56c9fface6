//! Several protocols of one slave as one exchange: services of each over one application, each served by the mails of its own protocol; and a
//! protocol that a slave doesn't serve. No running code: the functions here do nothing, and their contracts state the laws.

ghost use Rattle.std.specs.Prelude.{◌≡◌, ◌≤◌, Bool};
ghost use Rattle.exchange_model.specs.Exchange.{Exchange, IsLawful};
ghost use Rattle.exchange_model.specs.Sides.{Slave, IsSide, Spares, joined};
ghost use Rattle.exchange_model.specs.Refusing.{Refusal, IsRefusal, gated};
ghost use Rattle.exchange_model.specs.Toys.{adders};

/// Protocols of one slave keep the laws together where each keeps them, a service of one leaves the others ready, and no
/// mail takes the slave back. Stated at protocols whose states and services are of one type; the lemma holds at any.
pub fn joined_is_lawful<I, J, V, A, M, Q, R>()
    ensures { (s : Slave J A M) (x : I → Exchange V A M Q R) (seat : I → J → V) → ((i : I) → IsSide s (x i) (seat i)) → ((i : I) → IsLawful (x i)) → ((i : I) → Spares s (x i) (seat i)) → ((j : J) (m : M) → s.handled j ≤ s.handled (s.serve j m).0) → IsLawful (joined s x seat) }
{}

/// A protocol keeps the laws where it is served, and where each of its services is refused by a mailbox error.
pub fn refusing_is_lawful<V, A, M, Q, R>()
    ensures { (x : Exchange V A M Q R) (r : Refusal V M Q R) → IsLawful x → IsRefusal x r → (served : Bool) → IsLawful (gated served x r) }
{}

/// The laws can be met: adders side by side over one sum, as many as there are numbers.
pub fn adders_are_lawful()
    ensures { IsLawful adders }
{}
