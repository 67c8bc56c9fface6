//! What servers owe of their services in whatever state they are, for a slave that is made of several: a protocol over its whole server, over
//! other spellings of its mails, refused, beside others, and at each AL state. Definitions and laws, no running code.

ghost use Rattle.std.specs.Prelude.{◌≡◌, ℕ, ◌≤◌, Bool, true};
ghost use Rattle.idn_table.specs.of_exchange_model.Exchange.{Exchange, IsLawful};
ghost use Rattle.idn_table.specs.of_exchange_model.Lifted.{Spells, lifted};
ghost use Rattle.idn_table.specs.of_exchange_model.Refusing.{Refusal};
ghost use Rattle.idn_table.specs.of_exchange_model.Sides.{Slave};
ghost use Rattle.serving_model.specs.Tagged.{IsServed};
ghost use Rattle.serving_model.specs.of_state_model.Families.{InState, AreOneClient, in_states};
ghost use Rattle.slave_parts.specs.Whole.{whole_server, IsWhole, gated_whole, IsRefusedWhole};
ghost use Rattle.slave_parts.specs.Sides.{IsWholeSide, joined_whole};

/// A protocol that keeps the laws of an exchange from any server is served in whatever state its server is, where each service says what it
/// leaves of the unfinished transfers.
pub fn whole_is_served<V, A, M, Q, R>()
    ensures { (x : Exchange V A M Q R) (ready : V → Bool) (exec : V → Q → V) → IsLawful x → IsWhole x ready exec → IsServed (whole_server x ready exec) x.app }
{}

/// It is so over what the mails are written as, where each mail of a service is read back.
pub fn lifted_is_served<V, M, N, Q, R, C>()
    ensures { (x : Exchange V V M Q R) (core : V → C) (read : N → M) (write : M → N) → IsServed x core → Spells x read write → IsServed (lifted x read write) core }
{}

/// It is so where the protocol is refused.
pub fn refused_is_served<V, M, Q, R, C>()
    ensures { (x : Exchange V V M Q R) (core : V → C) (r : Refusal V M Q R) → IsServed x core → IsRefusedWhole x core r → (served : Bool) → IsServed (gated_whole served x r) core }
{}

/// Protocols of one slave are so together, where any mail leaves the slave ready and none takes it back. Stated at protocols whose states and
/// services are of one type; the lemma holds at any.
pub fn joined_is_served<I, J, V, M, Q, R, C>()
    ensures { (s : Slave J C M) (x : I → Exchange V V M Q R) (core : I → V → C) (seat : I → J → V) (reseat : I → J → V → J) → ((i : I) → IsWholeSide s (x i) (core i) (seat i) (reseat i)) → ((i : I) → IsServed (x i) (core i)) →
        ((j : J) (m : M) → s.ready j ≡ true → s.ready (s.serve j m).0 ≡ true) → ((j : J) (m : M) → s.handled j ≤ s.handled (s.serve j m).0) → IsServed (joined_whole s x seat reseat) s.app }
{}

/// And so is a server that is one of a family at each AL state.
pub fn family_is_served<V, M, Q, R, C>()
    ensures { (x : ℕ → Exchange V V M Q R) (core : V → C) → AreOneClient x → ((state : ℕ) → IsServed (x state) core) → IsServed (in_states x) (λ (v : InState V). core v.inner) }
{}
