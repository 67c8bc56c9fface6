//! The protocols of one slave over one application as one exchange, and that none of their clients waits in vain. No running code: the functions here
//! do nothing, and their contracts state the laws.
#![tactic(auto)]

pub mod answered_rows;
pub mod hears_first;
pub mod never_waits;

ghost use Rattle.std.specs.Prelude.{ℕ};
ghost use Rattle.protocol_models.specs.of_exchange_model.Exchange.{IsLawful};
ghost use Rattle.life_model.specs.of_state_model.Stated.{IsStated};
ghost use Rattle.life_model.specs.of_state_model.Families.{states_of};
ghost use Rattle.slave_model.specs.Acknowledged.{acknowledged};
ghost use Rattle.slave_model.specs.Profile.{Protocol, Profile, IsProfile};
ghost use Rattle.slave_model.specs.Application.{Parts, ArePartsLawful};
ghost use Rattle.protocol_models.specs.of_exchange_model.Refusing.{IsRefusal};
ghost use Rattle.slave_model.specs.Product.{served, refusal, protocols, product};

/// Each protocol keeps the laws over the one application, at each AL state, where it is served.
pub fn protocols_are_served<T, F, I>()
    ensures { (o : Parts T F I) → ArePartsLawful o → (p : Profile) → IsProfile p → (al : ℕ) (i : Protocol) → IsLawful (served o p al i) }
{}

/// The four protocols keep the laws together, at each AL state, each served or refused.
pub fn protocols_are_lawful<T, F, I>()
    ensures { (o : Parts T F I) → ArePartsLawful o → (p : Profile) → IsProfile p → (al : ℕ) → IsLawful (protocols o p al) }
{}

/// And so does the one exchange of a session, with one slave, in its AL state.
pub fn product_is_lawful<T, F, I>()
    ensures { (o : Parts T F I) → ArePartsLawful o → (p : Profile) → IsProfile p → IsLawful (product o p) }
{}

/// The AL state is a part of its application; of its services only reads of files end with an acknowledgement.
pub fn product_is_stated<T, F, I>()
    ensures { (o : Parts T F I) → ArePartsLawful o → (p : Profile) → IsProfile p → IsStated (product o p) (states_of acknowledged) }
{}

/// Each protocol can be refused, at each AL state: every service of it is then answered by mailbox error 2, counts, and has no effect.
pub fn protocols_are_refused<T, F, I>()
    ensures { (o : Parts T F I) → ArePartsLawful o → (p : Profile) → IsProfile p → (al : ℕ) (i : Protocol) → IsRefusal (served o p al i) (refusal o p al i) }
{}
