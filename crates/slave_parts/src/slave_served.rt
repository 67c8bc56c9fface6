//! The services of one slave from whatever server: CoE, FoE, SoE and EoE over one application, with unfinished transfers of any kind. Definitions and
//! laws, no running code.

ghost use Rattle.serving_model.specs.Tagged.{IsServed};
ghost use Rattle.serving_model.specs.TaggedStates.{IsStatedServed};
ghost use Rattle.slave_model.specs.Acknowledged.{acknowledged};
ghost use Rattle.slave_model.specs.Application.{Parts, ArePartsLawful};
ghost use Rattle.slave_model.specs.Product.{product};
ghost use Rattle.slave_model.specs.Profile.{Profile, IsProfile};
ghost use Rattle.slave_model.specs.Server.{Server};
ghost use Rattle.slave_parts.specs.Served.{product_whole, AreFilesServed};
ghost use Rattle.serving_model.specs.of_state_model.Families.{InState, states_of};
ghost use Rattle.std.specs.Prelude.{◌≡◌};

/// The one exchange of a session owes the laws of its services from whatever server: a mail of another sender may have left unfinished transfers
/// of any protocol. The AL state is a part of the server. It takes each mail as the exchange of a session does.
pub fn slave_is_served<T, F, I>()
    ensures served { (o : Parts T F I) → ArePartsLawful o → AreFilesServed o → (p : Profile) → IsProfile p → IsServed (product_whole o p) (λ (v : InState (Server T F I)). v.inner.app) }
    ensures stated { (o : Parts T F I) → ArePartsLawful o → AreFilesServed o → (p : Profile) → IsProfile p → IsStatedServed (product_whole o p) (states_of {V = Server T F I} {A = Server T F I} acknowledged) }
    ensures same { (o : Parts T F I) (p : Profile) → ((product_whole o p).serve ≡ (product o p).serve) × ((product_whole o p).handled ≡ (product o p).handled) }
{}
