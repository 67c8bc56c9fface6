//! Clients that never wait in vain: one that has heard all that replies to what it told has a further mail to tell, until it has told all. No running code:
//! the functions here do nothing, and their contracts state the laws.

ghost use Rattle.protocol_models.specs.CoeModel.{coe_exchange};
ghost use Rattle.protocol_models.specs.Tables as Tables;
ghost use Rattle.protocol_models.specs.EoeModel.{eoe_exchange};
ghost use Rattle.protocol_models.specs.Network.{Network};
ghost use Rattle.protocol_models.specs.of_exchange_model.Areas.{Areas, AreMailboxes};
ghost use Rattle.protocol_models.specs.of_exchange_model.Exchange.{Exchange};
ghost use Rattle.protocol_models.specs.of_exchange_model.Lifted.{Spells, lifted};
ghost use Rattle.protocol_models.specs.of_exchange_model.Refusing.{Refusal, IsRefusal, gated};
ghost use Rattle.protocol_models.specs.of_exchange_model.Sides.{Slave, IsSide, joined};
ghost use Rattle.protocol_models.specs.Files as Files;
ghost use Rattle.protocol_models.specs.FoeModel.{foe_exchange};
ghost use Rattle.slave_model.specs.Waits.{NeverWaits, TellsAll};
ghost use Rattle.slave_model.specs.Application.{Parts, ArePartsLawful};
ghost use Rattle.slave_model.specs.Product.{product};
ghost use Rattle.slave_model.specs.Profile.{Profile, IsProfile};
ghost use Rattle.protocol_models.specs.Elements.{Elements};
ghost use Rattle.protocol_models.specs.SoeModel.{soe_exchange};
ghost use Rattle.life_model.specs.of_state_model.Families.{AreOneClient, in_states};
ghost use Rattle.life_model.specs.of_state_model.Stated.{Stated, with_states};
ghost use Rattle.life_model.specs.of_state_model.States.{Table};
ghost use Rattle.std.specs.Prelude.{ℕ, Bool};

/// So it is of each protocol's client: of SDO and of files each answer brings the next mail or the end, and elements, packets and address blocks are told
/// whatever was heard.
pub fn protocols_law<S>()
    ensures objects { (o : Tables.Tables S) (eoe : Bool) (areas : Areas) → Tables.AreLawful o → AreMailboxes areas → NeverWaits (coe_exchange o eoe areas) }
    ensures files { (o : Files.Files S) (areas : Areas) → Files.AreLawful o → AreMailboxes areas → NeverWaits (foe_exchange o areas) }
    ensures elements { (o : Elements S) (areas : Areas) → NeverWaits (soe_exchange o areas) }
    ensures packets { (o : Network S) (areas : Areas) → NeverWaits (eoe_exchange o areas) }
{}

/// It stays so over what mails are written as, where a protocol is refused whose client tells all before it hears, of protocols together, and of a family over
/// the AL states; and so it is with state services beside.
pub fn forms_law<I, J, V, A, M, N, Q, R>()
    ensures lifted { (x : Exchange V A M Q R) (read : N → M) (write : M → N) → Spells x read write → NeverWaits x → NeverWaits (lifted x read write) }
    ensures refused { (x : Exchange V A M Q R) (r : Refusal V M Q R) → IsRefusal x r → TellsAll x r → NeverWaits x → (served : Bool) → NeverWaits (gated served x r) }
    ensures joined { (s : Slave J A M) (x : I → Exchange V A M Q R) (seat : I → J → V) → ((i : I) → IsSide s (x i) (seat i)) → ((i : I) → NeverWaits (x i)) → NeverWaits (joined s x seat) }
    ensures family { (x : ℕ → Exchange V A M Q R) → AreOneClient x → ((state : ℕ) → NeverWaits (x state)) → NeverWaits (in_states x) }
    ensures states { (x : Exchange V A M Q R) (s : Stated V A Q) (table : Table) → NeverWaits x → NeverWaits (with_states x s table) }
{}

/// So it is of the one exchange of a slave.
pub fn slave_law<T, F, I>()
    ensures { (o : Parts T F I) → ArePartsLawful o → (p : Profile) → IsProfile p → NeverWaits (product o p) }
{}
