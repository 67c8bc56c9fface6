//! A slave's object dictionary with its AL state: what its CoE server owes so that state services stand beside its services by mails. No running
//! code: the function here does nothing, and its contract states the law.

ghost use Rattle.std.specs.Prelude.{◌≡◌, ℕ, Bool, true, List};
ghost use Rattle.slave_server.specs.of_exchange_model.Areas.{Areas, AreMailboxes};
ghost use Rattle.slave_server.specs.of_exchange_model.Exchange.{IsLawful};
ghost use Rattle.slave_server.specs.of_exchange_model.Lifted.{EachOf};
ghost use Rattle.slave_server.specs.of_protocol_models.CoeOctets.{is_fragment};
ghost use Rattle.slave_server.specs.of_coe_server.ObjectTables.{tables_with};
ghost use Rattle.slave_server.specs.of_state_model.Stated.{IsStated};
ghost use Rattle.slave_server.specs.of_state_model.Families.{states_of};
ghost use Rattle.slave_app.specs.States.{acknowledged, coe_states, coe_mail_states};

/// CoE over the object dictionary's own tables, whose access rights depend on the AL state, keeps the laws of an exchange, and its AL state is a
/// part of its application; over messages, and over mailbox mails where packets are cut into fragments.
pub fn objects_are_stated()
    ensures lawful { (cut : List ℕ → List (List ℕ)) (eoe : Bool) (areas : Areas) → AreMailboxes areas → IsLawful (coe_states (tables_with cut) eoe areas) }
    ensures stated { (cut : List ℕ → List (List ℕ)) (eoe : Bool) (areas : Areas) → AreMailboxes areas → IsStated (coe_states (tables_with cut) eoe areas) (states_of acknowledged) }
    ensures mails_lawful { (cut : List ℕ → List (List ℕ)) (eoe : Bool) (areas : Areas) → ((octets : List ℕ) → EachOf (λ body. is_fragment body ≡ true) (cut octets)) → AreMailboxes areas →
        IsLawful (coe_mail_states (tables_with cut) eoe areas) }
    ensures mails_stated { (cut : List ℕ → List (List ℕ)) (eoe : Bool) (areas : Areas) → ((octets : List ℕ) → EachOf (λ body. is_fragment body ≡ true) (cut octets)) → AreMailboxes areas →
        IsStated (coe_mail_states (tables_with cut) eoe areas) (states_of acknowledged) }
{}
