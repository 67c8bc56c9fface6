//! CoE of a slave whose access rights depend on its AL state: tables at each AL state as one exchange, over which a service by mails acts in the
//! AL state that stands, so that state services can stand beside. No running code: the functions here do nothing, and their contracts state
//! the laws.

ghost use Rattle.slave_server.specs.of_protocol_models.CoeModel.{coe_exchange};
ghost use Rattle.slave_server.specs.of_protocol_models.CoeOctets.{AreSpelled, coe_mail_exchange};
ghost use Rattle.slave_server.specs.of_protocol_models.Tables.{Tables, AreLawful};
ghost use Rattle.slave_app.specs.States.{AreOneKind, acknowledged, coe_states, coe_mail_states};
ghost use Rattle.slave_app.specs.Toys.{drawer, slave, start, tried, taken, heard, ended, replies, told};
ghost use Rattle.slave_server.specs.of_exchange_model.Areas.{Areas, AreMailboxes};
ghost use Rattle.slave_server.specs.of_exchange_model.Exchange.{IsLawful, AnswersLast, after, given};
ghost use Rattle.slave_server.specs.of_exchange_model.Rows.{exec_all};
ghost use Rattle.slave_server.specs.of_state_model.Families.{states_of};
ghost use Rattle.slave_server.specs.of_state_model.Stated.{IsStated};
ghost use Rattle.std.specs.Prelude.{◌≡◌, ℕ, Bool, length};

/// Each mail of an SDO or information service brings a reply, so where all replies came, all mails were taken.
pub fn coe_answers_last<S>()
    ensures messages { (o : Tables S) (eoe : Bool) (areas : Areas) → AreLawful o → AreMailboxes areas → AnswersLast (coe_exchange o eoe areas) acknowledged }
    ensures octets { (o : Tables S) (eoe : Bool) (areas : Areas) → AreLawful o → AreSpelled o → AreMailboxes areas → AnswersLast (coe_mail_exchange o eoe areas) acknowledged }
{}

/// CoE over tables at each AL state keeps the laws of an exchange, and its AL state is a part of its application.
pub fn coe_is_stated<S>()
    ensures lawful { (o : ℕ → Tables S) (eoe : Bool) (areas : Areas) → ((al : ℕ) → AreLawful (o al)) → AreMailboxes areas → IsLawful (coe_states o eoe areas) }
    ensures stated { (o : ℕ → Tables S) (eoe : Bool) (areas : Areas) → AreOneKind o → ((al : ℕ) → AreLawful (o al)) → AreMailboxes areas →
        IsStated (coe_states o eoe areas) (states_of acknowledged) }
{}

/// The same over mailbox mails.
pub fn coe_mails_are_stated<S>()
    ensures lawful { (o : ℕ → Tables S) (eoe : Bool) (areas : Areas) → ((al : ℕ) → AreLawful (o al)) → ((al : ℕ) → AreSpelled (o al)) → AreMailboxes areas →
        IsLawful (coe_mail_states o eoe areas) }
    ensures stated { (o : ℕ → Tables S) (eoe : Bool) (areas : Areas) → AreOneKind o → ((al : ℕ) → AreLawful (o al)) → ((al : ℕ) → AreSpelled (o al)) → AreMailboxes areas →
        IsStated (coe_mail_states o eoe areas) (states_of acknowledged) }
{}

/// The laws can be met: a dictionary of one object, which may be written in Operational alone. A download in Pre-Operational is refused, a
/// control word brings Operational, and the same download is then done and read back.
pub fn toy_is_lawful()
    ensures kind { AreOneKind drawer }
    ensures lawful { (al : ℕ) → AreLawful (drawer al) }
    ensures spelled { (al : ℕ) → AreSpelled (drawer al) }
    ensures both { IsLawful slave }
    ensures gives { given slave.serve start taken ≡ heard }
    ensures comes { after slave.serve start taken ≡ ended }
    // which is what the services do and reply by the laws, with none left out
    ensures counts { slave.handled ended ≡ length tried }
    ensures executes { exec_all slave (slave.app start) tried ≡ slave.app ended }
    ensures replies { replies (slave.app start) tried ≡ told }
{}
