//! Services by mails and AL states of one slave as one exchange: a service by mails acts on the application in the AL state that stands, and a
//! state service changes that state, each in its turn. No running code: the functions here do nothing, and their contracts state the laws.

ghost use Rattle.std.specs.Prelude.{◌≡◌, ℕ, Bool, length};
ghost use Rattle.segment_model.specs.of_exchange_model.Exchange.{Exchange, IsLawful, AnswersLast, after, given};
ghost use Rattle.segment_model.specs.of_exchange_model.Rows.{exec_all};
ghost use Rattle.state_model.specs.States.{Table};
ghost use Rattle.state_model.specs.Stated.{Stated, IsStated, with_states};
ghost use Rattle.state_model.specs.Families.{AreOneClient, AreOne, in_states, states_of};
ghost use Rattle.state_model.specs.Toys.{desk, desk_states, stated_desk, start, tried, taken, heard, ended, replies, told};

/// An exchange that keeps the laws and whose AL state is a part of its application keeps them with its state services beside.
pub fn states_are_lawful<V, A, M, Q, R>()
    ensures { (x : Exchange V A M Q R) (s : Stated V A Q) (table : Table) → IsStated x s → IsLawful x → IsLawful (with_states x s table) }
{}

/// A family of exchanges, one for each AL state, as one exchange that serves by the member at the AL state that stands: where each member keeps
/// the laws, and the client is one, it keeps them. Where besides the AL state leaves all that is seen in a server, and each member brings a
/// reply at last for services without an acknowledgement, the AL state is a part of the application.
pub fn families_are_stated<V, A, M, Q, R>()
    ensures lawful { (x : ℕ → Exchange V A M Q R) → AreOneClient x → ((state : ℕ) → IsLawful (x state)) → IsLawful (in_states x) }
    ensures stated { (x : ℕ → Exchange V A M Q R) (acknowledged : Q → Bool) → AreOne x → ((state : ℕ) → AnswersLast (x state) acknowledged) → IsStated (in_states x) (states_of acknowledged) }
{}

/// The laws can be met: an adder with an AL state, which adds in one state alone, owes and keeps those of exchange and those of an AL state,
/// and so do both as one exchange. A sum is refused, a control word brings the state that adds, one to an unknown state is refused, and the
/// same sum is then done.
pub fn toy_is_lawful()
    ensures stated { IsStated desk desk_states }
    ensures lawful { IsLawful desk }
    ensures both { IsLawful stated_desk }
    ensures gives { given stated_desk.serve start taken ≡ heard }
    ensures comes { after stated_desk.serve start taken ≡ ended }
    // which is what the services do and reply by the laws, with none left out
    ensures counts { stated_desk.handled ended ≡ length tried }
    ensures executes { exec_all stated_desk (stated_desk.app start) tried ≡ stated_desk.app ended }
    ensures replies { replies (stated_desk.app start) tried ≡ told }
{}
