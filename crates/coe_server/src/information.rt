ghost use Rattle.std.specs.Prelude.{◌≡◌, true};
ghost use Rattle.protocol_models.specs.CoeServer.{takes_ask};
ghost use Rattle.coe_server.specs.Serving.{ask_view, transfer_of, told_of, outcome_of};

use crate::dictionary::{Dictionary, Question};
use crate::server::CoeServer;
use crate::state::Pending;
use coe_values::Slot;
use object_dictionary::COMMAND_NOT_VALID;

impl CoeServer {
    // An information service; it leaves the SDO transfer alone.
    pub(crate) fn take_question<D: Dictionary>(
        &mut self,
        objects: &mut D,
        al: u8,
        question: Question,
    ) -> bool
        ensures does { takes_ask (D.tables al) self.old.room objects.old (transfer_of self.old) (ask_view question) ≡ outcome_of objects.new self.new result }
        ensures room { self.new.room ≡ self.old.room }
        ensures eoe { self.new.eoe ≡ self.old.eoe }
    {
        self.tell(self.state, Pending::Nothing);
        if let Some(code) = objects.info(question, al, &mut self.whole) {
            self.tell(self.state, Pending::Error { code });
            return true;
        }
        self.values.begin(Slot::Told, self.whole.bytes());
        let opcode = match question {
            Question::List { kind: _ } => 2,
            Question::Object { index: _ } => 4,
            Question::Entry {
                index: _,
                sub: _,
                info: _,
            } => 6,
        };
        self.tell(self.state, Pending::Parts { opcode, from: 0 });
        true
    }

    // An information mail that asks nothing.
    pub(crate) fn deny(&mut self) -> bool
        ensures told { self.new ≡ told_of self.old self.old.state (Pending.Error COMMAND_NOT_VALID) }
        ensures counts { result ≡ true }
    {
        self.tell(
            self.state,
            Pending::Error {
                code: COMMAND_NOT_VALID,
            },
        );
        true
    }
}
