ghost use Rattle.std.specs.Prelude.{◌≡◌, IfOk, OnErr};
ghost use Rattle.slave_server.specs.of_protocol_models.CoeServer.{emission_of};
ghost use Rattle.slave_server.specs.of_coe_server.Serving.{target_view, ask_view, IsFitting};
ghost use Rattle.slave_server.specs.of_coe_server.ObjectTables.{stores, reads, tells};
ghost use Rattle.slave_app.specs.Meaning.{emission_view, meant_by, sdo_of, downloaded, told, sdo_meaning};

use crate::app::App;
use crate::performed::{Emission, Performed, Reply, replied, valued};
use coe_server::{Dictionary, Question, Target};
use ec_fields::{NoMemory, Octets, Transfer, buffer_of};
use mailbox_mail::ReplyKind;
use object_dictionary::SdoService;
use std::alloc::Global;

/// The most octets that an SDO service brings.
pub(crate) const MOST: usize = 16_384;

/// The object whose download is sent as an emergency.
const EMERGENCY: u16 = 0x2F00;

/// The object whose download is sent as a packet, where EoE is served.
const PACKET: u16 = 0x2F01;

// What a download that was stored makes the slave send of itself.
fn emitted(eoe: bool, target: Target, bytes: &[u8]) -> Option<Emission>
    requires { IsFitting (emission_of eoe (target_view target) bytes.now) }
    ensures { emission_view result ≡ emission_of eoe (target_view target) bytes.now }
{
    if target.all || target.sub != 1 {
        None
    } else if target.index == EMERGENCY {
        Some(Emission::Emergency(buffer_of(bytes)))
    } else if eoe && target.index == PACKET {
        Some(Emission::Packet(buffer_of(bytes)))
    } else {
        None
    }
}

impl App {
    // Stores a whole value, or refuses it by its abort code; then nothing changed.
    fn download(&mut self, alloc: Global, target: Target, bytes: &[u8]) -> Performed
        ensures { meant_by self.new result ≡ downloaded self.old (target_view target) bytes.now (stores self.old.al self.old.objects (target_view target) bytes.now) }
    {
        match Dictionary::download(&mut self.objects, target, bytes, self.al) {
            Some(code) => replied(alloc, ReplyKind::Abort(code)),
            None => Performed {
                reply: Reply {
                    kind: ReplyKind::Done,
                    value: Octets::new(alloc),
                },
                emission: emitted(self.eoe, target, bytes),
            },
        }
    }

    // Reads a whole value, or refuses it by its abort code.
    fn upload(&self, alloc: Global, target: Target) -> Result<Performed, NoMemory>
        ensures { IfOk result (λ done. meant_by self.now done ≡ told self.now (reads self.now.al self.now.objects (target_view target))) }
    {
        let mut value = Transfer::new(alloc, MOST)?;
        match Dictionary::upload(&self.objects, target, self.al, &mut value) {
            Some(code) => Ok(replied(alloc, ReplyKind::Abort(code))),
            None => Ok(valued(Octets::copy_of(alloc, value.bytes())?)),
        }
    }

    // Tells a list of objects, an object or an entry, or refuses it by its abort code.
    fn inform(&self, alloc: Global, question: Question) -> Result<Performed, NoMemory>
        ensures { IfOk result (λ done. meant_by self.now done ≡ told self.now (tells self.now.objects (ask_view question))) }
    {
        let mut value = Transfer::new(alloc, MOST)?;
        match Dictionary::info(&self.objects, question, self.al, &mut value) {
            Some(code) => Ok(replied(alloc, ReplyKind::Abort(code))),
            None => Ok(valued(Octets::copy_of(alloc, value.bytes())?)),
        }
    }

    /// A service of CoE where it is served.
    pub(crate) fn perform_sdo(
        &mut self,
        alloc: Global,
        service: &SdoService,
    ) -> Result<Performed, NoMemory>
        ensures means { IfOk result (λ done. meant_by self.new done ≡ sdo_meaning self.old (sdo_of service.now)) }
        ensures same { OnErr result (self.new ≡ self.old) }
    {
        match service {
            SdoService::Download { index, sub, bytes } => {
                let target = Target {
                    index: *index,
                    sub: *sub,
                    all: false,
                };
                Ok(self.download(alloc, target, bytes.bytes()))
            }
            SdoService::DownloadAll { index, from, bytes } => {
                let target = Target {
                    index: *index,
                    sub: *from,
                    all: true,
                };
                Ok(self.download(alloc, target, bytes.bytes()))
            }
            SdoService::Upload { index, sub } => {
                let target = Target {
                    index: *index,
                    sub: *sub,
                    all: false,
                };
                self.upload(alloc, target)
            }
            SdoService::UploadAll { index, from } => {
                let target = Target {
                    index: *index,
                    sub: *from,
                    all: true,
                };
                self.upload(alloc, target)
            }
            SdoService::List { kind } => self.inform(alloc, Question::List { kind: *kind }),
            SdoService::ObjectInfo { index } => {
                self.inform(alloc, Question::Object { index: *index })
            }
            SdoService::EntryInfo { index, sub, info } => {
                let question = Question::Entry {
                    index: *index,
                    sub: *sub,
                    info: *info,
                };
                self.inform(alloc, question)
            }
        }
    }
}
