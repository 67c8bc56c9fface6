ghost use Rattle.std.specs.Prelude.{◌≡◌, ◌≤◌, ◌<◌, ◌+◌, ◌-◌, [], true, false, length};
ghost use Rattle.protocol_models.specs.Tables.{nowhere};
ghost use Rattle.protocol_models.specs.CoeServer.{emission_of, ended, abort, takes_whole, takes_first, begins, takes_segment, opened, takes_upload_segment};
ghost use Rattle.coe_server.specs.Serving.{target_view, transfer_of, told_of, outcome_of, emission_view, is_emitted, IsSmall, small_mail, IsFitting};

use crate::dictionary::{Dictionary, Target};
use crate::server::CoeServer;
use crate::state::{Emitted, Pending, State};
use arrayvec::ArrayVec;
use coe_values::Slot;
use ec_fields::refill;
use object_dictionary::{COMMAND_NOT_VALID, TOGGLE_NOT_ALTERNATED, TOO_LONG, TOO_SHORT};

/// The record whose download makes the slave send an emergency.
const EMERGENCY_OBJECT: u16 = 0x2F00;

/// The record whose download makes the slave send an Ethernet packet.
const PACKET_OBJECT: u16 = 0x2F01;

const NOWHERE: Target = Target {
    index: 0,
    sub: 0,
    all: false,
};

// What a download that was stored makes the slave send of itself.
fn emit(
    eoe: bool,
    target: Target,
    bytes: &[u8],
    emitted: &mut Emitted,
    octets: &mut ArrayVec<u8, 1514>,
)
    requires { IsFitting (emission_of eoe (target_view target) bytes.now) }
    ensures emitted { emission_view emitted.new octets.new.items ≡ emission_of eoe (target_view target) bytes.now }
    ensures sound { is_emitted emitted.new octets.new.items ≡ true }
{
    if target.all || target.sub != 1 {
        *emitted = Emitted::Nothing;
    } else if target.index == EMERGENCY_OBJECT {
        refill(octets, bytes);
        *emitted = Emitted::Emergency;
    } else if eoe && target.index == PACKET_OBJECT {
        refill(octets, bytes);
        *emitted = Emitted::Packet;
    } else {
        *emitted = Emitted::Nothing;
    }
}

impl CoeServer {
    // A service is over, refused with this abort code.
    pub(crate) fn refuse(&mut self, target: Target, code: u32) -> bool
        ensures told { self.new ≡ told_of self.old State.Idle (Pending.Abort target code) }
        ensures counts { result ≡ true }
    {
        self.tell(State::Idle, Pending::Abort { target, code });
        true
    }

    // The last segment has come: the objects store the value, or refuse it.
    fn finish<D: Dictionary>(
        &mut self,
        objects: &mut D,
        al: u8,
        target: Target,
        answer: Pending,
    ) -> bool
        requires { IsSmall answer }
        ensures does { takes_whole (D.tables al) self.old.eoe objects.old (target_view target) self.old.value (small_mail answer) ≡ outcome_of objects.new self.new result }
        ensures room { self.new.room ≡ self.old.room }
        ensures eoe { self.new.eoe ≡ self.old.eoe }
    {
        self.values.copy_to(Slot::Value, &mut self.whole);
        if let Some(code) = objects.download(target, self.whole.bytes(), al) {
            return self.refuse(target, code);
        }
        self.state = State::Idle;
        self.pending = answer;
        emit(
            self.eoe,
            target,
            self.whole.bytes(),
            &mut self.emitted,
            &mut self.octets,
        );
        true
    }

    // The octets of a value that begins.
    fn keep(&mut self, bytes: &[u8])
        requires { length bytes.now ≤ 16384 }
        ensures { self.new ≡ record (told_of self.old State.Idle Pending.Nothing) { value = bytes.now } }
    {
        self.tell(State::Idle, Pending::Nothing);
        self.values.begin(Slot::Value, bytes);
    }

    // A value that came in one mail: the objects read it where it stands.
    pub(crate) fn take_whole<D: Dictionary>(
        &mut self,
        objects: &mut D,
        al: u8,
        target: Target,
        bytes: &[u8],
    ) -> bool
        requires { length bytes.now ≤ 16384 }
        ensures does { takes_whole (D.tables al) self.old.eoe objects.old (target_view target) bytes.now (small_mail (Pending.DownloadAnswer target)) ≡ outcome_of objects.new self.new result }
        ensures room { self.new.room ≡ self.old.room }
        ensures eoe { self.new.eoe ≡ self.old.eoe }
    {
        if let Some(code) = objects.download(target, bytes, al) {
            return self.refuse(target, code);
        }
        self.tell(State::Idle, Pending::DownloadAnswer { target });
        emit(self.eoe, target, bytes, &mut self.emitted, &mut self.octets);
        true
    }

    pub(crate) fn take_first<D: Dictionary>(
        &mut self,
        objects: &mut D,
        al: u8,
        target: Target,
        size: u32,
        bytes: &[u8],
    ) -> bool
        requires fits { length bytes.now ≤ 1470 }
        requires within { length bytes.now ≤ size }
        ensures does { takes_first (D.tables al) self.old.eoe objects.old (target_view target) size bytes.now ≡ outcome_of objects.new self.new result }
        ensures room { self.new.room ≡ self.old.room }
        ensures eoe { self.new.eoe ≡ self.old.eoe }
    {
        if size as usize == bytes.len() {
            return self.take_whole(objects, al, target, bytes);
        }
        match objects.check(target, size, al) {
            Some(code) => self.refuse(target, code),
            None => {
                self.keep(bytes);
                self.tell(
                    State::Downloading {
                        target,
                        size,
                        toggle: false,
                    },
                    Pending::DownloadAnswer { target },
                );
                false
            }
        }
    }

    pub(crate) fn take_segment<D: Dictionary>(
        &mut self,
        objects: &mut D,
        al: u8,
        toggle: bool,
        last: bool,
        bytes: &[u8],
    ) -> bool
        ensures does { takes_segment (D.tables al) self.old.eoe objects.old (transfer_of self.old) toggle last bytes.now ≡ outcome_of objects.new self.new result }
        ensures room { self.new.room ≡ self.old.room }
        ensures eoe { self.new.eoe ≡ self.old.eoe }
    {
        match self.state {
            State::Idle => self.refuse(NOWHERE, COMMAND_NOT_VALID),
            State::Uploading {
                target,
                from: _,
                toggle: _,
            } => self.refuse(target, COMMAND_NOT_VALID),
            State::Downloading {
                target,
                size,
                toggle: expected,
            } => {
                let left = size as usize - self.values.len(Slot::Value);
                if expected != toggle {
                    return self.refuse(target, TOGGLE_NOT_ALTERNATED);
                }
                if bytes.len() > left {
                    return self.refuse(target, TOO_LONG);
                }
                if last && bytes.len() < left {
                    return self.refuse(target, TOO_SHORT);
                }
                self.pending = Pending::Nothing;
                self.values.append(Slot::Value, bytes);
                if last {
                    return self.finish(objects, al, target, Pending::SegmentAnswer { toggle });
                }
                self.tell(
                    State::Downloading {
                        target,
                        size,
                        toggle: !expected,
                    },
                    Pending::SegmentAnswer { toggle },
                );
                false
            }
        }
    }

    pub(crate) fn take_upload<D: Dictionary>(
        &mut self,
        objects: &mut D,
        al: u8,
        target: Target,
    ) -> bool
        ensures does { opened self.old.room objects.old (target_view target) ((D.tables al).upload objects.old (target_view target)) ≡ outcome_of objects.new self.new result }
        ensures room { self.new.room ≡ self.old.room }
        ensures eoe { self.new.eoe ≡ self.old.eoe }
    {
        self.tell(State::Idle, Pending::Nothing);
        if let Some(code) = objects.upload(target, al, &mut self.whole) {
            return self.refuse(target, code);
        }
        self.values.begin(Slot::Value, self.whole.bytes());
        let len = self.values.len(Slot::Value);
        let room = self.room as usize - 16;
        if 1 <= len && len <= 4 {
            self.tell(State::Idle, Pending::Whole { target });
        } else if len <= room {
            self.tell(
                State::Idle,
                Pending::First {
                    target,
                    upto: len as u32,
                },
            );
        } else {
            let upto = room as u32;
            self.tell(
                State::Uploading {
                    target,
                    from: upto,
                    toggle: false,
                },
                Pending::First { target, upto },
            );
        }
        true
    }

    pub(crate) fn take_upload_segment<D: Dictionary>(&mut self, toggle: bool) -> bool
        ensures does { (app : D) → takes_upload_segment self.old.room app (transfer_of self.old) toggle ≡ outcome_of app self.new result }
        ensures room { self.new.room ≡ self.old.room }
        ensures eoe { self.new.eoe ≡ self.old.eoe }
    {
        match self.state {
            State::Idle => self.refuse(NOWHERE, COMMAND_NOT_VALID),
            State::Downloading {
                target,
                size: _,
                toggle: _,
            } => self.refuse(target, COMMAND_NOT_VALID),
            State::Uploading {
                target,
                from,
                toggle: expected,
            } => {
                let part = self.room as usize - 9;
                let left = self.values.len(Slot::Value) - from as usize;
                if expected != toggle {
                    self.tell(
                        State::Idle,
                        Pending::Abort {
                            target,
                            code: TOGGLE_NOT_ALTERNATED,
                        },
                    );
                } else if left <= part {
                    self.tell(State::Idle, Pending::Last { from, toggle });
                } else {
                    let from_next = from + part as u32;
                    self.tell(
                        State::Uploading {
                            target,
                            from: from_next,
                            toggle: !expected,
                        },
                        Pending::Part { from, toggle },
                    );
                }
                false
            }
        }
    }
}
