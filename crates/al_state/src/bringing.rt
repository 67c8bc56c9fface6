ghost use Rattle.std.specs.Prelude.{◌≡◌, ◌<◌, ◌-◌, ◌%◌, ◌&&◌, true, false};
ghost use Rattle.al_state.specs.BringUp.{manager_text, asking, shows, step_after, step_behind, octets_of, head_of, is_watch, is_behind_init, is_up};

use crate::machine::INIT;
use arrayvec::ArrayVec;
use datagrams::register::{
    AL_CONTROL, AL_STATUS, IN_AREA, IN_CONTROL, MANAGER_0, MANAGER_1, OUT_AREA, OUT_CONTROL,
    STATION_ADDRESS,
};
use datagrams::{Command, Head};
use ec_fields::{buffer_of, put_u16, u16_at};

// Init, with the acknowledge of an error.
const RETURN: u8 = INIT + 0x10;

/// The access of a bring-up or a reopening that is in hand; each is repeated until it returns.
#[derive(Clone, Copy)]
pub enum BringStep {
    /// Of a reopening: writes Init with the acknowledge to AL control, at the slave's place in the ring.
    Return,
    /// Of a reopening: reads AL status, at the slave's place in the ring, until it shows Init.
    Watch,
    /// Writes the station address, at the slave's place in the ring.
    Address,
    /// Of a reopening: writes sync manager 0, not enabled.
    OutOff,
    /// Of a reopening: writes sync manager 1, not enabled.
    InOff,
    /// Writes sync manager 0, enabled.
    OutManager,
    /// Writes sync manager 1, enabled.
    InManager,
    /// Writes the start state to AL control.
    Start,
    /// Reads AL status with its code until it shows the start state.
    Await,
}

/// A bring-up of one slave by the master: `adp` names its place in the ring, `start` is the state in
/// which it begins to serve, PreOp or Bootstrap, and `again` says that it is a reopening, which leads the slave
/// back to Init first and disables its mailboxes.
#[derive(Clone, Copy)]
pub struct BringUp {
    pub adp: u16,
    pub station: u16,
    pub out_len: u16,
    pub in_len: u16,
    pub start: u8,
    pub again: bool,
    pub step: BringStep,
}

/// A bring-up at its first access, of the slave at ring position `at`, with the lengths of its
/// mailbox areas.
pub fn bring_new(at: u32, station: u16, out_len: u16, in_len: u16, start: u8) -> BringUp
    requires { at < 16 }
    ensures { result ≡ record { adp = (65536 - at) % 65536; station = station; out_len = out_len; in_len = in_len; start = start; again = false; step = BringStep.Address } }
{
    BringUp {
        adp: ((65536 - at) % 65536) as u16,
        station,
        out_len,
        in_len,
        start,
        again: false,
        step: BringStep::Address,
    }
}

/// A reopening at its first access, of the slave at ring position `at`: from whatever state it is in, back to Init and
/// then to the state `start`.
pub fn reopen_new(at: u32, station: u16, out_len: u16, in_len: u16, start: u8) -> BringUp
    requires { at < 16 }
    ensures { result ≡ record { adp = (65536 - at) % 65536; station = station; out_len = out_len; in_len = in_len; start = start; again = true; step = BringStep.Return } }
{
    BringUp {
        again: true,
        step: BringStep::Return,
        ..bring_new(at, station, out_len, in_len, start)
    }
}

/// Whether a reopening has seen its slave in Init; of a first bring-up `false`.
pub fn cleared(up: &BringUp) -> bool
    ensures { result ≡ up.now.again && is_behind_init up.now.step }
{
    up.again && !matches!(up.step, BringStep::Return | BringStep::Watch)
}

// The eight octets of a sync manager, enabled or not.
fn manager_octets(start: u16, len: u16, control: u8, activate: u8) -> [u8; 8]
    ensures { result ≡ manager_text start len control activate }
{
    let mut octets = [0, 0, 0, 0, control, 0, activate, 0];
    put_u16(&mut octets, 0, start);
    put_u16(&mut octets, 2, len);
    octets
}

// The body of the access in hand.
fn octets(up: &BringUp) -> ArrayVec<u8, 8>
    ensures { result.items ≡ octets_of up.now }
{
    match up.step {
        BringStep::Return => buffer_of(&[RETURN, 0]),
        BringStep::Address => buffer_of(&up.station.to_le_bytes()),
        BringStep::OutOff => buffer_of(&manager_octets(OUT_AREA, up.out_len, OUT_CONTROL, 0)),
        BringStep::InOff => buffer_of(&manager_octets(IN_AREA, up.in_len, IN_CONTROL, 0)),
        BringStep::OutManager => buffer_of(&manager_octets(OUT_AREA, up.out_len, OUT_CONTROL, 1)),
        BringStep::InManager => buffer_of(&manager_octets(IN_AREA, up.in_len, IN_CONTROL, 1)),
        BringStep::Start => buffer_of(&[up.start, 0]),
        BringStep::Watch | BringStep::Await => buffer_of(&[0; 6]),
    }
}

// The head of an access, with everything clear that the slaves set.
fn head(command: Command, index: u8, adp: u16, ado: u16, len: u16) -> Head
    ensures { result ≡ asking command index adp ado len }
{
    Head {
        command,
        index,
        adp,
        ado,
        len,
        circulating: false,
        more: false,
        interrupt: 0,
        counter: 0,
    }
}

// The head of the access in hand.
fn access_head(up: &BringUp, index: u8) -> Head
    ensures { result ≡ head_of up.now index }
{
    match up.step {
        BringStep::Return => head(Command::Apwr, index, up.adp, AL_CONTROL, 2),
        BringStep::Watch => head(Command::Aprd, index, up.adp, AL_STATUS, 6),
        BringStep::Address => head(Command::Apwr, index, up.adp, STATION_ADDRESS, 2),
        BringStep::OutOff | BringStep::OutManager => {
            head(Command::Fpwr, index, up.station, MANAGER_0, 8)
        }
        BringStep::InOff | BringStep::InManager => {
            head(Command::Fpwr, index, up.station, MANAGER_1, 8)
        }
        BringStep::Start => head(Command::Fpwr, index, up.station, AL_CONTROL, 2),
        BringStep::Await => head(Command::Fprd, index, up.station, AL_STATUS, 6),
    }
}

/// The datagram of the access in hand, in place of what head and body held.
pub fn access(up: &BringUp, index: u8, head: &mut Head, body: &mut ArrayVec<u8, 1486>)
    ensures head { head.new ≡ head_of up.now index }
    ensures body { body.new.items ≡ octets_of up.now }
{
    *head = access_head(up, index);
    *body = buffer_of(octets(up).as_slice());
}

// Whether a body begins with an AL status that shows a state and no error.
fn shows(body: &[u8], state: u8) -> bool
    ensures { result ≡ shows body.now state }
{
    body.len() >= 2 && u16_at(body, 0) == state as u16
}

impl BringStep {
    // The step behind one that is over.
    fn next(self, again: bool) -> BringStep
        ensures { result ≡ step_after again self }
    {
        match self {
            BringStep::Return => BringStep::Watch,
            BringStep::Watch => BringStep::Address,
            BringStep::Address if again => BringStep::OutOff,
            BringStep::OutOff => BringStep::InOff,
            BringStep::Address | BringStep::InOff => BringStep::OutManager,
            BringStep::OutManager => BringStep::InManager,
            BringStep::InManager => BringStep::Start,
            BringStep::Start | BringStep::Await => BringStep::Await,
        }
    }
}

/// The access in hand has returned with this working counter and body. The next is in hand then; the
/// last stays, and so does the one that watches for Init until it came back with counter 1 and shows it.
/// `true` exactly where the last came back with counter 1 and shows the start state.
pub fn came_back(up: &mut BringUp, counter: u16, body: &[u8]) -> bool
    ensures shown { result ≡ is_up up.old counter body.now }
    ensures goes_on { up.new ≡ record up.old { step = step_behind up.old counter body.now } }
{
    let is_up = matches!(up.step, BringStep::Await) && counter == 1 && shows(body, up.start);
    let waits = matches!(up.step, BringStep::Watch) && !(counter == 1 && shows(body, INIT));
    if !waits {
        up.step = up.step.next(up.again);
    }
    is_up
}
