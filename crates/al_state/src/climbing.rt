ghost use Rattle.std.specs.Prelude.{◌≡◌};
ghost use Rattle.al_state.specs.Climb.{next_of, written_to, shown_to};

use ec_fields::bits;

/// How far the master is on its way to bring a slave into a state.
#[derive(Clone, Copy)]
pub enum Climb {
    /// The target is to be written to AL control.
    Ask { target: u8 },
    /// The target was written: the AL status is read until it shows the target or an error.
    Await { target: u8 },
    /// An error was shown: the state that it stands in is to be written with the acknowledge.
    Acknowledge { state: u8, code: u16 },
    /// The acknowledge was written: the AL status is read until no error stands.
    Recover { code: u16 },
    /// The target was shown.
    Arrived,
    /// The slave refused the target; the code is that of the first error shown.
    Refused { code: u16 },
}

/// What the master does next about a state.
#[derive(Clone, Copy)]
pub enum ClimbNext {
    /// Write this word to AL control.
    Write(u16),
    /// Read AL status with its code, 6 octets.
    ReadStatus,
    /// The slave is in the target.
    Arrived,
    /// The slave refused the target with this AL status code.
    Refused(u16),
}

/// The way to a state, at its beginning. Where it begins makes no difference: the first status that
/// shows the target ends it, also where the slave was there already.
pub fn climb_new(_from: u8, target: u8) -> Climb
    ensures { result ≡ Climb.Ask target }
{
    Climb::Ask { target }
}

/// What is to be done next.
pub fn next(climb: &Climb) -> ClimbNext
    ensures { result ≡ next_of climb.now }
{
    match *climb {
        Climb::Ask { target } => ClimbNext::Write(target as u16),
        Climb::Await { .. } | Climb::Recover { .. } => ClimbNext::ReadStatus,
        Climb::Acknowledge { state, .. } => ClimbNext::Write(state as u16 + ACKNOWLEDGE),
        Climb::Arrived => ClimbNext::Arrived,
        Climb::Refused { code } => ClimbNext::Refused(code),
    }
}

// The acknowledge of an error in the AL control word.
const ACKNOWLEDGE: u16 = 0x10;

/// The write that `next` asked for has returned.
pub fn written(climb: &mut Climb)
    ensures { climb.new ≡ written_to climb.old }
{
    *climb = match *climb {
        Climb::Ask { target } => Climb::Await { target },
        Climb::Acknowledge { code, .. } => Climb::Recover { code },
        other => other,
    };
}

// The climb behind a status that was read.
fn shown(climb: Climb, status: u16, code: u16) -> Climb
    ensures { result ≡ shown_to climb status code }
{
    let error = bits(status, 4, 1) == 1;
    match climb {
        Climb::Await { .. } if error => Climb::Acknowledge {
            state: bits(status, 0, 4) as u8,
            code,
        },
        Climb::Await { target } if status == target as u16 => Climb::Arrived,
        Climb::Recover { code } if !error => Climb::Refused { code },
        other => other,
    }
}

/// The read that `next` asked for has returned with this AL status and AL status code.
pub fn status(climb: &mut Climb, status: u16, code: u16)
    ensures { climb.new ≡ shown_to climb.old status code }
{
    *climb = shown(*climb, status, code);
}
