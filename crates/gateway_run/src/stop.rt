ghost use Rattle.std.specs.Prelude.{◌≡◌};
ghost use Rattle.gateway_run.specs.Stops.{stop_of};
ghost use Rattle.gateway_run.specs.declared.stop.Stop.TheVariants as stops;

use ec_fields::NoMemory;
use ec_outside::PortErr;

/// Why a serving stops in a turn.
#[derive(Clone, Copy)]
pub enum Stop {
    /// The port failed.
    PortFault,
    /// Want of memory.
    NoMemory,
}

impl From<NoMemory> for Stop {
    ghost from_gives = { λ _ e. e ≡ stops.NoMemory };

    fn from(_: NoMemory) -> Stop {
        Stop::NoMemory
    }
}

impl From<PortErr> for Stop {
    ghost from_gives = { λ error e. e ≡ stop_of error };

    fn from(error: PortErr) -> Stop {
        match error {
            PortErr::Failed => Stop::PortFault,
            PortErr::NoMemory => Stop::NoMemory,
        }
    }
}
