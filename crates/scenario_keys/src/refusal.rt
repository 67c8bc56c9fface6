ghost use Rattle.std.specs.Prelude.{◌≡◌, [], ◌∷◌, ◌++◌, OnOk, IfErr};
ghost use Rattle.scenario_keys.specs.declared.refusal.Stop.TheVariants as stops;
ghost use Rattle.scenario_keys.specs.Rules.{number_of};

use crate::place::Place;
use ec_fields::{NoMemory, Rows};
use std::alloc::{AllocError, AllocFailed};

/// Why a scenario is refused. The number of a rule is its place here, counted from 1.
#[derive(Clone, Copy)]
pub enum Rule {
    /// The octets are no TOML document.
    NotToml,
    /// Another version of the format.
    WrongVersion,
    /// A key that has no default is missing.
    Missing,
    /// A key that the table doesn't have.
    UnknownKey,
    /// A value of another kind.
    WrongKind,
    /// A value out of range.
    OutOfRange,
    /// Two slaves of one name.
    SameName,
    /// Two slaves of one station address.
    SameStation,
    /// A slave that isn't there.
    UnknownSlave,
    /// A text that writes no octets.
    NotOctets,
    /// A schedule whose frames don't rise, or that meets more slaves than there are.
    Schedule,
    /// A list over its limit.
    TooMany,
}

impl Rule {
    /// The rule's number, 1 to 12.
    pub fn number(self) -> u8
        ensures { result ≡ number_of self }
    {
        match self {
            Rule::NotToml => 1,
            Rule::WrongVersion => 2,
            Rule::Missing => 3,
            Rule::UnknownKey => 4,
            Rule::WrongKind => 5,
            Rule::OutOfRange => 6,
            Rule::SameName => 7,
            Rule::SameStation => 8,
            Rule::UnknownSlave => 9,
            Rule::NotOctets => 10,
            Rule::Schedule => 11,
            Rule::TooMany => 12,
        }
    }
}

/// A refusal: by which rule, and where.
#[derive(Clone, Copy)]
pub struct Refusal {
    pub rule: Rule,
    pub place: Place,
}

/// Why a reader of a part of a scenario stopped.
#[derive(Clone, Copy)]
pub enum Stop {
    /// The part is refused.
    Refused(Refusal),
    /// Want of memory.
    NoMemory,
}

/// Stops at a refusal.
pub fn refused(rule: Rule, place: Place) -> Stop
    ensures { result ≡ stops.Refused (record { rule = rule; place = place }) }
{
    Stop::Refused(Refusal { rule, place })
}

impl From<AllocError> for Stop {
    ghost from_gives = { λ _ e. e ≡ stops.NoMemory };

    fn from(_error: AllocError) -> Stop {
        Stop::NoMemory
    }
}

impl<T: Drop> From<AllocFailed<T>> for Stop {
    ghost from_gives = { λ _ e. e ≡ stops.NoMemory };

    fn from(_failed: AllocFailed<T>) -> Stop {
        Stop::NoMemory
    }
}

impl From<NoMemory> for Stop {
    ghost from_gives = { λ _ e. e ≡ stops.NoMemory };

    fn from(_error: NoMemory) -> Stop {
        Stop::NoMemory
    }
}

/// Appends a row that was read.
pub fn put<T: Drop>(rows: &mut Rows<T>, row: T) -> Result<(), Stop>
    ensures ok { OnOk result (rows.new ≡ rows.old ++ row ∷ []) }
    ensures err { IfErr result (λ e. e ≡ stops.NoMemory) }
{
    match rows.push(row) {
        Ok(()) => Ok(()),
        Err(_) => Err(Stop::NoMemory),
    }
}

/// Why a file is no scenario that can be run.
#[derive(Clone, Copy)]
pub enum ReadErr {
    /// The file is refused by the rule of this number, 1 to 12, at this place.
    Refused { rule: u8, place: Place },
    /// Want of memory.
    NoMemory,
}
