ghost use Rattle.std.specs.Prelude.{◌≡◌, ◌≤◌, All, IfSome, option_copied};
ghost use Rattle.segment_plan.specs.Sound.{IsSlave};
ghost use Rattle.entry_words.specs.Slaves.{station_in, named_in, stationed_in, slave_in};

use crate::numbers::number_word;
use segment_plan::SlaveSpec;

/// The station that a word writes, 1 to 65,535, in decimal digits or in hexadecimal ones behind `0x`; none of another word.
#[tactic(auto, unfolding(crate::specs::Slaves::station_in))]
pub fn station_of(word: &str) -> Option<u16>
    ensures { result ≡ station_in word.now }
{
    match number_word(word.as_bytes()) {
        Some(station) if 1 <= station && station <= 0xFFFF => Some(station as u16),
        _ => None,
    }
}

// The slave of this name.
#[tactic(auto, unfolding(crate::specs::Slaves::named_in))]
fn named<'a>(slaves: &'a [SlaveSpec], name: &[u8]) -> Option<&'a SlaveSpec>
    requires { All IsSlave slaves.now }
    ensures value { option_copied result ≡ named_in slaves.now name.now }
    ensures sound { IfSome result (λ slave. IsSlave slave.now) }
{
    slaves.iter().find(|slave| slave.name.bytes() == name)
}

// The slave of this station.
#[tactic(auto, unfolding(crate::specs::Slaves::stationed_in))]
fn stationed(slaves: &[SlaveSpec], station: u16) -> Option<&SlaveSpec>
    requires { All IsSlave slaves.now }
    ensures value { option_copied result ≡ stationed_in slaves.now station }
    ensures sound { IfSome result (λ slave. IsSlave slave.now) }
{
    slaves.iter().find(|slave| slave.station == station)
}

/// The slave that a word names, or else the one whose station it writes.
#[tactic(auto, unfolding(crate::specs::Slaves::slave_in))]
pub fn slave_of<'a>(slaves: &'a [SlaveSpec], word: &str) -> Option<&'a SlaveSpec>
    requires { All IsSlave slaves.now }
    ensures value { option_copied result ≡ slave_in slaves.now word.now }
    ensures sound { IfSome result (λ slave. IsSlave slave.now) }
{
    match (named(slaves, word.as_bytes()), station_of(word)) {
        (Some(slave), _) => Some(slave),
        (None, Some(station)) => stationed(slaves, station),
        (None, None) => None,
    }
}
