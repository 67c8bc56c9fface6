ghost use Rattle.std.specs.Prelude.{◌≡◌, length, IfOk};
ghost use Rattle.capture_audit.specs.Seen.{datagram_seen};
ghost use Rattle.capture_audit.specs.Audit.{first_known, station_changed, with_mails, manager_met};
ghost use Rattle.capture_audit.specs.Moves.{sent_by, accepted_by};
ghost use Rattle.capture_audit.specs.Judged.{ArePlaces, HasSeat, HasStation, Judges, JudgesMailbox};

use crate::access::{Access, MailAccess, Manager, access_of};
use crate::exchange::Datagram;
use crate::link::Moved;
use crate::places::Places;
use crate::rule::Rule;
use crate::station::{Seat, StationAudit, Step};
use ec_fields::{NoMemory, Rows};
use std::alloc::Global;
use std::marker::Model;

/// What is known so far: the stations whose managers were written, and those whose links opened, in that order.
#[derive(Drop)]
pub struct Known {
    pub seats: Rows<Seat>,
    pub stations: Rows<StationAudit>,
}

/// What is known so far, with the places of the stations' rows: a datagram costs the same, however many stations there
/// are.
#[derive(Drop)]
pub struct Ledger {
    known: Known,
    seat_places: Places,
    station_places: Places,
}

impl Model for Ledger {
    ghost use Rattle.capture_audit.specs.declared.known.Known.{Known as KnownValue};
    ghost use Rattle.capture_audit.specs.Judged.{ArePlaces};

    ghost Value = { KnownValue };

    ghost view = { λ l. l.known };

    ghost invariant = { λ l. ArePlaces (λ s. s.station) l.seat_places l.known.seats × ArePlaces (λ s. s.station) l.station_places l.known.stations };
}

// The place of a station's seat, which is new where it has none.
fn seat_made(places: &mut Places, seats: &mut Rows<Seat>, station: u16) -> Result<usize, NoMemory>
    requires { ArePlaces (λ s. s.station) places.old seats.old }
    ensures row { IfOk result (HasSeat seats.old seats.new station) }
    ensures places { ArePlaces (λ s. s.station) places.new seats.new }
{
    match places.place(station) {
        Some(at) => Ok(at),
        None => places.add_row(seats, station, Seat::new(station)),
    }
}

// The same of a station's mails.
fn station_made(
    alloc: Global,
    places: &mut Places,
    stations: &mut Rows<StationAudit>,
    station: u16,
) -> Result<usize, NoMemory>
    requires { ArePlaces (λ s. s.station) places.old stations.old }
    ensures row { IfOk result (HasStation stations.old stations.new station) }
    ensures places { ArePlaces (λ s. s.station) places.new stations.new }
{
    match places.place(station) {
        Some(at) => Ok(at),
        None => places.add_row(stations, station, StationAudit::new(alloc, station)),
    }
}

// A mail was moved at a station.
fn note(
    alloc: Global,
    places: &mut Places,
    stations: &mut Rows<StationAudit>,
    station: u16,
    moved: Moved,
) -> Result<(), NoMemory>
    requires { ArePlaces (λ s. s.station) places.old stations.old }
    ensures moved { IfOk result (λ done. stations.new ≡ station_changed (with_mails (sent_by moved) (accepted_by moved)) station stations.old) }
    ensures places { ArePlaces (λ s. s.station) places.new stations.new }
{
    let at = station_made(alloc, places, stations, station)?;
    stations.at_mut(at).note(moved)
}

impl Ledger {
    /// Nothing is known.
    pub fn new(alloc: Global) -> Ledger
        ensures { result ≡ first_known }
    {
        Ledger {
            known: Known {
                seats: Rows::new(alloc),
                stations: Rows::new(alloc),
            },
            seat_places: Places::new(alloc),
            station_places: Places::new(alloc),
        }
    }

    // A manager is written.
    fn manage(
        &mut self,
        alloc: Global,
        manager: Manager,
        datagram: &Datagram<'_>,
    ) -> Result<(), NoMemory>
        requires { length datagram.now.body.now ≡ 8 }
        ensures { IfOk result (λ done. self.new ≡ manager_met manager self.old (datagram_seen datagram.now)) }
    {
        let station = datagram.head.adp;
        let at = seat_made(&mut self.seat_places, &mut self.known.seats, station)?;
        if self.known.seats.at_mut(at).manage(alloc, manager, datagram) {
            station_made(
                alloc,
                &mut self.station_places,
                &mut self.known.stations,
                station,
            )?;
        }
        Ok(())
    }

    // A mailbox is accessed; the rule that this breaks.
    fn access(
        &mut self,
        alloc: Global,
        access: MailAccess,
        datagram: &Datagram<'_>,
    ) -> Result<Option<Rule>, NoMemory>
        ensures { IfOk result (JudgesMailbox self.old self.new access (datagram_seen datagram.now)) }
    {
        let station = datagram.head.adp;
        let Some(at) = self.seat_places.place(station) else {
            return Ok(Some(Rule::NotOpen));
        };
        match self.known.seats.at_mut(at).access(access, datagram)? {
            Step::Breaks(rule) => Ok(Some(rule)),
            Step::Moves(moved) => {
                note(
                    alloc,
                    &mut self.station_places,
                    &mut self.known.stations,
                    station,
                    moved,
                )?;
                Ok(None)
            }
        }
    }

    /// A datagram with what returned of it; the first rule that it breaks.
    pub fn meet(&mut self, alloc: Global, datagram: &Datagram<'_>) -> Result<Option<Rule>, NoMemory>
        ensures { IfOk result (Judges self.old self.new (datagram_seen datagram.now)) }
    {
        match access_of(&datagram.head, datagram.body.len()) {
            Access::Manager(manager) => {
                self.manage(alloc, manager, datagram)?;
                Ok(None)
            }
            Access::Mailbox(access) => self.access(alloc, access, datagram),
            Access::Other => Ok(None),
        }
    }

    /// The stations whose links opened, with their mails, in that order.
    pub fn into_stations(self) -> Rows<StationAudit>
        ensures { result ≡ self.stations }
    {
        self.known.stations
    }
}
