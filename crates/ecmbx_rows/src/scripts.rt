//! What stands in the files of a word.

ghost use Rattle.std.specs.Prelude.{IfSome};
ghost use Rattle.segment_plan.specs.Sound.{IsPlan};

use ec_fields::{Octets, Rows};
use ec_links::LinkItem;
use ec_outside::{Files, Loaded, Peer, PortItem};
use row_table::{Page, Row};
use scenario::read;
use segment_plan::Scenario;

/// The most octets that a file may have.
const LIMIT: usize = 16_777_216;

/// What a port and a link give, how many requests are to be heard, and which calls fail.
#[derive(Drop)]
pub struct Script {
    pub count: u32,
    pub grams: Rows<PortItem>,
    pub pieces: Rows<LinkItem>,
    pub failing: Rows<u64>,
}

/// The octets of the file of a name with an ending.
pub fn octets_of<F: Files>(page: &mut Page, files: &mut F, name: &str, ending: &str) -> Octets {
    let mut file = Page::new(page.alloc());
    file.put(name);
    file.put(ending);
    let mut octets = Octets::new(page.alloc());
    match files.load(file.text(), LIMIT, &mut octets) {
        Ok(Loaded::Found) => {}
        _ => page.fail(),
    }
    octets
}

/// The plan of a name.
pub fn plan_of<F: Files>(page: &mut Page, files: &mut F, name: &str) -> Option<Scenario>
    ensures { IfSome result IsPlan }
{
    let octets = octets_of(page, files, name, ".toml");
    match read(page.alloc(), octets.bytes()) {
        Ok(plan) => Some(plan),
        Err(_) => {
            page.fail();
            None
        }
    }
}

/// A datagram of a peer, by the peer's port and the octets, if it has any.
pub fn gram_in(row: &mut Row<'_>, ip: u32) -> PortItem {
    let from = Peer {
        ip,
        port: row.short(),
    };
    let bytes = if row.is_read() {
        Octets::new(row.alloc())
    } else {
        row.octets()
    };
    PortItem::Gram { from, bytes }
}

impl Script {
    // Octets that come one by one.
    fn add_singles(&mut self, row: &mut Row<'_>) {
        let octets = row.octets();
        for octet in octets.bytes() {
            let mut single = Octets::new(row.alloc());
            row.check(single.add(&[*octet]).is_ok());
            row.check(self.pieces.add(LinkItem::Bytes(single)).is_ok());
        }
    }

    // A time in which nothing comes.
    fn add_pause(&mut self, row: &mut Row<'_>) {
        row.check(self.grams.add(PortItem::Pause).is_ok());
        row.check(self.pieces.add(LinkItem::Pause).is_ok());
    }

    // Reads a line.
    fn read(&mut self, row: &mut Row<'_>) {
        match row.word() {
            "count" => self.count = row.number(),
            "fail" => {
                let number = u64::from(row.number());
                row.check(self.failing.add(number).is_ok());
            }
            "gram" => {
                let ip = row.number();
                let gram = gram_in(row, ip);
                row.check(self.grams.add(gram).is_ok());
            }
            "piece" => {
                let octets = row.octets();
                row.check(self.pieces.add(LinkItem::Bytes(octets)).is_ok());
            }
            "singles" => self.add_singles(row),
            "pause" => self.add_pause(row),
            _ => row.fail(),
        }
    }
}

/// The script of the file of a name with an ending, a line each: `count NUMBER`, `fail NUMBER`, `gram IP PORT DIGITS`, `piece DIGITS`, `singles DIGITS` or
/// `pause`.
pub fn script_of<F: Files>(page: &mut Page, files: &mut F, name: &str, ending: &str) -> Script {
    let octets = octets_of(page, files, name, ending);
    let alloc = page.alloc();
    let mut script = Script {
        count: 0,
        grams: Rows::new(alloc),
        pieces: Rows::new(alloc),
        failing: Rows::new(alloc),
    };
    for line in page.text_in(octets.bytes()).lines() {
        let mut row = Row::of(alloc, line);
        script.read(&mut row);
        page.check(row.holds(""));
    }
    script
}
