//! Runs made again and counted.

use crate::calling::{tell_number, words_of};
use crate::scripts::plan_of;
use crate::stage::Stage;
use ec_outside::Files;
use row_table::Page;
use run_replay::{Measured, Replayed, Uncounted, replay};

// What a run came to by the measure.
fn tell_measured(page: &mut Page, measured: &Measured) {
    tell_number(page, "repair", measured.repair);
    tell_number(page, "rise", measured.rise);
    tell_number(page, "of", measured.broken);
    tell_number(page, "gains", measured.gains);
    tell_number(page, "reopened", measured.reopened);
    tell_number(page, "still", measured.still);
    tell_number(page, "of", measured.quiet);
}

// What became of a run that was made again.
fn tell_replayed(page: &mut Page, replayed: Replayed) {
    match replayed {
        Replayed::Same {
            frames,
            checksum,
            measured,
        } => {
            tell_number(page, "frames", frames as u64);
            page.say("crc");
            page.digits(&checksum.to_be_bytes());
            return tell_measured(page, &measured);
        }
        Replayed::Other { frame } => tell_number(page, "another frame", frame as u64),
        Replayed::Uncounted(Uncounted::Breaks { frame }) => tell_number(
            page,
            "doesn't count: frame",
            frame,
        ),
        Replayed::Uncounted(Uncounted::Unread { frame }) => tell_number(
            page,
            "doesn't read: frame",
            frame,
        ),
        Replayed::Uncounted(Uncounted::Unpaid) => page.say("more frames than are paid"),
        Replayed::Uncounted(Uncounted::NoMemory) => page.say("no memory"),
    }
    page.fail();
}

impl<F: Files + Drop> Stage<F> {
    /// Makes the run of the plan SCENARIO.toml again. Its line tells how many frames it has; the CRC-32 of these and what came back, in order; in how many
    /// frames all was to be repaired at most; by how many one frame put that off at most, of how many; what was gained; how often a state service began to
    /// reopen its slave; and how many frames in a row gained nothing, of how many.
    pub fn tell_replaying(&mut self, page: &mut Page, scenario: &str) {
        let words = words_of(page, "run", scenario);
        let _status = self.call_of(page, words.text());
        page.say(scenario);
        let Some(plan) = plan_of(page, &mut self.files, scenario) else {
            return;
        };
        match replay(page.alloc(), &plan, &self.book) {
            Ok(replayed) => tell_replayed(page, replayed),
            Err(_) => page.fail(),
        }
        page.put("\n");
    }
}
