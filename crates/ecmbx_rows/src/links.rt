//! Runs of one link over any list of steps.

use ec_fields::{Rows, buffer_of};
use mailbox_law::{LinkFate, LinkStep, all_fit, run_link, run_world};
use mailbox_mail::{Kind, Mail};
use row_table::{Bench, Row};

/// Runs of a link with losses.
#[derive(Drop)]
pub struct LinkBench;

// A mail of one octet.
fn mail_in(row: &mut Row<'_>) -> Mail {
    Mail {
        address: 0,
        kind: Kind::CoE,
        counter: 0,
        body: buffer_of(&[row.small()]),
    }
}

// What becomes of a datagram.
fn fate_in(row: &mut Row<'_>) -> LinkFate {
    match row.word() {
        "pass" => LinkFate::Pass,
        "before" => LinkFate::LostBefore,
        "behind" => LinkFate::LostBehind,
        _ => {
            row.fail();
            LinkFate::Pass
        }
    }
}

// A step in its words.
fn step_in(row: &mut Row<'_>) -> LinkStep {
    match row.word() {
        "hold" => LinkStep::Hold(mail_in(row)),
        "give" => LinkStep::Give(mail_in(row)),
        "out" => LinkStep::Out(fate_in(row)),
        "in" => LinkStep::In(fate_in(row)),
        "pdi" => LinkStep::Pdi,
        _ => {
            row.fail();
            LinkStep::Pdi
        }
    }
}

// The steps that are left, 64 at most.
fn steps_in(row: &mut Row<'_>) -> Vec<LinkStep> {
    let mut steps = Vec::new(row.alloc());
    for _ in 0..64 {
        if row.is_read() {
            return steps;
        }
        let step = step_in(row);
        row.check(steps.push(step).is_ok());
    }
    steps
}

// The counter and the first octet of each mail, behind a word.
fn tell_mails(row: &mut Row<'_>, word: &str, mails: &Rows<Mail>) {
    row.say(word);
    for mail in mails.as_slice() {
        row.show(u64::from(mail.counter));
        for octet in mail.body.as_slice() {
            row.put(":");
            row.join(u64::from(*octet));
        }
    }
}

// The mails that the outward half took up, those that the slave took, those that it was given, and those that the inward half accepted.
fn run(row: &mut Row<'_>) {
    let steps = steps_in(row);
    if !all_fit(steps.as_slice(), 64, 1486) {
        return row.fail();
    }
    let Ok(came) = run_link(row.alloc(), steps.as_slice(), 64, 1486) else {
        return row.fail();
    };
    tell_mails(row, "held", &came.held);
    tell_mails(row, "taken", &came.taken);
    tell_mails(row, "offered", &came.offered);
    tell_mails(row, "accepted", &came.accepted);
}

// Whether mailbox 1 is full, mailbox 0 is, the areas are right, the outward half is idle, and the slave's box at rest.
fn world(row: &mut Row<'_>) {
    let steps = steps_in(row);
    if !all_fit(steps.as_slice(), 64, 64) {
        return row.fail();
    }
    let Ok(world) = run_world(row.alloc(), steps.as_slice(), 64, 64) else {
        return row.fail();
    };
    row.answer(world.esc.in_full());
    row.answer(world.esc.out_area().is_some());
    row.answer(world.esc.areas_right());
    row.answer(world.outward.is_idle());
    row.answer(world.slave_box.at_rest());
}

impl Bench for LinkBench {
    fn carry(&mut self, row: &mut Row<'_>) {
        match row.word() {
            "run" => run(row),
            "world" => world(row),
            _ => row.fail(),
        }
    }
}
