//! Calls of the program over files, sinks, ports and links in memory. First by tables of rows, the status of each call, what it puts and what it leaves:
//! calls of all kinds, what a client of the gateway asks, audits of captures, and the examples, each run as a user runs it.
//!
//! Behind them runs made again, runs, servings, streams and what is asked over their replies: what each left is printed. A word is the kind of the call
//! and its names, `replay:SCENARIO`, `run:SCENARIO`, `serve:SCENARIO=PORT`, `stream:SCENARIO=LINK` or `ask:SCENARIO=CALL`: the scenario is SCENARIO.toml,
//! what its port or link has to give stands in PORT.port or LINK.link, the words of a call of a tool in CALL.words. Where both names are the same it is
//! written once.
#![tactic(auto)]

mod calling;
mod clients;
mod codecs;
mod fields;
mod fragments;
mod halves;
mod links;
mod replaying;
mod scripts;
mod servers;
mod slaves;
mod stage;
mod states;
mod stores;
mod switch;
mod tables;
mod wholes;
mod writing;

use anyhow::{Result, bail};
use clients::ClientBench;
use codecs::CodecBench;
use ec_outside::{DiskFiles, Files, Sink, StdSink};
use fields::FieldBench;
use fragments::FragmentBench;
use halves::HalfBench;
use links::LinkBench;
use row_table::{Page, tell};
use slaves::SlaveBench;
use stage::Stage;
use states::StateBench;
use std::{env, fs};
use stores::StoreBench;
use switch::SwitchBench;
use tables::CallBench;
use wholes::CarriedBench;

// The tables of calls.
const TABLES: [&str; 11] = [
    "calls",
    "asks",
    "audits",
    "example_calls",
    "plans",
    "outside",
    "cuts",
    "views",
    "servings",
    "transfers",
    "services",
];

// Makes the call of a word, and tells what it left.
fn tell_word<F: Files + Drop>(page: &mut Page, stage: &mut Stage<F>, word: &str) {
    let Some((kind, names)) = word.split_once(':') else {
        return page.fail();
    };
    let (scenario, name) = names.split_once('=').unwrap_or((names, names));
    match kind {
        "replay" => stage.tell_replaying(page, name),
        "run" => stage.tell_running(page, name),
        "serve" => stage.tell_serving(page, scenario, name),
        "stream" => stage.tell_streaming(page, scenario, name),
        "ask" => stage.tell_asking(page, scenario, name),
        _ => page.fail(),
    }
}

// Formats, the two ends of a link, and what stands below a slave's services.
fn tell_parts(rt: &HostRuntime) -> Result<()> {
    tell(rt, "fields", Some(FieldBench))?;
    tell(rt, "messages", Some(CodecBench))?;
    tell(rt, "fragments", Some(FragmentBench::new()))?;
    tell(rt, "switch", SwitchBench::new(rt.alloc()).ok())?;
    tell(rt, "slaves", SlaveBench::new(rt.alloc()).ok())?;
    tell(rt, "states", Some(StateBench::new()))?;
    tell(rt, "halves", Some(HalfBench::new()))?;
    tell(rt, "links", Some(LinkBench))?;
    tell(rt, "stores", Some(StoreBench))?;
    tell(rt, "clients", ClientBench::new(rt.alloc()).ok())?;
    let strings = fs::read_to_string(rt, "strings.toml")?;
    tell(
        rt,
        "carried",
        CarriedBench::new(rt.alloc(), strings.as_bytes()),
    )
}

// Calls.
fn tell_calls(rt: &HostRuntime) -> Result<()> {
    for name in TABLES {
        let bench = CallBench::new(rt.alloc(), DiskFiles::new(rt));
        tell(rt, name, Some(bench))?;
    }
    fs::remove_file(rt, "kept.bin")?;
    Ok(())
}

fn main(rt: HostRuntime) -> Result<()> {
    tell_parts(&rt)?;
    tell_calls(&rt)?;
    let mut stage = Stage::new(rt.alloc(), DiskFiles::new(&rt), None);
    for word in env::args(&rt)?.skip(1) {
        let mut page = Page::new(rt.alloc());
        tell_word(&mut page, &mut stage, word.as_str());
        let put = StdSink::new(&rt).put(page.text().as_bytes());
        if put.is_err() || page.is_faulty() {
            bail!("a fault");
        }
    }
    Ok(())
}
