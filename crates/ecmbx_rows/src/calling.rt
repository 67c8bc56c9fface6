//! Calls of the program over ports and links in memory: what each leaves.

use crate::scripts::{Script, octets_of, script_of};
use crate::stage::Stage;
use ec_fields::{Octets, Rows};
use ec_links::MemLink;
use ec_outside::{Files, MemPort, Peer, PortItem, SentGram};
use pcap_frames::{Stamp, write_head, write_packet};
use row_table::Page;
use run_book::SentFrame;
use segment_ring::Fate;
use sha2::{Digest, Sha256};

/// Who asks, and the gateway.
const TOOL: Peer = Peer {
    ip: 0x7F00_0001,
    port: 40_000,
};

const GATEWAY: Peer = Peer {
    ip: 0x7F00_0001,
    port: 34_980,
};

/// The words of a call for a scenario.
pub fn words_of(page: &Page, form: &str, scenario: &str) -> Page {
    let mut words = Page::new(page.alloc());
    words.say(form);
    words.say(scenario);
    words.put(".toml");
    words
}

/// Tells a number behind a word.
pub fn tell_number(page: &mut Page, word: &str, number: u64) {
    page.say(word);
    page.show(number);
}

// One more packet in a capture, at the time of a frame, which is its number in microseconds.
fn add_packet(page: &mut Page, capture: &mut Octets, number: usize, packet: &[u8]) {
    if number > 99_999_999 || packet.len() > 65_535 {
        return page.fail();
    }
    let stamp = Stamp {
        seconds: (number / 1_000_000) as u32,
        part: (number % 1_000_000) as u32,
    };
    page.check(write_packet(capture, stamp, packet).is_ok());
}

// The digest of frames as a capture: each as it was sent and, where it returned, as it returned.
fn tell_capture(page: &mut Page, frames: &[SentFrame]) {
    let mut capture = Octets::new(page.alloc());
    page.check(write_head(&mut capture).is_ok());
    for (number, frame) in frames.iter().enumerate() {
        add_packet(page, &mut capture, number, frame.sent.bytes());
        if matches!(frame.fate, Fate::Pass) {
            add_packet(page, &mut capture, number, frame.back.bytes());
        }
    }
    let digest = Sha256::digest(capture.bytes());
    page.line("capture", digest.as_slice());
}

// A port that hears from a peer what was sent.
fn port_of(page: &mut Page, from: Peer, sent: &[SentGram]) -> MemPort {
    let alloc = page.alloc();
    let mut items = Rows::new(alloc);
    for gram in sent {
        let bytes = page.copy(gram.bytes.bytes());
        page.check(items.add(PortItem::Gram { from, bytes }).is_ok());
    }
    MemPort::new(alloc, items, Rows::new(alloc))
}

impl<F: Files + Drop> Stage<F> {
    // Tells what the last call put, behind a name.
    fn tell_put(&self, page: &mut Page, name: &str) {
        page.put(name);
        page.put("\n");
        page.put_octets(self.out.bytes());
    }

    // Tells the datagrams that were sent.
    fn tell_sent(&self, page: &mut Page) {
        for sent in self.port.sent().as_slice() {
            page.say("to");
            page.show(u64::from(sent.to.ip));
            page.show(u64::from(sent.to.port));
            page.digits(sent.bytes.bytes());
            page.put("\n");
        }
    }

    /// Runs the plan SCENARIO.toml, and tells what the call put, and its status.
    pub fn tell_running(&mut self, page: &mut Page, scenario: &str) {
        let words = words_of(page, "run", scenario);
        let status = self.call_of(page, words.text());
        self.tell_put(page, scenario);
        tell_number(page, "status", status);
        page.put("\n");
    }

    /// Serves the plan SCENARIO.toml over the port NAME.port, and tells what the call put, the datagrams that were sent, and the digest of its frames as a
    /// capture.
    pub fn tell_serving(&mut self, page: &mut Page, scenario: &str, name: &str) {
        let Script {
            count,
            grams,
            failing,
            ..
        } = script_of(page, &mut self.files, name, ".port");
        self.port = MemPort::new(page.alloc(), grams, failing);
        let mut words = words_of(page, "serve", scenario);
        words.show(u64::from(count));
        let _status = self.call_of(page, words.text());
        self.tell_put(page, name);
        self.tell_sent(page);
        tell_capture(page, self.book.frames.as_slice());
    }

    /// Streams the plan SCENARIO.toml over the link NAME.link, and tells what the call put, the requests that came, the octets that were put to the link, and
    /// the status.
    pub fn tell_streaming(&mut self, page: &mut Page, scenario: &str, name: &str) {
        let Script {
            count,
            pieces,
            failing,
            ..
        } = script_of(page, &mut self.files, name, ".link");
        self.link = MemLink::new(page.alloc(), pieces, failing);
        let mut words = words_of(page, "stream", scenario);
        words.show(u64::from(count));
        let status = self.call_of(page, words.text());
        self.tell_put(page, name);
        for gram in self.book.grams.as_slice() {
            page.line("heard", gram.bytes.bytes());
        }
        page.line("put", self.link.sent());
        tell_number(page, "status", status);
        page.put("\n");
    }

    // Makes a call of `ask` over what a serving of the plan replies to all that it sent before, until no reply is left to hear: its status, and how many
    // datagrams it heard.
    fn ask(&mut self, page: &mut Page, scenario: &str, asks: &str) -> (u64, u64) {
        self.port = port_of(page, GATEWAY, &[]);
        let mut status = self.call_of(page, asks);
        let mut heard = 0;
        for _ in 0..1000 {
            let mut words = words_of(page, "serve", scenario);
            words.show(self.port.sent().len() as u64);
            self.port = port_of(page, TOOL, self.port.sent().as_slice());
            let served = self.call_of(page, words.text());
            page.check(served == 0);
            let many = self.port.sent().len() as u64;
            self.port = port_of(page, GATEWAY, self.port.sent().as_slice());
            status = self.call_of(page, asks);
            if many <= heard {
                return (status, heard);
            }
            heard = many;
        }
        page.fail();
        (status, heard)
    }

    /// Makes the call whose words stand in NAME.words, one a line, to the slaves of the plan SCENARIO.toml. Tells what it put, how many datagrams went and
    /// came, and its status.
    pub fn tell_asking(&mut self, page: &mut Page, scenario: &str, name: &str) {
        let octets = octets_of(page, &mut self.files, name, ".words");
        let mut words = Page::new(page.alloc());
        for word in page.text_in(octets.bytes()).lines() {
            words.say(word);
        }
        let (status, heard) = self.ask(page, scenario, words.text());
        self.tell_put(page, name);
        tell_number(page, "sent", self.port.sent().len() as u64);
        tell_number(page, "heard", heard);
        tell_number(page, "status", status);
        page.put("\n");
    }
}
