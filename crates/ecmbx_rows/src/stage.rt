use ec_fields::Rows;
use ec_links::MemLink;
use ec_outside::{Files, MemPort, MemSink};
use ecmbx_call::{Book, program};
use row_table::{Page, Row};
use std::alloc::Global;
use std::mem;

/// Files, a port and a link, and what the last call put and left; in each call a put of this number fails.
#[derive(Drop)]
pub struct Stage<F> {
    pub files: F,
    pub port: MemPort,
    pub link: MemLink,
    pub out: MemSink,
    pub book: Book,
    failing: Option<u64>,
}

/// The numbers of calls that fail: one or none.
pub fn numbers(alloc: Global, number: Option<u64>) -> Rows<u64> {
    let mut rows = Rows::new(alloc);
    if let Some(number) = number {
        let _ = rows.push(number);
    }
    rows
}

// The words that are left, 16 at most.
fn words_in(row: &mut Row<'_>) -> Vec<String> {
    let alloc = row.alloc();
    let mut words = Vec::new(alloc);
    for _ in 0..16 {
        if row.is_read() {
            return words;
        }
        match String::from_str(alloc, row.word()) {
            Ok(word) => row.check(words.push(word).is_ok()),
            Err(_) => row.fail(),
        }
    }
    words
}

// A link that gives nothing.
fn no_link(alloc: Global) -> MemLink {
    MemLink::new(alloc, Rows::new(alloc), Rows::new(alloc))
}

impl<F: Files + Drop> Stage<F> {
    /// These files, and a port and a link that give nothing.
    pub fn new(alloc: Global, files: F, failing: Option<u64>) -> Stage<F> {
        Stage {
            files,
            port: MemPort::new(alloc, Rows::new(alloc), Rows::new(alloc)),
            link: no_link(alloc),
            out: MemSink::new(alloc, numbers(alloc, failing)),
            book: Book::new(alloc),
            failing,
        }
    }

    /// Makes the call of the words that are left: the number of its status.
    pub fn call(&mut self, row: &mut Row<'_>) -> u64 {
        let words = words_in(row);
        let alloc = row.alloc();
        let link = mem::replace(&mut self.link, no_link(alloc));
        let mut book = Book::new(alloc);
        self.out = MemSink::new(alloc, numbers(alloc, self.failing));
        let (status, link) = program(
            alloc,
            words.as_slice(),
            &mut self.files,
            &mut self.out,
            &mut self.port,
            link,
            &mut book,
        );
        self.link = link;
        self.book = book;
        u64::from(status.number())
    }

    /// Makes the call of these words, a space between each two.
    pub fn call_of(&mut self, page: &mut Page, words: &str) -> u64 {
        let mut row = Row::of(page.alloc(), words);
        let status = self.call(&mut row);
        page.check(row.holds(""));
        status
    }
}
