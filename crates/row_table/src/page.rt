use ec_fields::Octets;
use std::alloc::Global;

/// A text that grows piece by piece. What can't be carried out is a fault that stays, as is want of memory; so who tells what there is goes on without
/// looking back.
#[derive(Drop)]
pub struct Page {
    alloc: Global,
    text: String,
    faulty: bool,
}

impl Page {
    /// No text.
    pub fn new(alloc: Global) -> Page {
        Page {
            alloc,
            text: String::new(alloc),
            faulty: false,
        }
    }

    /// Where memory is taken.
    pub fn alloc(&self) -> Global {
        self.alloc
    }

    /// The text.
    pub fn text(&self) -> &str {
        self.text.as_str()
    }

    /// Whether there was a fault.
    pub fn is_faulty(&self) -> bool {
        self.faulty
    }

    /// A fault.
    pub fn fail(&mut self) {
        self.faulty = true;
    }

    /// A fault, unless this holds.
    pub fn check(&mut self, holds: bool) {
        if !holds {
            self.faulty = true;
        }
    }

    /// The text goes on so.
    pub fn put(&mut self, text: &str) {
        if self.text.push_str(text).is_err() {
            self.faulty = true;
        }
    }

    /// The text that octets are.
    pub fn text_in<'a>(&mut self, octets: &'a [u8]) -> &'a str {
        match std::str::from_utf8(octets) {
            Ok(text) => text,
            Err(_) => {
                self.faulty = true;
                ""
            }
        }
    }

    /// It goes on by the text that octets are.
    pub fn put_octets(&mut self, octets: &[u8]) {
        let text = self.text_in(octets);
        self.put(text);
    }

    /// It goes on by a number, in decimal digits.
    pub fn join(&mut self, number: u64) {
        let alloc = self.alloc;
        match format!(in alloc; "{number}") {
            Ok(text) => self.put(text.as_str()),
            Err(_) => self.faulty = true,
        }
    }

    /// One more word, a text between quotes, in which a line ends by `\n`.
    pub fn quote(&mut self, text: &str) {
        let alloc = self.alloc;
        self.part();
        match format!(in alloc; "{text:?}") {
            Ok(text) => self.put(text.as_str()),
            Err(_) => self.faulty = true,
        }
    }

    // Where no line begins, a space stands before the next word.
    fn part(&mut self) {
        if !self.text.is_empty() && !self.text.as_str().ends_with('\n') {
            self.put(" ");
        }
    }

    /// One more word.
    pub fn say(&mut self, word: &str) {
        self.part();
        self.put(word);
    }

    /// One more word, a number in decimal digits.
    pub fn show(&mut self, number: u64) {
        self.part();
        self.join(number);
    }

    /// One more word, the hexadecimal digits of octets.
    pub fn digits(&mut self, octets: &[u8]) {
        self.part();
        match hex::encode(self.alloc, octets) {
            Ok(digits) => self.put(digits.as_str()),
            Err(_) => self.faulty = true,
        }
    }

    /// A line: a word, and the hexadecimal digits of octets.
    pub fn line(&mut self, word: &str, octets: &[u8]) {
        self.say(word);
        self.digits(octets);
        self.put("\n");
    }

    /// A copy of octets.
    pub fn copy(&mut self, octets: &[u8]) -> Octets {
        match Octets::copy_of(self.alloc, octets) {
            Ok(octets) => octets,
            Err(_) => {
                self.faulty = true;
                Octets::new(self.alloc)
            }
        }
    }
}
