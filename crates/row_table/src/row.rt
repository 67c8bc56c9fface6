use crate::octets::octets_in;
use crate::page::Page;
use ec_fields::Octets;
use std::alloc::Global;

/// A row: the words of what it asks, from the next one on, and the words of what is found for it. A word that can't be read is a fault, as is what
/// can't be carried out; it stays, and a row with a fault doesn't hold. So who reads and tells words goes on without looking back.
#[derive(Drop)]
pub struct Row<'a> {
    asked: Option<&'a str>,
    found: Page,
}

impl<'a> Row<'a> {
    /// All words of what is asked, and nothing found yet.
    pub fn of(alloc: Global, asked: &'a str) -> Row<'a> {
        Row {
            asked: Some(asked),
            found: Page::new(alloc),
        }
    }

    /// Where memory is taken.
    pub fn alloc(&self) -> Global {
        self.found.alloc()
    }

    /// The row can't be carried out.
    pub fn fail(&mut self) {
        self.found.fail();
    }

    /// The row can't be carried out, unless this holds.
    pub fn check(&mut self, holds: bool) {
        self.found.check(holds);
    }

    /// Whether each word was read, there was no fault, and just this was found.
    pub fn holds(&self, wanted: &str) -> bool {
        self.is_read() && !self.is_faulty() && self.found() == wanted
    }

    /// Whether there was a fault.
    pub fn is_faulty(&self) -> bool {
        self.found.is_faulty()
    }

    /// What was found.
    pub fn found(&self) -> &str {
        self.found.text()
    }

    /// Whether each word was read.
    pub fn is_read(&self) -> bool {
        self.asked.is_none()
    }

    /// The next word.
    pub fn word(&mut self) -> &'a str {
        let Some(text) = self.asked else {
            self.fail();
            return "";
        };
        match text.split_once(' ') {
            Some((word, rest)) => {
                self.asked = Some(rest);
                word
            }
            None => {
                self.asked = None;
                text
            }
        }
    }

    /// The octets that the next word stands for.
    pub fn octets(&mut self) -> Octets {
        let word = self.word();
        match octets_in(self.alloc(), word) {
            Ok(octets) => octets,
            Err(_) => {
                self.fail();
                Octets::new(self.alloc())
            }
        }
    }

    // A number that was read.
    fn read<T: Default>(&mut self, number: Option<T>) -> T {
        match number {
            Some(number) => number,
            None => {
                self.fail();
                T::default()
            }
        }
    }

    /// The next word as a number of one octet.
    pub fn small(&mut self) -> u8 {
        let number = self.word().parse::<u8>().ok();
        self.read(number)
    }

    /// The next word as a number of two octets.
    pub fn short(&mut self) -> u16 {
        let number = self.word().parse::<u16>().ok();
        self.read(number)
    }

    /// The next word as a number of four octets.
    pub fn number(&mut self) -> u32 {
        let number = self.word().parse::<u32>().ok();
        self.read(number)
    }

    /// The next word as a count.
    pub fn count(&mut self) -> usize {
        let number = self.word().parse::<usize>().ok();
        self.read(number)
    }

    /// Whether the next word is `true`, and not `false`.
    pub fn flag(&mut self) -> bool {
        let flag = self.word().parse::<bool>().ok();
        self.read(flag)
    }

    /// The text is found right behind what was found before.
    pub fn put(&mut self, text: &str) {
        self.found.put(text);
    }

    /// A number is found right behind what was found before.
    pub fn join(&mut self, number: u64) {
        self.found.join(number);
    }

    /// One more word is found.
    pub fn say(&mut self, word: &str) {
        self.found.say(word);
    }

    /// A number is found.
    pub fn show(&mut self, number: u64) {
        self.found.show(number);
    }

    /// A number is found, or `none`.
    pub fn show_some(&mut self, number: Option<u64>) {
        match number {
            Some(number) => self.show(number),
            None => self.say("none"),
        }
    }

    /// `true` is found, or `false`.
    pub fn answer(&mut self, flag: bool) {
        self.say(if flag { "true" } else { "false" });
    }

    /// The text that octets are.
    pub fn text_in<'b>(&mut self, octets: &'b [u8]) -> &'b str {
        self.found.text_in(octets)
    }

    /// A text is found, between quotes, in which a line ends by `\n`.
    pub fn quote(&mut self, octets: &[u8]) {
        let text = self.text_in(octets);
        self.found.quote(text);
    }

    /// Octets are found, by their hexadecimal digits; `-` stands for none.
    pub fn digits(&mut self, octets: &[u8]) {
        if octets.is_empty() {
            self.say("-");
        } else {
            self.found.digits(octets);
        }
    }
}
