ghost use Rattle.std.specs.Prelude.{◌≡◌, ◌+◌, ◌≤◌, length, replicate, IfOk};

use ec_fields::NoMemory;
use mailbox_mail::Mail;
use std::alloc::Global;
use std::marker::Model;

/// The octets of a mailbox area. Their number never changes.
#[derive(Drop)]
pub struct Area {
    octets: Vec<u8>,
}

impl Model for Area {
    ghost use Rattle.std.specs.Prelude.{List, ℕ};

    ghost Value = { List ℕ };

    ghost view = { λ a. a.octets.items };
}

impl Area {
    ghost use Rattle.mailbox_mail.specs.Area.{mail_area};

    /// An area of this many zeros.
    pub fn new(alloc: Global, len: u16) -> Result<Area, NoMemory>
        ensures { IfOk result (λ area. area ≡ replicate len 0) }
    {
        let octets = vec![in alloc; 0; len as usize]?;
        Ok(Area { octets })
    }

    /// The octets.
    pub fn octets(&self) -> &[u8]
        ensures { result.now ≡ self.now }
    {
        self.octets.as_slice()
    }

    /// How many octets there are.
    pub fn len(&self) -> usize
        ensures { result ≡ length self.now }
    {
        self.octets.len()
    }

    /// Writes all octets.
    pub fn fill(&mut self, octets: &[u8])
        requires { length octets.now ≡ length self.old }
        ensures { self.new ≡ octets.now }
    {
        self.octets.as_mut_slice().copy_from_slice(octets);
    }

    /// Writes a mail at the head of the area, and zeros behind it.
    pub fn write_mail(&mut self, mail: &Mail)
        requires counted { mail.now.counter ≤ 7 }
        requires fits { 6 + length mail.now.body.items ≤ length self.old }
        ensures { self.new ≡ mail_area (length self.old) mail.now }
    {
        mailbox_mail::write(mail, self.octets.as_mut_slice());
    }
}
