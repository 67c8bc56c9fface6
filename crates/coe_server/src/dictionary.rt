ghost use Rattle.std.specs.Prelude.{◌≡◌, ℕ, ◌≤◌, Bool, None};
ghost use Rattle.protocol_models.specs.Tables.{Tables};
ghost use Rattle.protocol_models.specs.CoeServer.{emission_of};
ghost use Rattle.coe_server.specs.Serving.{target_view, ask_view, Stores, Reads, IsFitting};

use ec_fields::Transfer;

/// What an SDO transfer is about: an entry by its subindex, or, by complete access, the object from this subindex on.
#[derive(Clone, Copy)]
pub struct Target {
    pub index: u16,
    pub sub: u8,
    pub all: bool,
}

/// What an information request asks (ETG.1000.6, "SDO Information").
#[derive(Clone, Copy)]
pub enum Question {
    List { kind: u16 },
    Object { index: u16 },
    Entry { index: u16, sub: u8, info: u8 },
}

/// The object dictionary that a server works on, whose AL state is told at each call. Each answer `Some` is an SDO abort code (CiA 301).
pub trait Dictionary {
    ghost tables: { ℕ → Tables Self };

    /// What refuses a download by its size alone.
    fn check(&self, target: Target, size: u32, al: u8) -> Option<u32>
        ensures code { result ≡ (tables al).check self.now (target_view target) size }
        ensures small { result ≡ None → size ≤ 16384 };

    /// Stores a whole value; after `Some` nothing changed.
    fn download(&mut self, target: Target, bytes: &[u8], al: u8) -> Option<u32>
        ensures stores { Stores ((tables al).download self.old (target_view target) bytes.now) result self.old self.new }
        ensures emits { result ≡ None → (eoe : Bool) → IsFitting (emission_of eoe (target_view target) bytes.now) };

    /// Reads a whole value into an empty list.
    fn upload(&self, target: Target, al: u8, into: &mut Transfer) -> Option<u32>
        requires { 16384 ≤ into.old.limit }
        ensures value { Reads ((tables al).upload self.now (target_view target)) result into.new.octets }
        ensures limit { into.new.limit ≡ into.old.limit };

    /// Reads the octets behind the header of an information answer into an empty list.
    fn info(&self, question: Question, al: u8, into: &mut Transfer) -> Option<u32>
        requires { 16384 ≤ into.old.limit }
        ensures value { Reads ((tables al).info self.now (ask_view question)) result into.new.octets }
        ensures limit { into.new.limit ≡ into.old.limit };
}
