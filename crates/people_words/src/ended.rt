ghost use Rattle.std.specs.Prelude.{◌≡◌};
ghost use Rattle.people_words.specs.Ended.{number_of};

use ecmbx_words::Status;

/// How a form for people ended.
#[derive(Clone, Copy)]
pub enum Ended {
    /// As other calls of the program end.
    As(Status),
    /// Everything was carried out, and a slave refused a service.
    ServiceRefused,
}

impl Ended {
    /// What the program ends with: the status's own number, or 13.
    pub fn number(self) -> u8
        ensures { result ≡ number_of self }
    {
        match self {
            Ended::As(status) => status.number(),
            Ended::ServiceRefused => 13,
        }
    }
}
