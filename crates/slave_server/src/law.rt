ghost use Rattle.std.specs.Prelude.{ℕ};
ghost use Rattle.slave_parts.specs.of_slave_model.Profile.{Profile};
ghost use Rattle.slave_server.specs.Seen.{IsExchange};

/// Each step of a slave's server is that of the one exchange behind its mailboxes, in each AL state. It does nothing; its contract is the law.
pub fn server_is_exchange()
    ensures { (p : Profile) (al : ℕ) → IsExchange p al }
{}
