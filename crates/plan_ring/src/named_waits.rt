//! Clients by other names of their services: they never wait in vain either, and a service in hand is over for both or for none. No running code: the functions
//! here do nothing, and their contracts state the laws.

ghost use Rattle.std.specs.Prelude.{Bool};
ghost use Rattle.slave_server.specs.of_slave_model.Moments.{IsFree, NoneLeft, NowAnswered};
ghost use Rattle.slave_server.specs.of_exchange_model.Exchange.{Exchange, Speech};
ghost use Rattle.plan_ring.specs.Alike.{Alike, RowIs};
ghost use Rattle.plan_ring.specs.Named.{Naming, Agrees, named};
ghost use Rattle.slave_server.specs.of_slave_model.Waits.{NeverWaits};
ghost use Rattle.slave_server.specs.of_segment_model.Seats.{Side};

/// A client never waits in vain by other names of its services either.
pub fn named_waits_law<V, A, M, Q, R, P, T>()
    ensures { (x : Exchange V A M Q R) (n : Naming Q R P T) (y : Speech M P T) → Agrees x n y → NeverWaits x → NeverWaits (named x n y) }
{}

/// A service in hand of which two clients speak alike is over for both, or for none; so it is with what is left of it, and with its answer.
pub fn alike_rows_law<M, P, T>()
    ensures free { (is : P → Bool) (y z : Speech M P T) → Alike is y z → (d : Side M P T) (acknowledged : P → Bool) → RowIs is d.now → (IsFree y acknowledged d → IsFree z acknowledged d) × (IsFree z acknowledged d → IsFree y acknowledged d) }
    ensures left { (is : P → Bool) (y z : Speech M P T) → Alike is y z → (d : Side M P T) → RowIs is d.now → NoneLeft y d → NoneLeft z d }
    ensures answered { (is : P → Bool) (y z : Speech M P T) → Alike is y z → (d : Side M P T) → RowIs is d.now → NowAnswered y d → NowAnswered z d }
{}
