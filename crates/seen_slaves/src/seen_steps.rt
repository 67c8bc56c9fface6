//! The step of an open slave's processor as another sees its mails, while no state service is past its drain. Definitions and laws, no running code: the
//! functions here do nothing, and their contracts state the laws.

ghost use Rattle.std.specs.Prelude.{◌≡◌, ℕ, List, Option};
ghost use Rattle.idle_slaves.specs.of_exchange_model.Exchange.{Exchange, IsLawful};
ghost use Rattle.idle_slaves.specs.of_life_model.Eras.{EraIs};
ghost use Rattle.idle_slaves.specs.of_life_model.Lives.{Spot, Era};
ghost use Rattle.seen_slaves.specs.Steps.{IsStanding};
ghost use Rattle.idle_slaves.specs.of_segment_model.Record.{Frame};
ghost use Rattle.idle_slaves.specs.of_segment_model.Slaves.{Processor, Registers, Slave};
ghost use Rattle.served_rings.specs.of_serving_model.Erasing.{slave_as};
ghost use Rattle.served_rings.specs.of_serving_model.Tagged.{Rowed, ideal, real};
ghost use Rattle.served_rings.specs.of_serving_model.TaggedStates.{IsStatedServed};
ghost use Rattle.idle_slaves.specs.of_state_model.Stated.{Stated, IsStated};
ghost use Rattle.idle_slaves.specs.of_state_model.States.{Table, carry};
ghost use Rattle.idle_slaves.specs.Steps.{StepsAlone};
ghost use Rattle.idle_slaves.specs.of_state_model.Accounts.{Duty};

/// OF AN OPEN EPOCH the slave's server stands in the AL state of its registers, which the word that it carries out leaves while no state service is past its drain.
pub fn stands_law<V, A, M, Q, R>()
    ensures { (x : Exchange V A M Q R) (s : Stated V A Q) (processor : Processor V) (table : ℕ → Table) (spot : Spot) (e : Era M Q R) (opened last : ℕ) (fs : List (Frame M)) (v : V) (r : Registers) (slave : Slave V M) →
        IsLawful x → IsStated x s → EraIs x s processor table spot e opened last fs v r slave → IsStanding x s (table spot.station) e.account.hand slave }
{}

/// SO A STEP IS ONE OF THE MAILBOXES ALONE for another too, whose server is in the same AL state and stays as it is where it is told the state that stands.
pub fn alone_seen<V, A, N, P, S, W, B, M, Q, R>()
    ensures { (x : Exchange V A N P S) (s : Stated V A P) (table : Table) (hand : Option Duty) (n : Slave V N) → IsStanding x s table hand n → (f : N → M) (server : V → W) (u : Exchange W B M Q R) (processor : Processor W) (tell : ℕ → W → W) (state : W → ℕ) →
        ((r : Registers) → processor.carry r ≡ carry table r) → ((al : ℕ) (w : W) → processor.tell al w ≡ tell al w) → ((w : W) → tell (state w) w ≡ w) → ((v : V) → state (server v) ≡ s.state (x.app v)) → StepsAlone u processor table hand (slave_as f server n) }
{}

/// A SERVER IN THE MIDDLE OF A ROW is in the AL state of the one behind whole rows: no mail changes it, nor does a service.
pub fn state_seen<V, M, Q, R>()
    ensures { (x : Exchange V V M Q R) (s : Stated V V Q) → IsStatedServed x s → (w : Rowed V M Q) → s.state (real x w) ≡ s.state (ideal x w) }
{}
