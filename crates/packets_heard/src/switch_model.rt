//! A switch of packets between a host and slaves, as a master moves it by its turns. Definitions and laws, no running code.

ghost use Rattle.std.specs.Prelude.{◌≡◌, ℕ, ◌==◌, false, List, []};
ghost use Rattle.packets_heard.specs.Events.{NotFalling, IsPort, HostWaits};
ghost use Rattle.packets_heard.specs.Turns.{Switch, IsSwitch, Turn, MayTurns, all_events, all_entered, folded, forwards_of, others_of, brought_of, given_up_of, packets_from, NoneWaits};

/// The events of a master's turns, each with the number of the frames that had been sent when it came.
pub fn switch_law<W, P>()
    // The numbers don't fall.
    ensures numbers { (ts : List (Turn P)) → NotFalling 0 (all_events 0 ts) }
    // At a slave's port a packet comes into hand just at the frames of the slave's rows that carry one; packets arrive with the number behind the
    // frame that brought their last fragment; and the port goes down once, behind all that began, where the slave was given up for good.
    ensures port { (x : Switch W P) (w : W) (ts : List (Turn P)) → MayTurns x [] w ts → (port : ℕ) → (port == 0) ≡ false → IsPort (all_events 0 ts) port (forwards_of port 0 ts) (brought_of port 0 ts) (given_up_of port 0 ts) }
    // The host's packets arrive in their order, each where no packet waits at any port.
    ensures host { (x : Switch W P) (w : W) (ts : List (Turn P)) → MayTurns x [] w ts → HostWaits (λ es. x.any (folded x w es)) [] (all_events 0 ts) }
    ensures entered { (x : Switch W P) (w : W) (ts : List (Turn P)) → MayTurns x [] w ts → packets_from 0 (all_events 0 ts) ≡ all_entered ts }
    // Where another row of a slave with a port begins, no packet waits there behind the events numbered up to its frame.
    ensures none_waits { (x : Switch W P) → IsSwitch x → (w : W) (ts : List (Turn P)) → MayTurns x [] w ts → (port : ℕ) → NoneWaits x w port (all_events 0 ts) (others_of port 0 ts) }
{}
