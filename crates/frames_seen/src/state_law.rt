//! The slave's AL state machine and the model of state services together. No running code: the function here does nothing, and its contract
//! states the laws.

ghost use Rattle.std.specs.Prelude.{◌≡◌, ℕ, Bool, Option, Some, None};
ghost use Rattle.slave_node.specs.of_al_state.declared.machine.Al.{Al};
ghost use Rattle.slave_node.specs.of_al_state.Request.{request_of};
ghost use Rattle.frame_view.specs.of_segment_model.Slaves.{Registers};
ghost use Rattle.frame_view.specs.of_state_model.States.{carry};
ghost use Rattle.frame_view.specs.of_state_model.Promises.{IsTable};
ghost use Rattle.frames_seen.specs.Shows.{Shows, slave_table, word_seen};

/// The slave's AL state machine is one of the model: its table is one of those of which the laws of state services speak, and what it does with
/// a control word is what the model carries out.
pub fn slave_law()
    ensures table { (boot areas : Bool) (start : ℕ) → slave_table boot areas start start ≡ None → IsTable (slave_table boot areas) start }
    ensures carries { (boot areas : Bool) (al : Al) (r : Registers) (control : ℕ) → Shows al r → r.control ≡ Some (word_seen control) →
        (Shows (request_of al control boot areas).0 (carry (slave_table boot areas) r)) × ((carry (slave_table boot areas) r).control ≡ None) }
{}
