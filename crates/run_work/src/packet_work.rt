//! What packets lead to at a switch of slaves that send some of them back. Definitions and a law, no running code: the function here does nothing, and
//! its contract states the law.

ghost use Rattle.std.specs.Prelude.{◌≡◌, ◌≤◌, ◌+◌, ℕ, List, true, false, Some, length};
ghost use Rattle.life_counts.specs.of_protocol_models.Echo.{echo_of};
ghost use Rattle.eoe_switch.specs.declared.switching.SwitchEvent.{SwitchEvent};
ghost use Rattle.eoe_switch.specs.Switch.{switched};
ghost use Rattle.run_work.specs.Flows.{slaves_work, entries_work, AllComeAt};
ghost use Rattle.run_work.specs.Packets.{may_echo};

/// WHAT A SWITCH FORWARDS TO SLAVES COMES OF WHAT CAME IN: with n slaves, a packet of the host goes to each of them at most, and one of a slave to each
/// other; each of its fragments is written there, and where a slave may send the packet back, read and written at the others once more.
pub fn packet_law()
    // An echo is as long as its packet, and none comes of it: it isn't sent back again.
    ensures echo { (mac packet echo : List ℕ) → length mac ≡ 6 → echo_of mac packet ≡ Some echo → (may_echo echo ≡ false) × (length echo ≡ length packet) }
    ensures may { (mac packet echo : List ℕ) → echo_of mac packet ≡ Some echo → may_echo packet ≡ true }
    ensures within { (slaves many : ℕ) (es : List SwitchEvent) → many ≤ slaves + 1 → AllComeAt many es → slaves_work slaves (switched many es).forwards ≤ entries_work slaves es }
{}
