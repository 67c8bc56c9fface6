//! The slave of a run at the end of its bring-up.

ghost use Rattle.std.specs.Prelude.{◌≡◌, None, false, IfOk};
ghost use Rattle.al_state.specs.BringUp.{head_of, octets_of, step_after, is_watch};
ghost use Rattle.mailbox_slave.specs.of_esc_registers.Access.{access};
ghost use Rattle.mailbox_slave.specs.Registers.{out_box, in_box, request_of, acknowledge_of};
ghost use Rattle.mailbox_law.specs.Wire.{IsLinked};

use al_state::{BringUp, PRE_OP, access, bring_new, came_back};
use arrayvec::ArrayVec;
use datagrams::Head;
use ec_fields::NoMemory;
use esc_registers::Esc;
use std::alloc::Global;

/// The station address of the slave of a run.
pub const STATION: u16 = 0x1001;

// The access in hand passes the slave and returns.
fn carry_out(esc: &mut Esc, up: &mut BringUp)
    ensures registers { esc.new ≡ (access esc.old (head_of up.old 0) (octets_of up.old)).registers }
    ensures goes_on { is_watch up.old.step ≡ false → up.new ≡ record up.old { step = step_after up.old.again up.old.step } }
{
    let mut head = Head::default();
    let mut body = ArrayVec::new();
    access(up, 0, &mut head, &mut body);
    esc.pass(&mut head, body.as_mut_slice());
    came_back(up, head.counter, body.as_slice());
}

/// A slave whose station and sync managers were set: both mailboxes are empty.
pub fn brought_up(alloc: Global, out_len: u16, in_len: u16) -> Result<Esc, NoMemory>
    ensures linked { IfOk result (IsLinked STATION out_len in_len) }
    ensures empty { IfOk result (λ esc. (out_box esc ≡ None) × (in_box esc ≡ None) × (request_of esc ≡ false) × (acknowledge_of esc ≡ false)) }
{
    let mut esc = Esc::new(alloc, out_len, in_len)?;
    let mut up = bring_new(0, STATION, out_len, in_len, PRE_OP);
    carry_out(&mut esc, &mut up);
    carry_out(&mut esc, &mut up);
    carry_out(&mut esc, &mut up);
    Ok(esc)
}
