ghost use Rattle.std.specs.Prelude.{◌≡◌, IfOk};
ghost use Rattle.tool_call.specs.Lines.{answer_line, no_answer_line, port_fault_line};

use ec_fields::{NoMemory, Octets};
use gateway_tool::Reply;
use reply_text::reply_text;
use std::alloc::Global;

/// The line of a reply.
pub fn answer(alloc: Global, value: &Reply) -> Result<Octets, NoMemory>
    ensures { IfOk result (λ line. line ≡ answer_line value.now) }
{
    let text = reply_text(alloc, value.kind, value.value.bytes())?;
    let mut line = Octets::copy_of(alloc, b"answer ")?;
    line.add(text.bytes())?;
    line.add(b"\n")?;
    Ok(line)
}

pub fn no_answer() -> &'static [u8]
    ensures { result.now ≡ no_answer_line }
{
    b"no answer\n"
}

pub fn port_fault() -> &'static [u8]
    ensures { result.now ≡ port_fault_line }
{
    b"port fault\n"
}
