ghost use Rattle.std.specs.Prelude.{◌≡◌, ◌++◌, length, IfOk, OnOk, OnErr};
ghost use Rattle.run_report.specs.Report.{answer_text, answer_line, answer_lines, is_scripted, is_packet, is_handed, is_handed_kind, packets_handed, Extends};

use ec_fields::{NoMemory, Octets, Rows};
use mailbox_mail::ReplyKind;
use master_node::Origin;
use reply_text::reply_text;
use run_book::{Answer, Begun};
use std::alloc::Global;

fn text_of_answer(alloc: Global, answer: &Answer) -> Result<Octets, NoMemory>
    ensures { IfOk result (λ text. text ≡ answer_text answer.now) }
{
    match answer {
        Answer::Replied { reply, .. } => reply_text(alloc, reply.kind, reply.value.bytes()),
        Answer::InDoubt => Octets::copy_of(alloc, b"in doubt"),
        Answer::NotSent => Octets::copy_of(alloc, b"not sent"),
    }
}

fn line_of_answer(alloc: Global, number: usize, answer: &Answer) -> Result<Octets, NoMemory>
    ensures { IfOk result (λ line. line ≡ answer_line number answer.now) }
{
    let head = format!(in alloc; "answer {number} ")?;
    let text = text_of_answer(alloc, answer)?;
    let mut line = Octets::copy_of(alloc, head.as_bytes())?;
    line.add(text.bytes())?;
    line.add(b"\n")?;
    Ok(line)
}

/// Appends a line for the answer of each scripted service. What began otherwise has none, and what never came into hand was scripted.
pub fn push_answers(
    alloc: Global,
    begun: &[Begun],
    answers: &[Answer],
    into: &mut Rows<Octets>,
) -> Result<(), NoMemory>
    ensures ok { OnOk result (into.new ≡ into.old ++ answer_lines begun.now 0 0 answers.now) }
    ensures err { OnErr result (Extends into.old into.new) }
{
    let mut number: usize = 0;
    for (at, answer) in answers.iter().enumerate() {
        if is_scripted(begun, at) {
            into.add(line_of_answer(alloc, number, answer)?)?;
            number += 1;
        }
    }
    Ok(())
}

fn is_scripted(begun: &[Begun], at: usize) -> bool
    ensures { result ≡ is_scripted begun.now at }
{
    match begun.get(at) {
        Some(row) => matches!(row.origin, Origin::Script(_)),
        None => true,
    }
}

/// How many packets were handed over to a slave.
pub fn packets_handed(begun: &[Begun], answers: &[Answer]) -> usize
    ensures { result ≡ packets_handed begun.now answers.now }
{
    let mut many: usize = 0;
    for (at, answer) in answers.iter().enumerate() {
        if is_packet(begun, at) && is_handed(answer) {
            many += 1;
        }
    }
    many
}

fn is_packet(begun: &[Begun], at: usize) -> bool
    ensures { result ≡ is_packet begun.now at }
{
    match begun.get(at) {
        Some(row) => matches!(row.origin, Origin::Forward(_)),
        None => false,
    }
}

fn is_handed(answer: &Answer) -> bool
    ensures { result ≡ is_handed answer.now }
{
    match answer {
        Answer::Replied { reply, .. } => is_handed_kind(reply.kind),
        Answer::InDoubt | Answer::NotSent => false,
    }
}

fn is_handed_kind(kind: ReplyKind) -> bool
    ensures { result ≡ is_handed_kind kind }
{
    match kind {
        ReplyKind::Handed => true,
        ReplyKind::Done
        | ReplyKind::Value
        | ReplyKind::Abort(_)
        | ReplyKind::FoeError(_)
        | ReplyKind::SoeError(_)
        | ReplyKind::EoeResult(_)
        | ReplyKind::MailboxError(_)
        | ReplyKind::StateRefused(_) => false,
    }
}
