ghost use Rattle.std.specs.Prelude.{◌≡◌, ◌++◌, IfOk, OnOk};
ghost use Rattle.entry_texts.specs.Replies.{end_of, head_text, reply_line, count_text, saved_line};

use ec_fields::{NoMemory, Octets};
use ecmbx_words::Status;
use gateway_tool::Reply;
use mailbox_mail::ReplyKind;
use people_words::Ended;
use segment_plan::{Service, SlaveSpec};
use service_texts::{add_result, add_service};
use std::alloc::Global;

/// How a form ends whose service got a reply of this kind.
pub fn end_of(kind: ReplyKind) -> Ended
    ensures { result ≡ end_of kind }
{
    match kind {
        ReplyKind::Done | ReplyKind::Value | ReplyKind::Handed => Ended::As(Status::Done),
        ReplyKind::Abort(_)
        | ReplyKind::FoeError(_)
        | ReplyKind::SoeError(_)
        | ReplyKind::EoeResult(_)
        | ReplyKind::MailboxError(_)
        | ReplyKind::StateRefused(_) => Ended::ServiceRefused,
    }
}

/// What stands ahead of each line: the slave and the service.
#[tactic(auto, unfolding(crate::specs::Replies::head_text))]
pub(crate) fn head(alloc: Global, slave: &SlaveSpec, service: &Service) -> Result<Octets, NoMemory>
    ensures { IfOk result (λ line. line ≡ head_text slave.now service.now) }
{
    let mut line = Octets::copy_of(alloc, slave.name.bytes())?;
    line.add(b": ")?;
    add_service(alloc, &mut line, slave, service)?;
    line.add(b" -> ")?;
    Ok(line)
}

/// The line of a reply.
#[tactic(auto, unfolding(crate::specs::Replies::reply_line))]
pub fn reply_line(
    alloc: Global,
    slave: &SlaveSpec,
    service: &Service,
    reply: &Reply,
) -> Result<Octets, NoMemory>
    ensures { IfOk result (λ line. line ≡ reply_line slave.now service.now reply.now) }
{
    let mut line = head(alloc, slave, service)?;
    add_result(
        alloc,
        &mut line,
        slave,
        service,
        reply.kind,
        reply.value.bytes(),
    )?;
    line.add(b"\n")?;
    Ok(line)
}

/// Puts a word behind a line.
pub(crate) fn add_word(line: &mut Octets, word: &str) -> Result<(), NoMemory>
    ensures { OnOk result (line.new ≡ line.old ++ word.now) }
{
    line.add(word.as_bytes())
}

// So many octets.
#[tactic(auto, unfolding(crate::specs::Replies::count_text))]
fn add_count(alloc: Global, line: &mut Octets, count: usize) -> Result<(), NoMemory>
    ensures { OnOk result (line.new ≡ line.old ++ count_text count) }
{
    if count == 1 {
        return line.add(b"1 octet");
    }
    let text = format!(in alloc; "{count} octets")?;
    line.add(text.as_bytes())?;
    Ok(())
}

/// The line of a file that was read and saved in a file of one's own.
#[tactic(auto, unfolding(crate::specs::Replies::saved_line))]
pub fn saved_line(
    alloc: Global,
    slave: &SlaveSpec,
    service: &Service,
    octets: &[u8],
    file: &str,
) -> Result<Octets, NoMemory>
    ensures { IfOk result (λ line. line ≡ saved_line slave.now service.now octets.now file.now) }
{
    let mut line = head(alloc, slave, service)?;
    add_count(alloc, &mut line, octets.len())?;
    line.add(b", saved in ")?;
    add_word(&mut line, file)?;
    line.add(b"\n")?;
    Ok(line)
}
