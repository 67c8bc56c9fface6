ghost use Rattle.std.specs.Prelude.{◌≡◌, ◌++◌, if◌then◌else◌, codes, string_bytes, OnOk};
ghost use Rattle.mailbox_mail.specs.View.{mail_seen};
ghost use Rattle.capture_view.specs.Numbers.{decimal_of};
ghost use Rattle.capture_view.specs.Lines.{stamp_text, packet_line, packets_line, fault_line, no_frame_line, command_text, address_text, counts_text, head_text, datagram_line, kind_text, mail_line};

use crate::numbers::{add_decimal, add_octet, add_word};
use datagrams::{Command, FrameFault, Head};
use mailbox_mail::{Kind, MailView};
use pcap_frames::{PacketAt, Stamp};
use std::alloc::AllocError;

// Appends the part of a second, in nano- or microseconds.
fn add_part(line: &mut String, nanos: bool, part: u32) -> Result<(), AllocError>
    ensures { OnOk result (string_bytes line.new ≡ string_bytes line.old ++ decimal_of (if nanos then 9 else 6) part) }
{
    if nanos {
        write!(line, "{part:09}")
    } else {
        write!(line, "{part:06}")
    }
}

// Appends when a packet was captured.
fn add_stamp(line: &mut String, nanos: bool, stamp: Stamp) -> Result<(), AllocError>
    ensures { OnOk result (string_bytes line.new ≡ string_bytes line.old ++ stamp_text nanos stamp) }
{
    line.push_str(" at ")?;
    add_decimal(line, u64::from(stamp.seconds))?;
    line.push_str(".")?;
    add_part(line, nanos, stamp.part)
}

/// The line of a packet, by its number in the capture.
pub fn packet_line(
    line: &mut String,
    nanos: bool,
    number: usize,
    packet: &PacketAt,
) -> Result<(), AllocError>
    ensures { OnOk result (string_bytes line.new ≡ packet_line nanos number packet.now) }
{
    line.clear();
    line.push_str("packet ")?;
    add_decimal(line, number as u64)?;
    add_stamp(line, nanos, packet.stamp)?;
    line.push_str(" length ")?;
    add_decimal(line, packet.len as u64)?;
    line.push_str("\n")
}

/// The last line, which says how many packets there are.
pub fn packets_line(line: &mut String, count: usize) -> Result<(), AllocError>
    ensures { OnOk result (string_bytes line.new ≡ packets_line count) }
{
    line.clear();
    write!(line, "packets {count}\n")
}

/// The line of a fault, by its place in the order of faults.
pub fn fault_line(line: &mut String, number: u8) -> Result<(), AllocError>
    ensures { OnOk result (string_bytes line.new ≡ fault_line number) }
{
    line.clear();
    write!(line, "fault {number}\n")
}

fn other_line(line: &mut String) -> Result<(), AllocError>
    ensures { OnOk result (string_bytes line.new ≡ codes "other\n") }
{
    line.clear();
    line.push_str("other\n")
}

/// The line of octets that are no frame of datagrams.
pub fn no_frame_line(line: &mut String, fault: FrameFault) -> Result<(), AllocError>
    ensures { OnOk result (string_bytes line.new ≡ no_frame_line fault) }
{
    match fault {
        FrameFault::Short | FrameFault::NotEtherCat | FrameFault::WrongType => other_line(line),
        FrameFault::LengthWord => fault_line(line, 4),
        FrameFault::DatagramCut { .. } => fault_line(line, 5),
        FrameFault::MoreButEnd => fault_line(line, 6),
    }
}

// Appends a command's name.
fn add_command(line: &mut String, command: Command) -> Result<(), AllocError>
    ensures { OnOk result (string_bytes line.new ≡ string_bytes line.old ++ command_text command) }
{
    match command {
        Command::Nop => line.push_str("nop"),
        Command::Aprd => line.push_str("aprd"),
        Command::Apwr => line.push_str("apwr"),
        Command::Aprw => line.push_str("aprw"),
        Command::Fprd => line.push_str("fprd"),
        Command::Fpwr => line.push_str("fpwr"),
        Command::Fprw => line.push_str("fprw"),
        Command::Brd => line.push_str("brd"),
        Command::Bwr => line.push_str("bwr"),
        Command::Brw => line.push_str("brw"),
        Command::Lrd => line.push_str("lrd"),
        Command::Lwr => line.push_str("lwr"),
        Command::Lrw => line.push_str("lrw"),
        Command::Armw => line.push_str("armw"),
        Command::Frmw => line.push_str("frmw"),
        Command::Other(number) => write!(line, "command {number}"),
    }
}

// Appends a datagram's index and the address that it names.
fn add_address(line: &mut String, head: &Head) -> Result<(), AllocError>
    ensures { OnOk result (string_bytes line.new ≡ string_bytes line.old ++ address_text head.now) }
{
    line.push_str(" ")?;
    add_octet(line, head.index)?;
    line.push_str(" ")?;
    add_word(line, head.adp)?;
    line.push_str(":")?;
    add_word(line, head.ado)
}

// Appends the length of a datagram's body and its working counter.
fn add_counts(line: &mut String, head: &Head) -> Result<(), AllocError>
    ensures { OnOk result (string_bytes line.new ≡ string_bytes line.old ++ counts_text head.now) }
{
    line.push_str(" length ")?;
    add_decimal(line, u64::from(head.len))?;
    line.push_str(" counter ")?;
    add_decimal(line, u64::from(head.counter))?;
    line.push_str("\n")
}

// Appends what stands behind the command.
#[tactic(auto, using(crate::proofs::Digits::address_behind))]
fn add_head(line: &mut String, head: &Head) -> Result<(), AllocError>
    ensures { OnOk result (string_bytes line.new ≡ string_bytes line.old ++ head_text head.now) }
{
    add_address(line, head)?;
    add_counts(line, head)
}

/// The line of a datagram.
pub fn datagram_line(line: &mut String, head: &Head) -> Result<(), AllocError>
    ensures { OnOk result (string_bytes line.new ≡ datagram_line head.now) }
{
    line.clear();
    line.push_str("datagram ")?;
    add_command(line, head.command)?;
    add_head(line, head)
}

fn kind_text(kind: Kind) -> &'static str
    ensures { result.now ≡ kind_text kind }
{
    match kind {
        Kind::Error => "error",
        Kind::AoE => "aoe",
        Kind::EoE => "eoe",
        Kind::CoE => "coe",
        Kind::FoE => "foe",
        Kind::SoE => "soe",
        Kind::VoE => "voe",
    }
}

/// The line of a mail.
pub fn mail_line(line: &mut String, mail: MailView<'_>) -> Result<(), AllocError>
    ensures { OnOk result (string_bytes line.new ≡ mail_line (mail_seen mail.entry)) }
{
    line.clear();
    line.push_str("mail ")?;
    line.push_str(kind_text(mail.kind))?;
    line.push_str(" counter ")?;
    add_decimal(line, u64::from(mail.counter))?;
    line.push_str(" length ")?;
    add_decimal(line, mail.body.len() as u64)?;
    line.push_str("\n")
}
