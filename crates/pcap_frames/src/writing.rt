ghost use Rattle.std.specs.Prelude.{◌≡◌, ◌≤◌, [], ◌++◌, ◌∷◌, length, OnOk, OnErr};
ghost use Rattle.byteorder.specs.Endian.{little_bytes};
ghost use Rattle.pcap_frames.specs.Capture.{IsCapture, packet_text, packets_text, written_head, whole_packet, StartsWith};
ghost use Rattle.pcap_frames.specs.declared.order.Order.TheVariants.{LowFirst};

use crate::capture::Stamp;
use ec_fields::{NoMemory, Octets, put_u32};

const HEADER: [u8; 24] = [
    0xD4, 0xC3, 0xB2, 0xA1, 2, 0, 4, 0, 0, 0, 0, 0, 0, 0, 0, 0, 0xFF, 0xFF, 0, 0, 1, 0, 0, 0,
];

/// Appends the header of a capture. After `NoMemory` what `into` held before is a prefix of what it
/// holds.
pub fn write_head(into: &mut Octets) -> Result<(), NoMemory>
    ensures ok { OnOk result (into.new ≡ into.old ++ written_head) }
    ensures err { OnErr result (StartsWith into.old into.new) }
{
    into.add(&HEADER)
}

// The header of a packet that was captured whole.
fn packet_head(stamp: Stamp, len: u32) -> [u8; 16]
    ensures { result ≡ little_bytes 4 stamp.seconds ++ (little_bytes 4 stamp.part ++ (little_bytes 4 len ++ little_bytes 4 len)) }
{
    let mut octets = [0; 16];
    put_u32(&mut octets, 0, stamp.seconds);
    put_u32(&mut octets, 4, stamp.part);
    put_u32(&mut octets, 8, len);
    put_u32(&mut octets, 12, len);
    octets
}

/// Appends a packet that was captured whole. After `NoMemory` what `into` held before is a prefix of
/// what it holds.
pub fn write_packet(into: &mut Octets, stamp: Stamp, packet: &[u8]) -> Result<(), NoMemory>
    requires { length packet.now ≤ 65535 }
    ensures ok { OnOk result (into.new ≡ into.old ++ packet_text LowFirst (whole_packet stamp packet.now)) }
    ensures err { OnErr result (StartsWith into.old into.new) }
{
    into.add(&packet_head(stamp, packet.len() as u32))?;
    into.add(packet)?;
    Ok(())
}
