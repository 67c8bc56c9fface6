//! What a written capture is. The function does nothing and carries the law as its contract.

ghost use Rattle.std.specs.Prelude.{false, List};
ghost use Rattle.pcap_frames.specs.Capture.{Packet, IsPacket, Each, IsCapture, saved};

/// The header and packets that are written, one behind the other, are a capture of these packets.
pub fn written_law()
    ensures { (packets : List Packet) → Each IsPacket packets → IsCapture (saved packets) false packets }
{}
