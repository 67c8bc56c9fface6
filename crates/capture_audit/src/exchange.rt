ghost use Rattle.std.specs.Prelude.{◌≡◌, IfSome, Some, All, option_map};
ghost use Rattle.capture_view.specs.of_datagrams.Frame.{IsPart, frame_read};
ghost use Rattle.capture_audit.specs.Exchanges.{same_lengths, same_index, return_as, back_at, datagram_of};
ghost use Rattle.capture_audit.specs.Seen.{found_seen, datagram_seen, return_seen, frame_found, IsFound};

use capture_view::body_of;
use datagrams::{Frame, Head, Part, read};

/// What returned of a datagram.
#[derive(Clone, Copy)]
pub struct Return<'a> {
    pub counter: u16,
    pub body: &'a [u8],
}

/// A datagram that was sent, with what returned of it: `None` where it was lost.
#[derive(Clone, Copy)]
pub struct Datagram<'a> {
    pub head: Head,
    pub body: &'a [u8],
    pub back: Option<Return<'a>>,
}

/// A frame that reads: its octets and its datagrams.
#[derive(Clone, Copy)]
pub struct FrameView<'a> {
    pub octets: &'a [u8],
    pub parts: &'a [Part],
}

fn same_lengths(sent: &[Part], back: &[Part]) -> bool
    ensures { result ≡ same_lengths sent.now back.now }
{
    if sent.len() != back.len() {
        return false;
    }
    for (place, part) in sent.iter().enumerate() {
        if part.head.len != back[place].head.len {
            return false;
        }
    }
    true
}

fn same_index(sent: &[Part], back: &[Part]) -> bool
    ensures { result ≡ same_index sent.now back.now }
{
    match (sent.first(), back.first()) {
        (Some(sent), Some(back)) => sent.head.index == back.head.index,
        _ => false,
    }
}

/// The frame in the octets behind those of a frame with these datagrams, where it is its return.
pub fn returned(sent: &[Part], behind: &[u8]) -> Option<Frame>
    ensures value { option_map (frame_found behind.now) result ≡ return_as sent.now behind.now (frame_read behind.now) }
    ensures parts { IfSome result (λ frame. All (IsPart behind.now) frame.parts.items) }
{
    let Ok(frame) = read(behind) else {
        return None;
    };
    let back = frame.parts.as_slice();
    if same_index(sent, back) && same_lengths(sent, back) {
        Some(frame)
    } else {
        None
    }
}

// What stands in a return at a place.
fn back_at<'a>(back: FrameView<'a>, place: usize) -> Option<Return<'a>>
    requires { IsFound back }
    ensures { option_map return_seen result ≡ back_at (Some (found_seen back.entry)) place }
{
    let part = back.parts.get(place)?;
    Some(Return {
        counter: part.head.counter,
        body: body_of(back.octets, part),
    })
}

/// The datagram of a frame at a place, with what stands at its place in the return.
pub fn datagram_of<'a>(
    sent: FrameView<'a>,
    part: &Part,
    back: Option<FrameView<'a>>,
    place: usize,
) -> Datagram<'a>
    requires part { IsPart sent.octets.now part.now }
    requires back { IfSome back (λ found. IsFound found) }
    ensures { datagram_seen result ≡ datagram_of (option_map found_seen back.entry) sent.entry.octets.now place part.now }
{
    let back = match back {
        Some(back) => back_at(back, place),
        None => None,
    };
    Datagram {
        head: part.head,
        body: body_of(sent.octets, part),
        back,
    }
}
