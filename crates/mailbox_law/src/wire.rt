//! The datagrams of a link, met by its slave or lost.

ghost use Rattle.std.specs.Prelude.{◌≡◌, ℕ, List, length};
ghost use Rattle.mailbox_master.specs.Halves.{held_mail};
ghost use Rattle.mailbox_master.specs.of_link_model.Link.{Fate, out_half_after, out_side_after, in_half_after, in_side_after, in_news};
ghost use Rattle.mailbox_master.specs.Any.{out_half_of, out_station, out_len, in_half_of, in_station, in_area_len, in_access_of};
ghost use Rattle.mailbox_slave.specs.Kept.{Kept};
ghost use Rattle.mailbox_slave.specs.Registers.{out_box, in_box, in_len, acknowledge_of};
ghost use Rattle.mailbox_slave.specs.Node.{out_side, in_side};
ghost use Rattle.mailbox_law.specs.Wire.{IsLinked, IsReadable, met_by, accepted_in, write_answer, MeetsWrite, MeetsInward};
ghost use Rattle.mailbox_law.specs.Steps.{fate_of};

use crate::steps::LinkFate;
use arrayvec::ArrayVec;
use datagrams::Head;
use esc_registers::Esc;
use mailbox_master::{Got, Holding, InwardHalf, LinkState, Outward, OutwardHalf};

// The datagram of a half meets the slave: its head and its body behind it.
fn send<L: LinkState>(esc: &mut Esc, half: &L, body: &mut ArrayVec<u8, 1486>) -> Head
    ensures { record { registers = esc.new; head = result; body = body.new.items } ≡ met_by esc.old (L.station half.now) (L.access half.now) }
{
    let mut head = Head::default();
    half.datagram(0, &mut head, body);
    esc.pass(&mut head, body.as_mut_slice());
    head
}

// The write of a mail held meets the slave.
fn meet_holding(esc: &mut Esc, half: &Outward<Holding>) -> Head
    requires { IsLinked half.now.station half.now.len (in_len esc.old) esc.old }
    ensures { (body : List ℕ) × MeetsWrite half.now.station half.now.len (in_len esc.old) (held_mail half.now) esc.old (record { registers = esc.new; head = result; body = body }) }
{
    let mut head = Head::default();
    let mut body = ArrayVec::new();
    half.datagram(0, &mut head, &mut body);
    esc.pass(&mut head, body.as_mut_slice());
    head
}

// The working counter of that write; nothing is sent where no mail is held.
fn meet_outward(esc: &mut Esc, half: &OutwardHalf) -> u16
    requires { IsLinked (out_station half.now) (out_len half.now) (in_len esc.old) esc.old }
    ensures counter { result ≡ write_answer (out_half_of half.now).holding (out_box esc.old) }
    ensures out { (k : Kept) → out_side k esc.new ≡ out_side_after (out_side k esc.old) (out_half_of half.now).holding (out_box esc.old) Fate.Pass }
    ensures inn { (k : Kept) → in_side k esc.new ≡ in_side k esc.old }
    ensures linked { IsLinked (out_station half.now) (out_len half.now) (in_len esc.old) esc.new }
{
    match half {
        OutwardHalf::Idle(_) => 0,
        OutwardHalf::Holding(holding) => meet_holding(esc, holding).counter,
    }
}

/// The datagram of the outward half is sent, with this fate.
pub fn out_sent(esc: &mut Esc, half: OutwardHalf, fate: LinkFate) -> OutwardHalf
    requires { IsLinked (out_station half) (out_len half) (in_len esc.old) esc.old }
    ensures half { out_half_of result ≡ (let h = out_half_of half in out_half_after h h.holding (out_box esc.old) (fate_of fate)) }
    ensures station { out_station result ≡ out_station half }
    ensures len { out_len result ≡ out_len half }
    ensures out { (k : Kept) → out_side k esc.new ≡ out_side_after (out_side k esc.old) (out_half_of half).holding (out_box esc.old) (fate_of fate) }
    ensures inn { (k : Kept) → in_side k esc.new ≡ in_side k esc.old }
    ensures linked { IsLinked (out_station half) (out_len half) (in_len esc.old) esc.new }
{
    match fate {
        LinkFate::Pass => {
            let counter = meet_outward(esc, &half);
            half.answered(counter)
        }
        LinkFate::LostBefore => half.lost(),
        LinkFate::LostBehind => {
            meet_outward(esc, &half);
            half.lost()
        }
    }
}

// The datagram of the inward half meets the slave.
fn send_inward(esc: &mut Esc, half: &InwardHalf, body: &mut ArrayVec<u8, 1486>) -> Head
    ensures { record { registers = esc.new; head = result; body = body.new.items } ≡ met_by esc.old (in_station half.now) (in_access_of half.now) }
{
    match half {
        InwardHalf::Clear(clear) => send(esc, clear, body),
        InwardHalf::Doubt(doubt) => send(esc, doubt, body),
        InwardHalf::Asked(asked) => send(esc, asked, body),
        InwardHalf::Refetch(refetch) => send(esc, refetch, body),
    }
}

// What comes of it at a slave that is brought up.
fn meet_inward(esc: &mut Esc, half: &InwardHalf, body: &mut ArrayVec<u8, 1486>) -> Head
    requires linked { IsLinked (in_station half.now) (length esc.old.out_manager.area) (in_area_len half.now) esc.old }
    requires readable { IsReadable esc.old }
    ensures { MeetsInward (in_station half.now) (length esc.old.out_manager.area) (in_area_len half.now) (in_half_of half.now) esc.old (record { registers = esc.new; head = result; body = body.new.items }) }
{
    send_inward(esc, half, body)
}

/// The datagram of the inward half is sent, with this fate; what a read of mailbox 1 gave.
pub fn in_sent(esc: &mut Esc, half: InwardHalf, fate: LinkFate) -> (InwardHalf, Option<Got>)
    requires linked { IsLinked (in_station half) (length esc.old.out_manager.area) (in_area_len half) esc.old }
    requires readable { IsReadable esc.old }
    ensures half { in_half_of result.0 ≡ (let h = in_half_of half in in_half_after h h.state (in_box esc.old) (acknowledge_of esc.old) (fate_of fate)) }
    ensures station { in_station result.0 ≡ in_station half }
    ensures len { in_area_len result.0 ≡ in_area_len half }
    ensures got { accepted_in result.1 ≡ (let h = in_half_of half in in_news h h.state (in_box esc.old) (fate_of fate)) }
    ensures inn { let h = in_half_of half in (k : Kept) → in_side k esc.new ≡ in_side_after (in_side k esc.old) h.state h.bit (fate_of fate) }
    ensures out { (k : Kept) → out_side k esc.new ≡ out_side k esc.old }
    ensures linked { IsLinked (in_station half) (length esc.old.out_manager.area) (in_area_len half) esc.new }
{
    let mut body = ArrayVec::new();
    match fate {
        LinkFate::Pass => {
            let head = meet_inward(esc, &half, &mut body);
            half.answered(head.counter, body.as_slice())
        }
        LinkFate::LostBefore => (half.lost(), None),
        LinkFate::LostBehind => {
            meet_inward(esc, &half, &mut body);
            (half.lost(), None)
        }
    }
}
