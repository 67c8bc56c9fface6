ghost use Rattle.std.specs.Prelude.{◌≡◌, ◌≤◌, []};
ghost use Rattle.gateway_tool.specs.Rule.{IsForm};
ghost use Rattle.gateway_tool.specs.Told.{told};
ghost use Rattle.gateway_tool.specs.Ended.{HasEnded, IsKept};

use crate::reply::Reply;
use crate::talk::Talk;
use ec_outside::{Peer, Port, PortErr};
use segment_plan::Service;
use std::alloc::Global;

/// How a service over the gateway ended.
#[derive(Clone, Copy)]
pub enum ToolEnd {
    /// The slave replied.
    Reply,
    /// No reply came.
    NoAnswer,
    /// The port failed.
    PortFault,
    /// Want of memory.
    NoMemory,
}

/// Carries out one service of a slave over the gateway `to`: a download or an upload of an entry, or a file that is read or written. The slave
/// has this station, and its mailboxes these lengths: the one that requests go through, and the one for answers. Each mail goes as one datagram.
///
/// `Reply` comes where the mails that were taken are the reply side of the service; `value` is then the reply, and else unchanged. A datagram is
/// taken where its mail has the station and the counter of the last mail sent and may come next; others are passed over. `NoAnswer` comes where the
/// port ended, where 65,536 datagrams were passed over since the last one taken, or where as many were taken without a reply; `PortFault` only
/// where the port's count of faults rose. The acknowledgement of a file's last packet goes without waiting, and `Reply` stands where the port
/// fails at it.
pub fn ask<P: Port>(
    alloc: Global,
    station: u16,
    out_len: u16,
    in_len: u16,
    service: &Service,
    to: Peer,
    port: &mut P,
    value: &mut Reply,
) -> ToolEnd
    requires out_least { 64 ≤ out_len }
    requires out_most { out_len ≤ 1486 }
    requires in_least { 64 ≤ in_len }
    requires in_most { in_len ≤ 1486 }
    requires form { IsForm service.now }
    requires empty { value.old.value ≡ [] }
    ensures ended { HasEnded (record { areas = record { out = out_len; back = in_len }; service = service.now; station = station; to = to }) (told P.heard P.sent P.over P.port_faults port.old) (told P.heard P.sent P.over P.port_faults port.new) value.new result }
    ensures kept { IsKept value.old value.new result }
{
    let Ok(mut talk) = Talk::begin(alloc, station, out_len, in_len, service, to) else {
        return ToolEnd::NoMemory;
    };
    match talk.go_on(port) {
        Ok(true) => match talk.client.reply(value) {
            Ok(()) => ToolEnd::Reply,
            Err(_) => ToolEnd::NoMemory,
        },
        Ok(false) => ToolEnd::NoAnswer,
        Err(PortErr::Failed) => ToolEnd::PortFault,
        Err(PortErr::NoMemory) => ToolEnd::NoMemory,
    }
}
