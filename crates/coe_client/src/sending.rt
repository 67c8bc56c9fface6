ghost use Rattle.std.specs.Prelude.{◌≡◌, ◌≤◌, ◌<◌, ◌+◌, ◌-◌, ◌↔◌, List, [], true, false, length, Some, IfSome};
ghost use Rattle.std.specs.Bool.{OnTrue, OnFalse};
ghost use Rattle.protocol_models.specs.of_coe_codec.View.{coe_seen, IsCapped};
ghost use Rattle.protocol_models.specs.CoeMails.{CoeMail};
ghost use Rattle.coe_client.specs.Talk.{is_left, later, awaited};
ghost use Rattle.coe_client.specs.Send.{send_download, send_first, send_segment, send, send_next, sent, sent_by, NextIs, SendsNext};

use crate::client::CoeClient;
use crate::state::{Task, Unsent};
use arrayvec::ArrayVec;
use coe_codec::CoeView;

impl CoeClient {
    // The first mail of a download: all of the value, or its first part.
    fn send_download(&self, index: u16, sub: u8, all: bool) -> (CoeView<'_>, Unsent)
        ensures sends { sent self.now (coe_seen result.0) result.1 ≡ send_download self.now index sub all }
        ensures capped { IsCapped result.0 }
        ensures left { is_left result.1 self.now.bytes ≡ true }
    {
        let bytes = self.bytes.bytes();
        let room = self.room as usize - 16;
        if 1 <= bytes.len() && bytes.len() <= 4 {
            let whole = CoeView::Expedited {
                index,
                sub,
                all,
                bytes,
            };
            return (whole, Unsent::Nothing);
        }
        let size = bytes.len() as u32;
        if bytes.len() <= room {
            let whole = CoeView::First {
                index,
                sub,
                all,
                size,
                bytes,
            };
            return (whole, Unsent::Nothing);
        }
        let part = CoeView::First {
            index,
            sub,
            all,
            size,
            bytes: &bytes[..room],
        };
        let behind = Unsent::Segments {
            from: room as u32,
            toggle: false,
        };
        (part, behind)
    }

    // The first mail of what is asked.
    fn send_first(&self) -> Option<(CoeView<'_>, Unsent)>
        ensures sends { sent_by self.now result ≡ send_first self.now self.now.task }
        ensures capped { IfSome result (λ v. IsCapped v.0) }
        ensures left { IfSome result (λ v. is_left v.1 self.now.bytes ≡ true) }
    {
        let first = match self.task {
            Task::Nothing => return None,
            Task::Download { index, sub, all } => self.send_download(index, sub, all),
            Task::Upload { index, sub, all } => {
                let behind = Unsent::Requests { toggle: false };
                (CoeView::Upload { index, sub, all }, behind)
            }
            Task::List { kind } => (CoeView::ListRequest { kind }, Unsent::Nothing),
            Task::Object { index } => (CoeView::ObjectRequest { index }, Unsent::Nothing),
            Task::Entry { index, sub, info } => {
                (CoeView::EntryRequest { index, sub, info }, Unsent::Nothing)
            }
        };
        Some(first)
    }

    // The next segment of a download.
    fn send_segment(&self, from: u32, toggle: bool) -> (CoeView<'_>, Unsent)
        requires { from < length self.now.bytes }
        ensures sends { sent self.now (coe_seen result.0) result.1 ≡ send_segment self.now from toggle }
        ensures capped { IsCapped result.0 }
        ensures left { is_left result.1 self.now.bytes ≡ true }
    {
        let bytes = self.bytes.bytes();
        let rest = &bytes[from as usize..];
        let room = self.room as usize - 9;
        if rest.len() <= room {
            let last = CoeView::Segment {
                toggle,
                last: true,
                bytes: rest,
            };
            return (last, Unsent::Nothing);
        }
        let part = CoeView::Segment {
            toggle,
            last: false,
            bytes: &rest[..room],
        };
        let behind = Unsent::Segments {
            from: from + room as u32,
            toggle: !toggle,
        };
        (part, behind)
    }

    // The next of the mails that are not yet sent.
    fn send(&self) -> Option<(CoeView<'_>, Unsent)>
        ensures sends { sent_by self.now result ≡ send self.now self.now.unsent }
        ensures capped { IfSome result (λ v. IsCapped v.0) }
        ensures left { IfSome result (λ v. is_left v.1 self.now.bytes ≡ true) }
    {
        match self.unsent {
            Unsent::Nothing => None,
            Unsent::First => self.send_first(),
            Unsent::Segments { from, toggle } => Some(self.send_segment(from, toggle)),
            Unsent::Requests { toggle } => {
                let behind = Unsent::Requests { toggle: !toggle };
                Some((CoeView::UploadSegment { toggle }, behind))
            }
        }
    }

    // The next message, if one may go, with what is unsent behind it.
    fn next_message(&self) -> Option<(CoeView<'_>, Unsent)>
        ensures sends { sent_by self.now result ≡ send_next self.now }
        ensures capped { IfSome result (λ v. IsCapped v.0) }
        ensures left { IfSome result (λ v. is_left v.1 self.now.bytes ≡ true) }
        ensures some { IfSome result (λ v. 0 < self.now.quota) }
        ensures next { NextIs (sent_by self.now result).0 self.now (sent_by self.now result).1 }
    {
        if self.quota == 0 {
            return None;
        }
        self.send()
    }

    /// Whether a mail is left to send: exactly where [`next_mail`](CoeClient::next_mail) gives one.
    pub fn has_next(&self) -> bool
        ensures { result ≡ false ↔ (later self.now [] ≡ []) }
    {
        match self.next_message() {
            Some(_) => true,
            None => false,
        }
    }

    /// Puts the body of the next mail in place of what `body` has. `false` where the client awaits an answer, or has no mail left; then
    /// nothing changed. The body fits the mailbox that requests go through.
    pub fn next_mail(&mut self, body: &mut ArrayVec<u8, 1480>) -> bool
        ensures sends { OnTrue result (SendsNext self.old body.new.items self.new) }
        ensures fits { OnTrue result (length body.new.items + 6 ≤ self.old.room) }
        ensures waits { OnFalse result (later self.old [] ≡ []) }
        ensures same { OnFalse result ((self.new ≡ self.old) × (body.new ≡ body.old)) }
        ensures replies { (ms : List CoeMail) → awaited self.new ms ≡ awaited self.old ms }
    {
        let behind = match self.next_message() {
            Some((message, behind)) => {
                coe_codec::write_view(message, body);
                behind
            }
            None => return false,
        };
        self.unsent = behind;
        self.quota -= 1;
        true
    }
}
