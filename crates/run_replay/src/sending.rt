use crate::gram::{FrameView, Gram, Spot};
use crate::tracker::Tracker;
use datagrams::read;
use ec_fields::{NoMemory, Rows};
use run_book::SentFrame;
use std::alloc::Global;

/// A frame that was sent, and what became of it.
#[derive(Clone, Copy)]
pub struct Sending<'a> {
    pub sent: FrameView<'a>,
    /// What came back, `None` where the frame was lost.
    pub back: Option<FrameView<'a>>,
    /// Whether the slaves that it carried are given up by it.
    pub gives_up: bool,
    /// How often a slave that is given up is opened anew.
    pub recover: u32,
    /// How many frames were sent before it.
    pub number: u64,
    /// The frames from this one on.
    pub rows: &'a [SentFrame],
}

// The datagram for a slave of a frame that is sent.
fn sent_gram(octets: &[u8], spot: &Spot) -> Option<Gram> {
    let Ok(frame) = read(octets) else {
        return None;
    };
    let sent = FrameView {
        octets,
        parts: frame.parts.as_slice(),
    };
    match sent.find(spot) {
        Some(at) => sent.gram(at),
        None => None,
    }
}

// Whether the next frame that carries a slave returns it to Init.
fn is_returned_next(rows: &[SentFrame], spot: &Spot) -> bool {
    for row in rows.iter().skip(1) {
        if let Some(gram) = sent_gram(row.sent.bytes(), spot) {
            return gram.returns_to_init();
        }
    }
    false
}

impl Sending<'_> {
    // A slave behind the frame, of which this datagram came back.
    fn returned(&self, slave: &mut Tracker, gram: &Gram) {
        let returns = slave.is_drained_by(gram) && is_returned_next(self.rows, &slave.spot);
        slave.returned(gram, returns);
    }

    // A slave behind the frame, which has a datagram for it at this place.
    fn carries(&self, slave: &mut Tracker, at: usize) {
        let Some(gram) = self.sent.gram(at) else {
            return;
        };
        slave.sends(&gram);
        if let Some(back) = &self.back {
            if let Some(gram) = back.gram(at) {
                self.returned(slave, &gram);
            }
            return;
        }
        slave.loses(&gram);
        if self.gives_up {
            slave.gives_up(self.recover);
        }
    }

    // A slave behind the frame.
    fn behind(&self, slave: &Tracker) -> Tracker {
        let mut next = *slave;
        if let Some(at) = self.sent.find(&slave.spot) {
            self.carries(&mut next, at);
        }
        next.ticks(slave, self.number);
        next
    }

    /// The slaves behind the frame.
    pub fn all_behind(&self, alloc: Global, slaves: &[Tracker]) -> Result<Rows<Tracker>, NoMemory> {
        let mut next = Rows::new(alloc);
        for slave in slaves {
            next.add(self.behind(slave))?;
        }
        Ok(next)
    }

    /// The place of the slave that it carries last.
    pub fn last_carried(&self, slaves: &[Tracker]) -> Option<usize> {
        let mut most = 0;
        let mut last = None;
        for (place, slave) in slaves.iter().enumerate() {
            match self.sent.find(&slave.spot) {
                Some(at) if at >= most => {
                    most = at;
                    last = Some(place);
                }
                _ => {}
            }
        }
        last
    }
}
