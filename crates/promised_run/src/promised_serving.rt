//! A serving of a plan that was read, with what it promises of each slave.

ghost use Rattle.std.specs.Prelude.{◌≡◌, ◌<◌};
ghost use Rattle.run_promises.specs.of_segment_plan.Sound.{IsPlan};
ghost use Rattle.run_promises.specs.of_scenario.Told.{IsTold};
ghost use Rattle.gateway_run.specs.of_run_book.Book.{IsNew};
ghost use Rattle.gateway_run.specs.of_run_record.Ran.{HasSent};
ghost use Rattle.gateway_run.specs.Serving.{told};
ghost use Rattle.gateway_run.specs.Served.{IsServed};
ghost use Rattle.promised_run.specs.ServedBooks.{IsServedBooked};
ghost use Rattle.promised_run.specs.ServedBounded.{IsServedBounded};
ghost use Rattle.promised_run.specs.ServedPorts.{IsServedAtPorts};
ghost use Rattle.promised_run.specs.Due.{IsServedDue};
ghost use Rattle.promised_run.specs.Given.{IsServedGiven};
ghost use Rattle.promised_run.specs.Left.{IsServedLeft};
ghost use Rattle.promised_run.specs.Rested.{IsServedRested};
ghost use Rattle.promised_run.specs.SentWhole.{IsServedSentWhole};
ghost use Rattle.promised_run.specs.ServedReported.{IsServedReported};
ghost use Rattle.promised_run.specs.Through.{IsServedThrough, IsServedWhole};
ghost use Rattle.promised_run.specs.Visits.{IsServedVisited};
ghost use Rattle.promised_run.specs.Written.{IsServedWritten};

use crate::fewer_servings::fewer_law;
use ec_outside::Port;
use life_runs::served_runs::{asked_law, opened_law, told_law};
use plan_ring::plan_rooms::room_law;
use run_book::{Book, Ending};
use run_promises::accepted_mails::accepted_law;
use run_promises::whole_packets::whole_packets_law;
use seen_slaves::served_waits::served_due_law;
use segment_plan::Scenario;
use served_rings::given_rows::given_law;
use served_rings::heard_stays::heard_stays;
use served_rings::served_replies::served_replies_law;
use served_rings::served_rests::served_rests_law;
use served_rings::told_eras::told_eras_law;
use std::alloc::Global;

/// Serves a plan that was read, as `gateway_run` does. At each moment, whatever frames are lost, each slave has carried out in each epoch just the first of the
/// rows that came into hand of it, a request's mail by the one step that its server takes for it; and the replies that were heard for the mail in hand are the
/// first of that step's, in order, and all of them where it is over. What is told of it are the first of those that were heard, and behind the frame by which
/// it is over all of them. Each answer of a service of the script is its server's own, of a row carried out; and the emergencies and packets that were heard
/// are the first that these rows emit. Each service of the script that came into hand has just the reply, or the outcome, that the frames of its epoch give, of
/// the frame that completed it, and none where they give none. Each mail that is over or has a reply is carried out; of two rows of an epoch that aren't, the
/// older is a packet. As each epoch ended its slave held what was carried out of it; and one that was given up for good while it was open has the AL state of
/// what was carried out.
///
/// Behind all frames each datagram that was queued at a slave got nothing while its mail waits, error 5 where that never came into hand, and else the first
/// mails of the one step that its slave's server takes for it, all of them where it is done. Unless memory runs out the book has besides just what the lives
/// have that its frames lead: of each slave the services of its script that came into hand, with what they came to, and those that weren't sent; its epochs,
/// each with its cause in its life, which says the AL state that it opens; its emergencies and its packets, numbered, each handed on with the frame with whose
/// return its last fragment was written, or in doubt; and the events of the switch, each with its number. At the port of each slave that has one just those
/// packets came in that the mails which its life accepted complete, in order, each whole; it went down once where the slave was given up for good, and never
/// else; as many packets began there as came into hand of the slave, the first of those that were forwarded there, in order, and none behind its going down.
/// Each of these has its exact number, and no packet waits there behind the events numbered up to the frame of a row of the script or of a mail that was passed
/// on.
///
/// What the rows carried out in an epoch emit are, but for emergencies, all fragments of packets of 14 to 1,514 octets, in order, also where a mail that was
/// passed on makes the slave send one. The packets that came in at its port are, epoch by epoch, the first of these, each whole as it was sent; no fragment is
/// dropped.
///
/// Where nothing was left to do, each slave that wasn't given up for good wasn't given up since its newest epoch began; of it the whole script came into hand,
/// with mails that were asked, in order, all of them where it was never given up; all rows of its newest epoch are carried out, its own services each answered,
/// and nothing waits. What an earlier epoch left undone when it was cut off stays so. Where its budget was spent something was left to do. Each mail that was
/// accepted of a slave was due.
///
/// Each frame is addressed, datagram by datagram, to the stations of its visit of the ring, as a run's: just those of the lost frame before it, by which nobody
/// was given up; else the one whose first bring-up goes on; else the first live ones of a round, and a slave is left out only where the lengths are together
/// above 1,486.
///
/// The frames of a serving of which no datagram asks for a download to 2F01:01 are fewer than the bound for so many datagrams, so a budget of as many never cuts
/// it off. Where no more frames in a row are lost than the retry limit no slave is given up, and such a serving with that budget ends as done, unless its port fails or memory
/// runs out.
pub fn serve<P: Port>(
    alloc: Global,
    plan: &Scenario,
    count: u32,
    port: &mut P,
    book: &mut Book,
) -> Ending
    requires plan { IsPlan plan.now }
    requires told { IsTold plan.now }
    requires new { IsNew book.old }
    requires some { 0 < count }
    ensures frames { HasSent plan.now count book.new }
    ensures served { IsServed plan.now count (told P.heard P.sent P.over P.port_faults port.old) (told P.heard P.sent P.over P.port_faults port.new) book.new result }
    ensures through { IsServedThrough plan.now book.new }
    ensures whole { IsServedWhole plan.now book.new }
    ensures ports { IsServedAtPorts plan.now count book.new }
    ensures sends { IsServedSentWhole plan.now count book.new }
    ensures visits { IsServedVisited plan.now count book.new }
    ensures given { IsServedGiven plan.now count book.new }
    ensures booked { IsServedBooked plan.now count book.new }
    ensures due { IsServedDue plan.now count book.new }
    ensures written { IsServedWritten plan.now count book.new }
    ensures replied { IsServedReported plan.now count book.new }
    ensures rests { IsServedRested plan.now count book.new }
    ensures left { IsServedLeft plan.now count book.new }
    ensures bounded { IsServedBounded plan.now count book.new }
    ensures ending { book.new.ending ≡ result }
{
    served_replies_law();
    served_rests_law();
    heard_stays();
    given_law();
    told_eras_law();
    whole_packets_law();
    accepted_law();
    asked_law();
    told_law();
    opened_law();
    room_law();
    served_due_law();
    fewer_law();
    gateway_run::serve(alloc, plan, count, port, book)
}
