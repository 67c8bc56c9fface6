ghost use Rattle.std.specs.Prelude.{◌≡◌, ◌≢◌, ◌<◌, [], true, false, IfOk, OnOk};
ghost use Rattle.run_record.specs.of_segment_plan.Sound.{IsPlan};
ghost use Rattle.run_record.specs.of_run_book.Book.{IsNew};
ghost use Rattle.run_record.specs.of_run_book.declared.book.Ending.TheVariants as endings;
ghost use Rattle.run_record.specs.Served.{ServingRests};
ghost use Rattle.run_record.specs.Session.{session_rows, are_at_rest};
ghost use Rattle.run_record.specs.Ran.{HasSent, EndsSo};
ghost use Rattle.gateway_run.specs.Goes.{GoesOn, LeavesSpent};
ghost use Rattle.gateway_run.specs.Serving.{can_hear, told};
ghost use Rattle.gateway_run.specs.Served.{IsServedOver};

use crate::stop::Stop;
use crate::turn::Serving;
use ec_fields::NoMemory;
use ec_outside::Port;
use run_book::{Book, Ending};
use run_record::Session;
use segment_plan::Scenario;
use std::alloc::Global;

// How a serving ends at which nothing is left to do.
fn ending_of(session: &Session) -> Ending
    requires { are_at_rest (session_rows session.now) ≡ true }
    ensures ends { EndsSo session.now result }
    ensures whole { result ≢ endings.BudgetSpent }
{
    if session.gave_up() {
        Ending::GivenUp
    } else {
        Ending::Done
    }
}

// Turn follows turn until nothing more can be heard and the segment is settled.
fn turns<P: Port>(
    alloc: Global,
    serving: &mut Serving,
    port: &mut P,
    book: &mut Book,
) -> Result<Ending, Stop>
    requires { serving.old.desk.outbox.items ≡ [] }
    ensures goes { GoesOn P.heard P.sent P.over P.port_faults port.old port.new serving.old serving.new book.old book.new result }
    ensures ends { IfOk result (EndsSo serving.new.session) }
    ensures whole { IfOk result (λ ending. ending ≢ endings.BudgetSpent → can_hear serving.new book.new ≡ false) }
    ensures rests { IfOk result (λ ending. ending ≢ endings.BudgetSpent → ServingRests serving.new.session) }
    ensures left { LeavesSpent (told P.heard P.sent P.over P.port_faults port.old) serving.old serving.new book.old result }
    ensures empty { OnOk result (serving.new.desk.outbox.items ≡ []) }
{
    let mut settled = serving.session.settled();
    while !settled || serving.can_hear(book) {
        if !serving.turn(alloc, settled, port, book)? {
            return Ok(Ending::BudgetSpent);
        }
        settled = serving.session.settled();
    }
    Ok(ending_of(&serving.session))
}

fn serve_through<P: Port>(
    alloc: Global,
    plan: &Scenario,
    count: u32,
    port: &mut P,
    book: &mut Book,
) -> Result<Ending, NoMemory>
    requires plan { IsPlan plan.now }
    requires new { IsNew book.old }
    requires some { 0 < count }
    ensures frames { HasSent plan.now count book.new }
    ensures served { IfOk result (IsServedOver P.heard P.sent P.over P.port_faults plan.now count port.old port.new book.new) }
    ensures ending { IfOk result (λ ending. book.new.ending ≡ ending) }
{
    let mut serving = Serving::begin(alloc, plan, count)?;
    match turns(alloc, &mut serving, port, book) {
        Ok(ending) => Ok(serving.session.finish(ending, book)),
        Err(Stop::PortFault) => Ok(serving.session.finish(Ending::PortFault, book)),
        Err(Stop::NoMemory) => Err(NoMemory),
    }
}

/// Serves a plan: brings its segment up, hears datagrams until so many came or the port ended, passes their mails on to the slaves and sends
/// the replies to who asked. Before each frame at which no request is unfinished and more can be heard it waits for a datagram: where one is heard
/// no frame is sent before the first, and where none is, none unless the port has ended behind the call. The book then has the frames, what
/// became of each slave, and the datagrams heard and sent; after `NoMemory` the frames until then.
///
/// What it has of the slaves and of the switch is just what the lives of the slaves have that its frames lead: of each the services of its script that
/// came into hand, with what they came to, and those that weren't sent, its epochs, emergencies and packets; and the events of the switch, each with
/// its number.
///
/// `Done` and `GivenUp` come only where so many datagrams were heard or the port ended, and nothing was left to do; `BudgetSpent` where as
/// many frames were sent as the budget allows and something was left to do; `PortFault` only where the port's count of faults rose. Then the last
/// datagram of the book was sent or not, and those that were not yet sent stand nowhere. These are no more than the datagrams heard since the last
/// frame made owed; or, with that last one, no more than came last: what the datagrams heard since the last frame made owed, or where there are none
/// what that frame did, with the datagrams heard since the one before.
pub fn serve<P: Port>(
    alloc: Global,
    plan: &Scenario,
    count: u32,
    port: &mut P,
    book: &mut Book,
) -> Ending
    requires plan { IsPlan plan.now }
    requires new { IsNew book.old }
    requires some { 0 < count }
    ensures frames { HasSent plan.now count book.new }
    ensures served { IsServedOver P.heard P.sent P.over P.port_faults plan.now count port.old port.new book.new result }
    ensures ending { book.new.ending ≡ result }
{
    match serve_through(alloc, plan, count, port, book) {
        Ok(ending) => ending,
        Err(NoMemory) => {
            book.ending = Ending::NoMemory;
            Ending::NoMemory
        }
    }
}
