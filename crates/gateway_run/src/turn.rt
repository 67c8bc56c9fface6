ghost use Rattle.std.specs.Prelude.{◌≡◌, ◌≢◌, ◌<◌, ◌≤◌, [], true, false, IfOk, OnOk};
ghost use Rattle.std.specs.Bool.{OnTrue, OnFalse};
ghost use Rattle.gateway_core.specs.of_ec_outside.declared.port.Heard.TheVariants as heards;
ghost use Rattle.run_record.specs.of_master_node.Happened.{HasHappened};
ghost use Rattle.run_record.specs.of_master_node.Ports.{ports_of};
ghost use Rattle.run_record.specs.of_segment_plan.Sound.{IsPlan};
ghost use Rattle.run_record.specs.Served.{ServingBegins};
ghost use Rattle.run_record.specs.Session.{first_session};
ghost use Rattle.gateway_run.specs.Desk.{HasNone, SameLive, StaysBusy};
ghost use Rattle.gateway_run.specs.Goes.{GoesOn, GoesOnIf, HasRoom, HearsOn, HearsOnIf, LeavesIf, MaySend, MayStep, MayTurn, StepsIf, TakesHeard};
ghost use Rattle.gateway_run.specs.Serving.{told, SendsOne, LivesUnless, EmptyWhere, left, can_hear};

use crate::desk::Desk;
use crate::stop::Stop;
use ec_fields::NoMemory;
use ec_outside::{Gram, Heard, Port};
use run_book::{Book, GramOut};
use run_record::Session;
use segment_plan::Scenario;
use std::alloc::Global;

/// A serving of a plan.
#[derive(Drop)]
pub struct Serving {
    pub session: Session,
    pub desk: Desk,
    /// How many datagrams it is to hear.
    pub count: u32,
    /// The port answered that no datagram will come any more.
    pub over: bool,
    /// What was heard last.
    pub gram: Gram,
}

// A datagram is sent, and stands in the book, also where the port failed.
fn send_one<P: Port>(reply: GramOut, port: &mut P, book: &mut Book) -> Result<(), Stop>
    ensures { SendsOne reply (told P.heard P.sent P.over P.port_faults port.old) (told P.heard P.sent P.over P.port_faults port.new) book.old book.new result }
{
    let sent = port.send(reply.peer, reply.bytes.bytes());
    book.replies.add(reply)?;
    sent?;
    Ok(())
}

impl Serving {
    /// A serving of the plan before its first frame, that is to hear so many datagrams.
    pub fn begin(alloc: Global, plan: &Scenario, count: u32) -> Result<Serving, NoMemory>
        requires { IsPlan plan.now }
        ensures session { IfOk result (λ v. v.session ≡ first_session plan.now count v.session.master) }
        ensures serves { IfOk result (λ v. ServingBegins plan.now v.session) }
        ensures switch { IfOk result (λ v. HasHappened (ports_of plan.now.slaves) plan.now.host [] v.session.master.lan) }
        ensures requests { IfOk result (λ v. HasNone v.desk) }
        ensures outbox { IfOk result (λ v. v.desk.outbox.items ≡ []) }
        ensures count { IfOk result (λ v. v.count ≡ count) }
        ensures over { IfOk result (λ v. v.over ≡ false) }
    {
        Ok(Serving {
            session: Session::begin(alloc, plan, count)?,
            desk: Desk::new(alloc),
            count,
            over: false,
            gram: Gram::new(),
        })
    }

    /// Whether more can be heard.
    pub fn can_hear(&self, book: &Book) -> bool
        ensures { result ≡ can_hear self.now book.now }
    {
        !self.over && book.grams.len() < self.count as usize
    }

    // What a call of the port answered: a datagram is taken. Whether there was one.
    fn take(&mut self, alloc: Global, heard: Heard, book: &mut Book) -> Result<bool, Stop>
        requires { can_hear self.old book.old ≡ true }
        ensures goes { TakesHeard heard self.old self.new book.old book.new result }
        ensures live { SameLive self.old.session self.new.session }
        ensures busy { StaysBusy self.old.session self.new.session }
        ensures some { IfOk result (λ some. OnTrue some (left self.new book.new < left self.old book.old)) }
        ensures loud { OnOk result (heard ≢ heards.Quiet → left self.new book.new < left self.old book.old) }
        ensures most { OnOk result (left self.new book.new ≤ left self.old book.old) }
        ensures may { OnOk result ((heard ≡ heards.Quiet → MaySend self.old book.old) → MaySend self.new book.new) }
    {
        match heard {
            Heard::From(peer) => {
                let bytes = self.gram.as_slice();
                self.desk.take(alloc, &mut self.session, peer, bytes, book)?;
                Ok(true)
            }
            Heard::Quiet => Ok(false),
            Heard::Ended => {
                self.over = true;
                Ok(false)
            }
        }
    }

    // Waits for a datagram.
    fn wait<P: Port>(&mut self, alloc: Global, port: &mut P, book: &mut Book) -> Result<(), Stop>
        requires { can_hear self.old book.old ≡ true }
        ensures goes { HearsOnIf (HasRoom self.old) P.heard P.sent P.over P.port_faults port.old port.new self.old self.new book.old book.new result }
        ensures live { SameLive self.old.session self.new.session }
        ensures busy { StaysBusy self.old.session self.new.session }
        ensures less { OnOk result (left self.new book.new < left self.old book.old) }
        ensures may { OnOk result (MaySend self.new book.new) }
    {
        let heard = port.wait(&mut self.gram)?;
        self.take(alloc, heard, book)?;
        Ok(())
    }

    // Takes the datagrams that are there, while more can be heard and one more request may be unfinished.
    fn poll<P: Port>(&mut self, alloc: Global, port: &mut P, book: &mut Book) -> Result<(), Stop>
        ensures goes { HearsOn P.heard P.sent P.over P.port_faults port.old port.new self.old self.new book.old book.new result }
        ensures live { SameLive self.old.session self.new.session }
        ensures busy { StaysBusy self.old.session self.new.session }
        ensures most { OnOk result (left self.new book.new ≤ left self.old book.old) }
        ensures may { OnOk result (MaySend self.old book.old → MaySend self.new book.new) }
    {
        while self.can_hear(book) && !self.desk.is_full() {
            let heard = port.poll(&mut self.gram)?;
            if !self.take(alloc, heard, book)? {
                return Ok(());
            }
        }
        Ok(())
    }

    // Waits for a datagram where no request is unfinished, and takes those that are there. A segment that is settled has nothing else to do.
    fn hear<P: Port>(
        &mut self,
        alloc: Global,
        settled: bool,
        port: &mut P,
        book: &mut Book,
    ) -> Result<(), Stop>
        requires { OnTrue settled (can_hear self.old book.old ≡ true) }
        ensures goes { HearsOnIf (EmptyWhere settled self.old) P.heard P.sent P.over P.port_faults port.old port.new self.old self.new book.old book.new result }
        ensures live { SameLive self.old.session self.new.session }
        ensures busy { StaysBusy self.old.session self.new.session }
        ensures less { OnOk result (OnTrue settled (left self.new book.new < left self.old book.old)) }
        ensures most { OnOk result (left self.new book.new ≤ left self.old book.old) }
        ensures may { OnOk result (MaySend self.new book.new) }
    {
        if self.can_hear(book) && (settled || self.desk.is_empty()) {
            self.wait(alloc, port, book)?;
        }
        self.poll(alloc, port, book)
    }

    // Sends a frame, unless the segment rests; else `false` where the budget of frames is spent.
    fn frame(&mut self, alloc: Global, rests: bool, book: &mut Book) -> Result<bool, Stop>
        ensures goes { StepsIf (MayStep rests self.old book.old) self.old self.new book.old book.new result }
        ensures less { IfOk result (λ on. OnTrue on (OnFalse rests (left self.new book.new < left self.old book.old))) }
        ensures most { OnOk result (left self.new book.new ≤ left self.old book.old) }
        ensures spent { IfOk result (λ on. OnFalse on (self.new.session.ring.number ≡ self.new.session.budget)) }
        ensures left { IfOk result (λ on. LivesUnless rests self.old.session → LivesUnless on self.new.session) }
    {
        if rests {
            return Ok(true);
        }
        if self.session.spent() {
            return Ok(false);
        }
        self.session.step(alloc, book)?;
        self.desk.note_all(alloc, &self.session)?;
        Ok(true)
    }

    // Sends what is owed.
    fn send<P: Port>(&mut self, port: &mut P, book: &mut Book) -> Result<(), Stop>
        ensures goes { GoesOn P.heard P.sent P.over P.port_faults port.old port.new self.old self.new book.old book.new result }
        ensures same { OnOk result (left self.new book.new ≡ left self.old book.old) }
        ensures session { OnOk result (self.new.session ≡ self.old.session) }
        ensures empty { OnOk result (self.new.desk.outbox.items ≡ []) }
    {
        while let Some(reply) = self.desk.next_out() {
            send_one(reply, port, book)?;
        }
        Ok(())
    }

    /// One turn: it waits for a datagram where no request is unfinished, takes those that are there, sends one frame unless the segment is
    /// settled, and sends what is owed. `false` where the budget of frames is spent and something is left to do. `settled` says that the
    /// segment was settled before; then more can be heard.
    pub fn turn<P: Port>(
        &mut self,
        alloc: Global,
        settled: bool,
        port: &mut P,
        book: &mut Book,
    ) -> Result<bool, Stop>
        requires { OnTrue settled (can_hear self.old book.old ≡ true) }
        ensures goes { GoesOnIf (MayTurn settled self.old) P.heard P.sent P.over P.port_faults port.old port.new self.old self.new book.old book.new result }
        ensures less { IfOk result (λ on. OnTrue on (left self.new book.new < left self.old book.old)) }
        ensures spent { IfOk result (λ on. OnFalse on (self.new.session.ring.number ≡ self.new.session.budget)) }
        ensures left { LeavesIf (MayTurn settled self.old) (told P.heard P.sent P.over P.port_faults port.old) self.old self.new book.old result }
        ensures empty { OnOk result (self.new.desk.outbox.items ≡ []) }
    {
        self.hear(alloc, settled, port, book)?;
        let rests = settled && self.session.settled();
        let on = self.frame(alloc, rests, book)?;
        self.send(port, book)?;
        Ok(on)
    }
}
