ghost use Rattle.std.specs.Prelude.{◌≡◌, ◌≤◌, ◌<◌, ◌+◌, IfOk, suc};
ghost use Rattle.slave_node.specs.Node.{new_node, node_passed, is_settled};
ghost use Rattle.slave_node.specs.Step.{pdi_step};

use crate::slave_steps::Clear;
use al_state::Al;
use datagrams::FrameBuf;
use ec_fields::NoMemory;
use esc_registers::Esc;
use mailbox_slave::{Server, SlaveBox};
use segment_ring::Slave;
use std::alloc::Global;
use std::marker::Model;

/// The services of one slave, which count those that they carried out.
pub trait Services: Clear + Drop {
    ghost use Rattle.std.specs.Prelude.{◌≡◌, ◌≤◌, ◌<◌, ℕ, suc};
    ghost use Rattle.mailbox_slave.specs.of_link_mails.Body.{Body};

    ghost handled: { Self → ℕ };

    /// How many services were carried out.
    fn handled(&self) -> u64
        ensures { result ≡ handled self.now };

    ghost may_take: { (s : Self) → handled s < 18446744073709551615 → Self.ready s };

    ghost counts_one: { (s : Self) (b : Body) (al : ℕ) → handled (Self.taken s b al) ≤ suc (handled s) };

    ghost rest_counts: { (s : Self) → handled (Self.rest s) ≡ handled s };

    ghost clear_counts: { (s : Self) → handled (Self.cleared s) ≡ handled s };
}

/// One slave. A master sees of it what the frames bring back that pass it; its mails it takes and offers in its processor's steps.
#[derive(Drop)]
pub struct SlaveNode<S: Services> {
    esc: Esc,
    slave_box: SlaveBox,
    al: Al,
    boot: bool,
    server: S,
}

impl<S: Services> Model for SlaveNode<S> {
    ghost use Rattle.std.specs.Prelude.{◌+◌, ◌≤◌};
    ghost use Rattle.mailbox_slave.specs.Registers.{in_len};
    ghost use Rattle.slave_node.specs.Node.{Node, IsSteady};

    ghost Value = { Node S };

    ghost view = { λ n. record { registers = n.esc; kept = n.slave_box; al = n.al; boot = n.boot; server = n.server } };

    ghost invariant = { λ n. (S.room n.server + 6 ≤ in_len n.esc) × IsSteady n.esc n.slave_box n.al };
}

impl<S: Services> SlaveNode<S> {
    /// A slave as it is switched on, in Init, with mailboxes of these lengths and these services behind them; `boot` says whether it has the
    /// state Bootstrap. It takes all the memory that its steps fill.
    pub fn new(
        alloc: Global,
        out_len: u16,
        in_len: u16,
        boot: bool,
        server: S,
    ) -> Result<SlaveNode<S>, NoMemory>
        requires { S.room server + 6 ≤ in_len }
        ensures { IfOk result (λ n. n ≡ new_node out_len in_len boot server) }
    {
        let esc = Esc::new(alloc, out_len, in_len)?;
        Ok(SlaveNode {
            esc,
            slave_box: SlaveBox::new(),
            al: Al {
                state: al_state::INIT,
                error: 0,
            },
            boot,
            server,
        })
    }

    /// A frame passes the slave (ETG.1000.4, 5.4): its datagrams are carried out in order, in place. What isn't a frame goes on as it came.
    pub fn pass(&mut self, frame: &mut FrameBuf)
        ensures { (self.new, frame.new.items) ≡ node_passed self.old frame.old.items }
    {
        crate::frame_pass::pass(&mut self.esc, frame);
    }

    /// A step of the slave's processor: it sees what was read of mailbox 1 and answers a repeat request, carries out an AL control word, takes a
    /// mail and offers one. In Init it takes and offers none, and a word that leads there makes box and services anew. No step takes memory.
    pub fn pdi(&mut self)
        requires { S.handled self.old.server < 18446744073709551615 }
        ensures { self.new ≡ pdi_step S.taken S.next_mail S.rest S.cleared self.old }
    {
        crate::slave_steps::step(
            &mut self.esc,
            &mut self.slave_box,
            &mut self.al,
            self.boot,
            &mut self.server,
        );
    }

    /// Whether nothing is left to do: mailbox 0 is empty, no AL control word is unhandled, no mail waits to be offered, and none is offered or
    /// withdrawn.
    pub fn settled(&self) -> bool
        ensures { result ≡ is_settled S.next_mail self.now }
    {
        // A field is named so that the proof has what holds of the fields.
        let _ = &self.boot;
        self.esc.out_area().is_none()
            && !self.esc.is_asked()
            && !self.server.waiting()
            && self.slave_box.at_rest()
    }

    /// How many mailbox services were carried out.
    pub fn handled(&self) -> u64
        ensures { result ≡ S.handled self.now.server }
    {
        // A field is named so that the proof has what holds of the fields.
        let _ = &self.boot;
        self.server.handled()
    }

    /// The AL state: 1 Init, 2 PreOp, 3 Bootstrap, 4 SafeOp, 8 Op.
    pub fn al(&self) -> u8
        ensures { result ≡ self.now.al.state }
    {
        // A field is named so that the proof has what holds of the fields.
        let _ = &self.boot;
        self.al.state
    }

    /// The services behind its mailboxes.
    pub fn server(&self) -> &S
        ensures { result.now ≡ self.now.server }
    {
        // A field is named so that the proof has what holds of the fields.
        let _ = &self.boot;
        &self.server
    }
}

impl<S: Services> Slave for SlaveNode<S> {
    ghost use Rattle.slave_node.specs.Node.{node_passed};
    ghost use Rattle.slave_node.specs.Step.{pdi_step};

    ghost passed = { node_passed };

    ghost stepped = { pdi_step S.taken S.next_mail S.rest S.cleared };

    ghost handled = { λ n. S.handled n.server };

    fn pass(&mut self, frame: &mut FrameBuf) {
        SlaveNode::pass(self, frame);
    }

    fn step(&mut self) {
        self.pdi();
    }
}
