ghost use Rattle.std.specs.Prelude.{◌≡◌, ◌≤◌, ◌+◌, true};
ghost use Rattle.mailbox_slave.specs.Exact.{slave_served};
ghost use Rattle.mailbox_slave.specs.Registers.{in_len};
ghost use Rattle.slave_node.specs.Node.{IsSteady};
ghost use Rattle.slave_node.specs.Step.{status_word, looked, al_behind, word_behind, pdi_step};

use al_state::Al;
use esc_registers::Esc;
use mailbox_slave::{Server, SlaveBox};

/// Services that can be made anew.
pub trait Clear: Server {
    ghost use Rattle.std.specs.Prelude.{◌≡◌};

    ghost cleared: { Self → Self };

    /// Forgets mails and transfers. What the services acted on stays.
    fn clear(&mut self)
        ensures cleared { self.new ≡ cleared self.old }
        ensures room { Self.room self.new ≡ Self.room self.old };
}

// The AL status word of a state.
fn status_of(al: &Al) -> u16
    ensures { result ≡ status_word al.now }
{
    let flag = if al.error == 0 { 0 } else { 16 };
    al.state as u16 + flag
}

// Steps 1 and 2: what was read of mailbox 1, and the repeat request.
fn look(esc: &mut Esc, slave_box: &mut SlaveBox, al: &Al)
    requires { IsSteady esc.old slave_box.old al.now }
    ensures exact { record { kept = slave_box.new; registers = esc.new } ≡ looked al.now slave_box.old esc.old }
    ensures steady { IsSteady esc.new slave_box.new al.now }
    ensures len { in_len esc.new ≡ in_len esc.old }
{
    let _al = al.state;
    slave_box.look(esc);
}

// Step 3: an unhandled control word is carried out. `true` exactly where there was one.
fn carry_word(esc: &mut Esc, al: &mut Al, boot: bool) -> bool
    ensures asked { result ≡ esc.old.unhandled }
    ensures al { al.new ≡ al_behind boot esc.old al.old }
    ensures registers { esc.new ≡ word_behind boot esc.old al.old }
{
    let areas = esc.areas_right();
    let Some(word) = esc.al_request() else {
        return false;
    };
    al_state::request(al, word, boot, areas);
    esc.set_al(status_of(al), al.error);
    true
}

/// A step of a slave's processor: it sees what was read of mailbox 1 and answers a repeat request, carries out an AL control word (ETG.1000.6,
/// table 11), takes a mail from mailbox 0 and offers one in mailbox 1. In Init it takes and offers none, and a word that leads there makes box
/// and services anew.
pub fn step<S: Clear>(
    esc: &mut Esc,
    slave_box: &mut SlaveBox,
    al: &mut Al,
    boot: bool,
    server: &mut S,
)
    requires ready { S.ready server.old }
    requires room { S.room server.old + 6 ≤ in_len esc.old }
    requires steady { IsSteady esc.old slave_box.old al.old }
    ensures exact { record { registers = esc.new; kept = slave_box.new; al = al.new; boot = boot; server = server.new } ≡ pdi_step S.taken S.next_mail S.rest S.cleared (record { registers = esc.old; kept = slave_box.old; al = al.old; boot = boot; server = server.old }) }
    ensures steady { IsSteady esc.new slave_box.new al.new }
    ensures room { S.room server.new ≡ S.room server.old }
    ensures len { in_len esc.new ≡ in_len esc.old }
{
    look(esc, slave_box, al);
    let asked = carry_word(esc, al, boot);
    if al.state != al_state::INIT {
        slave_box.serve(esc, server, al.state);
    } else if asked {
        esc.acknowledge();
        *slave_box = SlaveBox::new();
        server.clear();
    }
}
