ghost use Rattle.std.specs.Prelude.{◌≡◌, ◌≤◌, [], None, length};
ghost use Rattle.gateway_tool.specs.Rule.{Call};
ghost use Rattle.gateway_tool.specs.Told.{Told, told};
ghost use Rattle.gateway_tool.specs.Client.{left, awaits};
ghost use Rattle.gateway_tool.specs.Talk.{Goes, GoesSo, Rests, Replies, Stops};

use crate::talk::Talk;
use ec_outside::{Port, PortErr};

/// As many datagrams are passed over in a row, and as many are taken, at most.
const MOST: u32 = 65_536;

impl Talk {
    /// Mails go and datagrams are heard until the reply is complete; `false` where it doesn't come.
    pub fn go_on<P: Port>(&mut self, port: &mut P) -> Result<bool, PortErr>
        requires few { length (left self.old.client []) ≤ 1 }
        requires waits { awaits self.old.client [] ≡ None }
        requires fresh { self.old.passed ≡ 0 }
        ensures goes { (c : Call) (first : Told) → Goes c first (told P.heard P.sent P.over P.port_faults port.old) self.old → GoesSo c first (told P.heard P.sent P.over P.port_faults port.new) self.new result }
        ensures few { length (left self.new.client []) ≤ 1 }
        ensures rests { Rests self.new result }
        ensures replies { Replies self.new.client result }
        ensures stops { Stops self.new (P.over port.old) (P.over port.new) result }
    {
        while self.passed < MOST && self.taken < MOST {
            self.send(port)?;
            if !self.wait(port)? {
                return Ok(false);
            }
            if self.take() {
                self.acknowledge(port)?;
                return Ok(true);
            }
        }
        Ok(false)
    }
}
