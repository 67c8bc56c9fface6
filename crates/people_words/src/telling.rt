ghost use Rattle.std.specs.Prelude.{◌≡◌, ◌≢◌};
ghost use Rattle.ec_outside.specs.Faults.{Rose};
ghost use Rattle.ecmbx_words.specs.declared.status.Status.TheVariants as statuses;
ghost use Rattle.people_words.specs.declared.ended.Ended.TheVariants as ends;
ghost use Rattle.people_words.specs.Ended.{Told};

use crate::ended::Ended;
use ec_outside::Sink;
use ecmbx_words::{Status, say_text};

/// Puts a text line by line, and answers the planned end where the sink took it whole.
pub fn tell<O: Sink>(out: &mut O, planned: Ended, text: &[u8]) -> Ended
    requires { planned ≢ ends.As statuses.SinkFault }
    ensures put { Told planned text.now (O.written out.old) (O.written out.new) result }
    ensures cause { result ≡ ends.As statuses.SinkFault → Rose (O.sink_faults out.old) (O.sink_faults out.new) }
{
    match planned {
        Ended::As(status) => Ended::As(say_text(out, status, text)),
        Ended::ServiceRefused => match say_text(out, Status::Done, text) {
            Status::Done => Ended::ServiceRefused,
            other => Ended::As(other),
        },
    }
}
