ghost use Rattle.std.specs.Prelude.{◌≡◌, ◌≢◌, ℕ, List, IfOk};
ghost use Rattle.ec_outside.specs.Faults.{Rose};
ghost use Rattle.ecmbx_words.specs.declared.status.Status.TheVariants as statuses;
ghost use Rattle.people_words.specs.declared.ended.Ended.TheVariants as ends;
ghost use Rattle.people_words.specs.Ended.{Told};
ghost use Rattle.entry_call.specs.Ends.{IsAmong};

use ec_fields::{NoMemory, Octets};
use ec_outside::Sink;
use ecmbx_words::Status;
use people_words::{Ended, tell};

/// Puts a text, where there was memory for it.
pub(crate) fn put<O: Sink>(out: &mut O, planned: Ended, text: Result<Octets, NoMemory>) -> Ended
    requires { planned ≢ ends.As statuses.SinkFault }
    ensures put { (wanted : List ℕ) → IfOk text (λ octets. octets ≡ wanted) → Told planned wanted (O.written out.old) (O.written out.new) result }
    ensures among { IsAmong planned result }
    ensures sink { result ≡ ends.As statuses.SinkFault → Rose (O.sink_faults out.old) (O.sink_faults out.new) }
{
    match text {
        Ok(text) => tell(out, planned, text.bytes()),
        Err(NoMemory) => Ended::As(Status::NoMemory),
    }
}
