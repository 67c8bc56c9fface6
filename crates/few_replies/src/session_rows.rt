//! What a session says of its rows at each moment, beyond what it promises. Definitions and laws, no running code.

ghost use Rattle.slave_parts.specs.of_exchange_model.Rows.{Row};
ghost use Rattle.slave_parts.specs.of_life_model.Eras.{OpenEra};
ghost use Rattle.few_replies.specs.Drained.{DrainedDuty, AllMailsDone};
ghost use Rattle.few_replies.specs.Newest.{IsNewestOver, IsWholeRow};

/// Where a state service has drained, its slave has carried out all services by mails that began before it: so an epoch that such a service ends is
/// drained.
pub fn drained_law<V, A, M, Q, R>()
    ensures { (w : OpenEra V A M Q R) → DrainedDuty w → AllMailsDone w }
{}

/// The newest service, where it goes by mails and is over, is whole: all its mails were told and all its replies heard in its row. So it is of a mail
/// that is passed on, whose replies are those of the server's step.
pub fn row_law<V, A, M, Q, R>()
    ensures { (w : OpenEra V A M Q R) (r : Row M Q R) → IsNewestOver w r → IsWholeRow w r }
{}
