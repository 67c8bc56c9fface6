//! The newest service of an open slave: when it is over, and that it isn't over sooner than its mails were taken. Definitions and laws, no running code: the
//! functions here do nothing, and their contracts state the laws.

ghost use Rattle.slave_model.specs.Answered.{AnsweredIsTold, NothingIsFree, NothingUnheard, NothingFrees, BegunIsHeld, StateWasFree};

/// A SERVICE BY MAILS THAT HAS ITS ANSWER, but for one that ends with an acknowledgement, was told whole, and each of its mails was sent.
pub fn answered_law<V, A, M, Q, R>()
    ensures { AnsweredIsTold V A M Q R }
{}

/// WHERE NOTHING IS LEFT of a slave, its newest service is over, if no client waits in vain.
pub fn free_law<V, A, M, Q, R>()
    ensures { NothingIsFree V A M Q R }
{}

/// AND WHERE THAT IS BY MAILS, and the newest of all, all its replies were heard.
pub fn heard_law<V, A, M, Q, R>()
    ensures { NothingUnheard V A M Q R }
{}

/// NO SERVICE BECOMES OVER BY A VISIT THAT BROUGHT NOTHING, with its mail still held: where a state service might begin behind it, it might have begun before;
/// and behind a visit with which a service by mails came into hand none may.
pub fn ready_law<V, A, M, Q, R>()
    ensures before { NothingFrees V A M Q R }
    ensures begun { BegunIsHeld M Q R }
    // A state service that comes into hand might.
    ensures state { StateWasFree M Q R }
{}
