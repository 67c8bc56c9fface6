//! What comes next of an open slave is due: it replies to nothing, or to the service in hand, with nothing left to tell before it. A definition and a law, no
//! running code: the function here does nothing, and its contract states the law.

ghost use Rattle.plan_ring.specs.Brings.{BringsDue};
ghost use Rattle.slave_server.specs.of_slave_model.Hears.{HearsFirst};
ghost use Rattle.whole_ring.specs.of_life_model.Eras.{OpenEra};

/// EACH MAIL THAT A FRAME MORE BRINGS OF AN OPEN EPOCH IS DUE, where the client hears first.
pub fn due_law<V, A, M, Q, R>()
    ensures { (w : OpenEra V A M Q R) → HearsFirst w.exchange → BringsDue w.exchange.speech w.spot.station w.era.side w.era.account w.slave }
{}
