/// How far the newest service of a slave has come.
#[derive(Clone, Copy)]
pub enum Course {
    /// No service came into hand yet.
    Nothing,
    /// Its reply isn't there yet, or it has none.
    Goes,
    /// Its reply is there.
    Answered,
    /// A part of its reply came while mails of its own were left: these are not sent any more, but its reply is still awaited.
    Mute,
    /// Its reply is there, but mails of its own were left then, or a mail followed that it does not await: nothing more is sent for it.
    Closed,
    /// A mail came that it does not await, behind which it can have no reply: nothing more is sent for it.
    Astray,
}
