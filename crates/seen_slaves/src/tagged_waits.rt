//! A client that never waits in vain and hears first, beside mails that are passed on, and from whatever server. Laws, no running code: the functions here do
//! nothing, and their contracts state the laws.

ghost use Rattle.idle_slaves.specs.of_exchange_model.Exchange.{Exchange};
ghost use Rattle.served_rings.specs.of_few_replies.Calm.{calm_tagged};
ghost use Rattle.idle_slaves.specs.of_slave_model.Hears.{HearsFirst};
ghost use Rattle.idle_slaves.specs.of_slave_model.Waits.{NeverWaits};
ghost use Rattle.served_rings.specs.of_serving_model.Tagged.{IsServed, tagged};
ghost use Rattle.idle_slaves.specs.of_slave_model.Profile.{Profile, IsProfile};
ghost use Rattle.idle_slaves.specs.of_slave_parts.Parts.{parts};
ghost use Rattle.idle_slaves.specs.of_slave_parts.Served.{product_whole};
ghost use Rattle.std.specs.Prelude.{Bool};

/// A CLIENT THAT NEVER WAITS IN VAIN never does where mails are passed on beside its services: such a mail is told at once, whatever was heard.
pub fn tagged_never<V, M, Q, R, C>()
    ensures tagged { (x : Exchange V V M Q R) (core : V → C) → IsServed x core → NeverWaits x → NeverWaits (tagged x) }
    // So it is over calm servers and fair mails.
    ensures calm { (x : Exchange V V M Q R) (core : V → C) → IsServed x core → NeverWaits x → (calm : V → Bool) (fair : M → Bool) → NeverWaits (calm_tagged x calm fair) }
{}

/// FROM WHATEVER SERVER a slave's client never does: with unfinished transfers of any protocol that a mail of another sender left.
pub fn parts_never()
    ensures { (p : Profile) → IsProfile p → NeverWaits (product_whole parts p) }
{
    slave_parts::parts_are_lawful();
    slave_parts::parts_served::files_are_served();
}

/// A CLIENT THAT HEARS FIRST does so over calm servers, with fair mails passed on beside its services: behind such a mail none is told.
pub fn tagged_hears<V, M, Q, R, C>()
    ensures { (x : Exchange V V M Q R) (core : V → C) → IsServed x core → HearsFirst x → (calm : V → Bool) (fair : M → Bool) → HearsFirst (calm_tagged x calm fair) }
{}

/// So a slave's client does, from whatever server.
pub fn parts_hear()
    ensures { (p : Profile) → IsProfile p → HearsFirst (product_whole parts p) }
{
    slave_parts::parts_are_lawful();
    slave_parts::parts_served::files_are_served();
}
