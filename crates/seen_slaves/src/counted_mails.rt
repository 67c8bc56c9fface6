//! What the number of handled services tells of a slave: a mail that isn't counted changes nothing of its application, so which rows are done may be read from
//! that number. Definitions and laws, no running code: the functions here do nothing, and their contracts state the laws.

ghost use Rattle.std.specs.Prelude.{ℕ, Bool, List};
ghost use Rattle.seen_slaves.specs.Counted.{AreCounted, IsCounted, IsToldByNumber};
ghost use Rattle.idle_slaves.specs.of_life_model.Lives.{Era};
ghost use Rattle.idle_slaves.specs.of_link_mails.Body.{Body};
ghost use Rattle.served_rings.specs.of_master_duty.Reply.{Reply};
ghost use Rattle.served_rings.specs.of_master_hand.Spoken.{Asked};
ghost use Rattle.served_rings.specs.Served.{IsServedEra};
ghost use Rattle.idle_slaves.specs.of_slave_model.Application.{Parts};
ghost use Rattle.idle_slaves.specs.of_slave_model.Product.{serve};
ghost use Rattle.idle_slaves.specs.of_slave_model.Profile.{Profile};
ghost use Rattle.idle_slaves.specs.of_slave_model.Server as Slave;
ghost use Rattle.idle_slaves.specs.of_slave_parts.Parts.{Server};
ghost use Rattle.idle_slaves.specs.of_state_model.Families.{InState};
ghost use Rattle.idle_slaves.specs.of_state_model.Stated.{Service};

/// A MAIL THAT A SLAVE DOESN'T COUNT LEAVES ITS APPLICATION, whatever mail it is, in whatever AL state and with whatever unfinished transfers; one that it counts is
/// counted once.
pub fn mails_law<T, F, I>()
    ensures { (o : Parts T F I) (p : Profile) (al : ℕ) (j : Slave.Server T F I) (b : Body) → IsCounted j (serve o p al j b).0 }
{}

/// SO DO ROWS: services of the script, mails that were passed on and changes of the AL state. Their number never falls, and where it is the same behind them, the
/// application is.
pub fn rows_law()
    ensures { (p : Profile) (boot : Bool) (station : ℕ) (v : InState Server) (qs : List (Service Asked)) → AreCounted p boot station v qs }
{}

/// SO THE NUMBER TELLS WHAT A SLAVE OF A SERVING DID of an epoch: behind any first part of its rows with the slave's number, so behind the longest one, stands the
/// slave's application, and the next epoch begins with the same server.
pub fn number_law()
    ensures { (p : Profile) (boot : Bool) (station : ℕ) (from : InState Server) (e : Era Body Asked Reply) (left done : InState Server) →
        IsServedEra p boot station from e left done → IsToldByNumber p boot station from e left }
{
    rows_law();
}
