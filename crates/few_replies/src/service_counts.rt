//! What a service takes of a slave, in mails, and that the frame bound counts as much for it. Definitions and laws, no running code: the functions
//! here do nothing, and their contracts state the laws.

ghost use Rattle.std.specs.Prelude.{◌≡◌, ◌≤◌, true};
ghost use Rattle.few_replies.specs.Counts.{mails_between};
ghost use Rattle.slave_parts.specs.of_slave_model.Application.{Parts, ArePartsLawful};
ghost use Rattle.slave_parts.specs.of_slave_model.Product.{product};
ghost use Rattle.slave_parts.specs.of_slave_model.Profile.{Protocol, Profile, IsProfile};
ghost use Rattle.slave_parts.specs.of_slave_model.Server.{Server, ServiceOf};
ghost use Rattle.slave_parts.specs.of_state_model.Families.{InState};
ghost use Rattle.slave_parts.specs.Parts.{Server as PartsServer, parts};
ghost use Rattle.few_replies.specs.RowCounts.{AreCounted};
ghost use Rattle.few_replies.specs.Slave.{service_most};
ghost use Rattle.few_replies.specs.Shapes.{shape_at, shape_most};

/// A SERVICE AT A SLAVE takes no more mails than its protocol does, of its client and of the slave together: in each AL state, over any lawful parts, and
/// also where the protocol isn't served.
pub fn slave_counts<T, F, I>()
    ensures { (o : Parts T F I) → ArePartsLawful o → (p : Profile) → IsProfile p → (v : InState (Server T F I)) (q : (i : Protocol) × ServiceOf i) → (product o p).ready v ≡ true → (product o p).speech.valid q ≡ true →
        mails_between (product o p) v q ≤ service_most o p v.state v.inner.app q.0 q.1 }
{}

/// A SERVICE TAKES NO MORE MAILS THAN THE SHAPE OF ITS SLAVE SAYS: the greatest sizes of its entries, how often its files are busy and how many blocks
/// they share. And no service changes that: no entry outgrows its greatest size, and no file its blocks.
pub fn shape_counts()
    ensures { (p : Profile) → IsProfile p → AreCounted (product parts p) shape_at (λ k q. shape_most p k q.0 q.1) }
{
    slave_parts::parts_are_lawful();
}
