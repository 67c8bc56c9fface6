//! What services and mails that are passed on count together at a slave of a plan, whatever transfers are unfinished. Definitions and laws, no running
//! code: the functions here do nothing, and their contracts state the laws.

ghost use Rattle.slave_parts.specs.of_exchange_model.Exchange.{IsLawful};
ghost use Rattle.few_replies.specs.Most.{Tells};
ghost use Rattle.few_replies.specs.RowCounts.{AreCounted};
ghost use Rattle.few_replies.specs.Calm.{IsCalm, KeepsPassed, calm_tagged, asked_count};
ghost use Rattle.few_replies.specs.Shapes.{shape_at, shape_most};
ghost use Rattle.slave_parts.specs.of_serving_model.Tagged.{ideal};
ghost use Rattle.few_replies.specs.Packets.{is_calm, is_fair};
ghost use Rattle.slave_parts.specs.of_slave_model.Profile.{Profile, IsProfile};
ghost use Rattle.slave_parts.specs.Parts.{parts};
ghost use Rattle.slave_parts.specs.Served.{product_whole};

/// A SERVICE TAKES NO MORE MAILS THAN THE SHAPE OF ITS SLAVE SAYS, also where mails that were passed on left transfers unfinished, an element half
/// joined among them; and neither a service nor a mail changes that shape.
pub fn whole_counts()
    ensures counted { (p : Profile) → IsProfile p → AreCounted (product_whole parts p) shape_at (λ k q. shape_most p k q.0 q.1) }
    ensures kept { (p : Profile) → KeepsPassed (product_whole parts p) is_calm is_fair shape_at }
{
    slave_parts::parts_are_lawful();
    slave_parts::parts_served::files_are_served();
}

/// THE PARTS OF A SLAVE TELL FEW OCTETS: 1,024 of its objects and 4,096 of an element. So it answers each fair mail with 76 mails at most.
pub fn parts_tell()
    ensures tells { Tells parts 1024 4096 }
    ensures calm { (p : Profile) → IsProfile p → IsCalm (product_whole parts p) is_calm is_fair 76 }
{
    slave_parts::parts_are_lawful();
}

/// SERVICES AND FAIR MAILS OF A SLAVE ARE COUNTED TOGETHER, as one exchange that keeps its laws: a service takes what the shape of its slave says, and a
/// mail that is passed on 78 mails at most: itself, what answers it and one that may be made up.
pub fn passed_law()
    ensures lawful { (p : Profile) → IsProfile p → IsLawful (calm_tagged (product_whole parts p) is_calm is_fair) }
    ensures counted { (p : Profile) → IsProfile p → AreCounted (calm_tagged (product_whole parts p) is_calm is_fair) (λ w. shape_at (ideal (product_whole parts p) w)) (asked_count (λ k q. shape_most p k q.0 q.1) 76) }
{
    slave_parts::parts_are_lawful();
    slave_parts::parts_served::files_are_served();
}
