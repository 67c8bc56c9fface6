//! The real parts of a slave, from whatever server: its object dictionary, its store of files and its table of IDNs. No running code.

ghost use Rattle.serving_model.specs.Tagged.{IsServed};
ghost use Rattle.serving_model.specs.TaggedStates.{IsStatedServed};
ghost use Rattle.serving_model.specs.of_state_model.Families.{InState, states_of};
ghost use Rattle.slave_model.specs.Acknowledged.{acknowledged};
ghost use Rattle.slave_model.specs.Profile.{Profile, IsProfile};
ghost use Rattle.slave_parts.specs.Parts.{Server, parts};
ghost use Rattle.slave_parts.specs.Served.{product_whole, AreFilesServed};

/// A new version of a file leaves the store within its limits, under whatever name it comes, and the free blocks are the same in each AL state.
pub fn files_are_served()
    ensures { AreFilesServed parts }
{}

/// So the one exchange of a slave owes the laws of its services from whatever server, and the AL state is a part of the server.
pub fn parts_are_served()
    ensures served { (p : Profile) → IsProfile p → IsServed (product_whole parts p) (λ (v : InState Server). v.inner.app) }
    ensures stated { (p : Profile) → IsProfile p → IsStatedServed (product_whole parts p) (states_of {V = Server} {A = Server} acknowledged) }
{
    crate::parts_are_lawful();
    files_are_served();
}
