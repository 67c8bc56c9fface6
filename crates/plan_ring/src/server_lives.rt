//! The services of a slave of a plan are such as the laws of lives speak of. No running code: the functions here do nothing, and their contracts
//! state the laws.

ghost use Rattle.std.specs.Prelude.{◌≡◌, ◌+◌, ◌≤◌, ℕ, Bool, true, [], None, length};
ghost use Rattle.whole_ring.specs.of_frame_view.View.{Lens};
ghost use Rattle.slave_server.specs.of_link_mails.Body.{Body};
ghost use Rattle.whole_ring.specs.of_slave_lives.Ends.{ClearsAs};
ghost use Rattle.whole_ring.specs.of_slave_lives.Lived.{IsBehind};
ghost use Rattle.whole_ring.specs.of_life_model.Lives.{Spot};
ghost use Rattle.whole_ring.specs.of_slave_lives.Nodes.{GivesPlaced};
ghost use Rattle.whole_ring.specs.of_slave_lives.Opening.{Plan, IsPlan};
ghost use Rattle.slave_server.specs.of_slave_model.Profile.{Profile, IsProfile};
ghost use Rattle.slave_server.specs.of_slave_model.Application.{station_valid};
ghost use Rattle.slave_server.specs.of_slave_parts.Parts.{Core, parts};
ghost use Rattle.whole_ring.specs.Whole.{OwesLaws};
ghost use Rattle.slave_server.specs.Serving.{Serving, fresh};
ghost use Rattle.slave_server.specs.of_slave_node.Node.{Node};
ghost use Rattle.plan_ring.specs.Real.{running_as, real, real_clearing, StepsAs};
ghost use Rattle.plan_ring.specs.Rooms.{IsSound};

/// The services of a slave of a plan are those of its exchange, in each AL state, a return to Init
/// clears them, and its steps are theirs.
pub fn real_server_law()
    ensures behind { (p : Profile) (boot : Bool) (lens : ℕ → Lens) → IsBehind (real p boot lens) }
    ensures clears { (p : Profile) (boot : Bool) (lens : ℕ → Lens) → ClearsAs (real p boot lens) real_clearing }
    ensures steps { (p : Profile) (n : Node Serving) → n.server.profile ≡ p → StepsAs p n }
{}

/// So a life is lived by the node of a slave of a plan, whose profile is one that the laws of its protocols speak of.
pub fn real_whole_law()
    ensures { (p : Profile) → IsProfile p → (boot : Bool) (lens : ℕ → Lens) (plan : Plan) (spot : Spot) → IsPlan boot lens plan → plan.station ≡ spot.station → plan.start ≡ spot.start → OwesLaws (real p boot lens) real_clearing plan spot }
{
    slave_parts::slave_is_lawful();
    real_server_law();
}

/// WHAT A SLAVE'S SERVER GIVES HAS ROOM in the mailbox, whatever mails it took, in whatever AL states: a server of a plan's profile is sound before
/// any mail, and stays so by each mail taken, each mail given and each return to Init. Cleared it may be served.
pub fn real_room_law()
    ensures begins { (p : Profile) → IsProfile p → (core : Core) → station_valid parts (record { app = core; frame = 0 }) ≡ true → length core.block + 10 ≤ p.back → IsSound p (record { profile = p; server = fresh core; waiting = [] }) }
    ensures takes { (p : Profile) → IsProfile p → (al : ℕ) (s : Serving) (b : Body) → IsSound p s → IsSound p ((running_as p).take s b al) }
    ensures gives { (p : Profile) (s : Serving) → IsSound p s → IsSound p ((running_as p).rest s) }
    ensures clears { (p : Profile) (s : Serving) → IsSound p s → IsSound p ((running_as p).clear s) }
    ensures placed { (p : Profile) (s : Serving) → IsSound p s → GivesPlaced (running_as p) p.back s }
    ensures ready { (p : Profile) (boot : Bool) (lens : ℕ → Lens) (al : ℕ) (s : Serving) → IsSound p s → (running_as p).clear s ≡ s → (real p boot lens).exchange.ready ((real p boot lens).sees al s).server ≡ true }
{
    slave_parts::parts_are_lawful();
}
