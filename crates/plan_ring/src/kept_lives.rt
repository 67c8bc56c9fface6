//! What a life that is lived by its node keeps, epoch by epoch. No running code: the function here does nothing, and its contract states a law.

ghost use Rattle.plan_ring.specs.Epochs.{IsKeptLife};
ghost use Rattle.whole_ring.specs.of_life_model.Eras.{Clearing};
ghost use Rattle.whole_ring.specs.of_life_model.Lives.{Spot, Life};
ghost use Rattle.slave_server.specs.of_link_mails.Body.{Body};
ghost use Rattle.slave_server.specs.of_segment_model.Record.{Frame};
ghost use Rattle.whole_ring.specs.of_slave_lives.Lived.{Behind};
ghost use Rattle.whole_ring.specs.of_slave_lives.Opening.{Plan};
ghost use Rattle.slave_server.specs.of_slave_node.Node.{Node};
ghost use Rattle.std.specs.Prelude.{◌≡◌, true, Bool, List};
ghost use Rattle.whole_ring.specs.Whole.{OwesLaws, IsLived};

/// OF A LIFE THAT IS LIVED each epoch has carried out just the first of the services that came into hand in it, each once and in order, from what the
/// epoch before left, cleared; each reply is that of its service; and of the newest, where nothing is left, all are carried out.
pub fn kept_life_law<S, V, A, Q, R>()
    ensures { (w : Behind S V A Q R) (c : Clearing V A) (p : Plan) (spot : Spot) (more : Body → Bool) (first : A) (l : Life Body Q R) (fs : List (Frame Body)) (n : Node S) → OwesLaws w c p spot → IsLived w c p spot first l fs n →
        IsKeptLife w more spot c.cleared fs first l n }
{}
