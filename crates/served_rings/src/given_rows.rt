//! The rows of the mails that were passed on to a slave of a serving, and what its server gives for each. Definitions and a law, no running code: the function
//! here does nothing, and its contract states the law.

ghost use Rattle.std.specs.Prelude.{◌≡◌, ℕ, Bool, Option, Some, List, slice_get};
ghost use Rattle.served_places.specs.of_exchange_model.Rows.{Row};
ghost use Rattle.served_places.specs.of_life_model.Lives.{Life};
ghost use Rattle.served_places.specs.of_link_mails.Body.{Body};
ghost use Rattle.run_work.specs.of_master_duty.Reply.{Reply};
ghost use Rattle.run_work.specs.of_master_hand.Spoken.{Asked};
ghost use Rattle.served_places.specs.of_segment_model.Ends.{Passing};
ghost use Rattle.served_places.specs.Rows.{passed_rows, passings};
ghost use Rattle.served_rings.specs.Given.{AllGiven, Given, IsGiven, given};
ghost use Rattle.served_rings.specs.Served.{IsServedLife};
ghost use Rattle.run_work.specs.of_slave_model.Profile.{Profile};
ghost use Rattle.run_work.specs.of_slave_parts.Parts.{Server};
ghost use Rattle.run_work.specs.of_slave_server.Serving.{Serving};
ghost use Rattle.run_work.specs.of_slave_node.Node.{Node};
ghost use Rattle.served_places.specs.of_state_model.Families.{InState};

/// EACH ROW OF A MAIL THAT WAS PASSED ON, all along the life of a slave of a serving, is of the mail at its place among those that came to its server; and just the
/// first of the replies of the one step that its server takes for it were heard in the row, all of them where it is over.
pub fn given_law()
    ensures all { (p : Profile) (boot : Bool) (station start : ℕ) (first : InState Server) (l : Life Body Asked Reply) (n : Node Serving) (d : IsServedLife p boot station start first l n) →
        AllGiven p boot station (given p boot station start first l n d) (passings l) (passed_rows l) }
    // So at each place.
    ensures at { (p : Profile) (boot : Bool) (station : ℕ) (gs : List Given) (ps : List (Option Passing)) (rs : List (Row Body Asked Reply)) → AllGiven p boot station gs ps rs →
        (i : ℕ) (r : Row Body Asked Reply) → slice_get rs i ≡ Some r → (g : Given) × (passing : Option Passing) × (slice_get gs i ≡ Some g) × (slice_get ps i ≡ Some passing) × IsGiven p boot station g passing r }
{}
