//! The slaves of a plan and their masters are such as the laws of epochs speak of in which mails are passed on. Definitions and laws, no running code: the
//! functions here do nothing, and their contracts state the laws.

ghost use Rattle.std.specs.Prelude.{ℕ, Bool};
ghost use Rattle.run_work.specs.of_frame_view.View.{Lens};
ghost use Rattle.served_places.specs.of_life_model.Lives.{Spot, Life};
ghost use Rattle.served_places.specs.of_link_mails.Body.{Body};
ghost use Rattle.run_work.specs.of_master_duty.Reply.{Reply};
ghost use Rattle.run_work.specs.of_master_hand.Spoken.{Asked};
ghost use Rattle.run_work.specs.of_few_replies.Clearing.{Forgets};
ghost use Rattle.served_rings.specs.SeenLed.{IsFairLife, IsLedLife};
ghost use Rattle.run_work.specs.Fair.{AsksFair};
ghost use Rattle.run_work.specs.Lives.{IsServedLife};
ghost use Rattle.served_places.specs.of_life_runs.Came.{HasServed};
ghost use Rattle.served_places.specs.of_life_runs.Served.{Serves};
ghost use Rattle.run_work.specs.of_slave_model.Profile.{Profile, IsProfile};
ghost use Rattle.run_work.specs.of_slave_parts.Parts.{Server};
ghost use Rattle.served_places.specs.of_state_model.Families.{InState};
ghost use Rattle.served_places.specs.of_state_model.Stated.{IsStated};
ghost use Rattle.run_work.specs.of_life_counts.Epochs.{IsSpeaker, IsRun};
ghost use Rattle.served_rings.specs.Speakers.{any_speaker, speaker, spoken, spoken_states, table_of, processor_of, seer_of, cleared_whole};

/// A SLAVE OF A PLAN AND ITS MASTER keep the laws of both: the server owes those of its services and of its AL state in whatever state it is, with fair mails
/// among them, gives replies first, of which the last tells that it is; and the master speaks as the clients of the slave's protocols do.
pub fn speaker_law()
    ensures { (p : Profile) → IsProfile p → IsSpeaker (speaker p) }
{
    slave_parts::parts_served::parts_are_served();
    few_replies::whole_counts::passed_law();
    crate::last_told::parts_last_told();
}

/// SO THEY DO WITH ANY MAILS, fair or not; the node runs the same server then.
pub fn any_law()
    ensures speaks { (p : Profile) → IsProfile p → IsSpeaker (any_speaker p) }
    ensures runs { (p : Profile) (boot : Bool) (station : ℕ) → IsRun (any_speaker p) (spoken p) (processor_of boot) (seer_of p boot) (table_of boot station) }
{
    speaker_law();
}

/// Its node runs that server, in each AL state by its own table, and a return to Init forgets all unfinished transfers.
pub fn run_law()
    ensures runs { (p : Profile) (boot : Bool) (station : ℕ) → IsRun (speaker p) (spoken p) (processor_of boot) (seer_of p boot) (table_of boot station) }
    ensures forgets { (p : Profile) → Forgets (speaker p).exchange (speaker p).core cleared_whole }
{}

/// AND THE AL STATE is a part of what it runs.
pub fn state_law()
    ensures { (p : Profile) → IsProfile p → IsStated (spoken p) spoken_states }
{
    slave_parts::parts_served::parts_are_served();
}

/// ALL MAILS THAT CAME INTO HAND of a slave of a serving are fair, where all are that were asked of it.
pub fn fair_law()
    ensures { (p : Profile) (lens : ℕ → Lens) (w : Serves) → HasServed lens w → AsksFair w → IsFairLife (speaker p) w.lead.lived.life }
{}

/// SO A LIFE OF SUCH A SLAVE that its master leads, with fair mails alone passed on in it, is one that its slave works in sessions of services and fair mails.
pub fn life_law()
    ensures { (p : Profile) → IsProfile p → (boot : Bool) (spot : Spot) (first : InState Server) (l : Life Body Asked Reply) → IsLedLife (speaker p) (seer_of p boot) (table_of boot) spot (spoken p) (processor_of boot) cleared_whole first l →
        IsFairLife (speaker p) l → IsServedLife p first l }
{
    speaker_law();
    run_law();
}
