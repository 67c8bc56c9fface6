//! What the slaves of a serving did of the rows that came into hand of them, and what they replied to the mails that were passed on. Definitions and a law, no
//! running code: the function here does nothing, and its contract states the law.

ghost use Rattle.std.specs.Prelude.{◌≡◌, ◌∷◌, ℕ, suc, Bool, false, [], List};
ghost use Rattle.served_places.specs.of_life_runs.Led.{Exchanged};
ghost use Rattle.served_places.specs.of_link_mails.Body.{Body};
ghost use Rattle.run_work.specs.of_mailbox_mail.declared.mail.Kind.{Kind};
ghost use Rattle.run_work.specs.of_mailbox_mail.declared.mail.Mail.{Mail};
ghost use Rattle.run_work.specs.of_master_hand.Spoken.{passed};
ghost use Rattle.run_work.specs.of_plan_ring.Lives.{IsKnown};
ghost use Rattle.run_work.specs.of_plan_ring.Round.{AllRound, ring_of};
ghost use Rattle.run_work.specs.of_segment_plan.Sound.{IsPlan};
ghost use Rattle.run_work.specs.of_segment_plan.declared.plan.Scenario.{Scenario};
ghost use Rattle.served_rings.specs.Served.{replies_to, server_behind};
ghost use Rattle.served_rings.specs.Stood.{ServeSo};
ghost use Rattle.served_places.specs.of_life_runs.Served.{ServeTo, Serves};
ghost use Rattle.run_work.specs.of_slave_model.Profile.{Profile};
ghost use Rattle.run_work.specs.of_slave_model.Server.{failure};
ghost use Rattle.run_work.specs.of_slave_parts.Parts.{Server};
ghost use Rattle.served_places.specs.of_state_model.Families.{InState};
ghost use Rattle.served_places.specs.of_state_model.Stated.{Service};

/// EACH SLAVE OF A SERVING has carried out, epoch by epoch, just the first of the rows that came into hand of it, each mail that was passed on by the one step that
/// its server takes for it; and of each of these mails just the first of the replies of that step were heard, all of them where it is over: behind any frames that
/// went round the plan's ring, with any mails asked between them. Each mail that is over or has a reply is carried out, and of two rows of an epoch that are not
/// the older is a packet. Where it is open and rests, nothing is left of its newest epoch. And as each epoch ended, by the frame that showed its return to Init, the
/// slave's node held what was carried out of it; and one that was given up for good while it was open has the AL state of what was carried out.
pub fn served_replies_law()
    ensures { (plan : Scenario) → IsPlan plan → IsKnown plan → (fs : List Exchanged) (missed : ℕ) (ws : List Serves) → ServeTo plan fs missed ws → AllRound (ring_of plan) fs → ServeSo plan fs ws }
{
    crate::stood_rings::stood_ring_law();
    crate::served_eras::behind_law();
    crate::plan_speakers::speaker_law();
    crate::plan_speakers::run_law();
}

/// Worked rows: a slave that doesn't serve CoE answers a mail of CoE by mailbox error 2, and counts it.
pub fn refused_row()
    ensures replies { (p : Profile) (boot : Bool) (station : ℕ) (v : InState Server) (m : Mail) → p.has_coe ≡ false → m.kind ≡ Kind.CoE → replies_to p boot station v m ≡ failure 2 ∷ [] }
    ensures counts { (p : Profile) (boot : Bool) (station : ℕ) (v : InState Server) (m : Mail) → p.has_coe ≡ false → m.kind ≡ Kind.CoE → (server_behind p boot station v (Service.Mails (passed m) ∷ [])).inner.handled ≡ suc v.inner.handled }
{}
