//! The mails that a master accepts of its slaves over a serving. Definitions and a law, no running code: the function here does nothing, and its contract states
//! the law.

ghost use Rattle.run_promises.specs.Laws.{RunsHear, ServingsHear};

/// THE MAILS ACCEPTED EACH TIME that a slave was open are just those that were heard in the rows of its epochs, in order, of each epoch that heard one: whatever
/// frames are lost, whatever mails are passed on, and where slaves are given up, taken up again or returned to Init.
pub fn accepted_law()
    ensures servings { ServingsHear }
    // So it is over a run, as a serving to which no mail is asked has its lives.
    ensures runs { RunsHear }
{
    life_runs::served_runs::run_served_law();
    served_rings::served_ring_law();
    served_rings::told_eras::told_eras_law();
    served_rings::plan_speakers::speaker_law();
}
