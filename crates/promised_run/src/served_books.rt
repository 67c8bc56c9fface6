//! What the book of a serving tells of the mails that were asked of its slaves, and of its tour. Laws, no running code: the functions here do nothing, and their
//! contracts state the laws.

ghost use Rattle.std.specs.Prelude.{◌≤◌, ℕ, All, length, map};
ghost use Rattle.gateway_run.specs.Served.{HasAccount};
ghost use Rattle.run_promises.specs.of_master_node.Toured.{tour_of};
ghost use Rattle.gateway_run.specs.of_run_book.declared.book.Book.{Book};
ghost use Rattle.gateway_run.specs.of_run_book.declared.book.Ending.{Ending};
ghost use Rattle.gateway_run.specs.of_run_book.declared.book.GramIn.{GramIn};
ghost use Rattle.gateway_run.specs.of_run_record.Led.{exchanged};
ghost use Rattle.run_promises.specs.of_run_work.Fair.{AreFairGrams, AsksFair};
ghost use Rattle.run_promises.specs.of_run_work.ServedGained.{asked_in};
ghost use Rattle.run_promises.specs.of_segment_plan.Sound.{IsPlan};
ghost use Rattle.run_promises.specs.of_segment_plan.declared.plan.Scenario.{Scenario};
ghost use Rattle.run_promises.specs.Quiet.{AsksQuiet};
ghost use Rattle.promised_run.specs.TouredTours.{IsCounted};

/// NO MORE MAILS WERE ASKED than datagrams were heard; and each of them begins no download to 2F01:01 where no datagram's mail does.
pub fn asked_law()
    ensures few { (plan : Scenario) (count : ℕ) (book : Book) (ending : Ending) (a : HasAccount plan count book ending) → asked_in a.answers.serving.leading.serves ≤ length book.grams }
    ensures fair { (plan : Scenario) (count : ℕ) (book : Book) (ending : Ending) (a : HasAccount plan count book ending) → AreFairGrams (map (λ (g : GramIn). g.bytes) book.grams) → All AsksFair a.answers.serving.leading.serves }
    // So they make their slaves send no packets: of EoE none is passed on.
    ensures quiet { (plan : Scenario) (count : ℕ) (book : Book) (ending : Ending) (a : HasAccount plan count book ending) → AreFairGrams (map (λ (g : GramIn). g.bytes) book.grams) → All AsksQuiet a.answers.serving.leading.serves }
{}

/// ITS FRAMES ARE THE VISITS OF ONE TOUR, with the mails that were asked between them, as their count speaks of them; and each asks by the inward half first.
pub fn tour_law()
    ensures { (plan : Scenario) (count : ℕ) (book : Book) (ending : Ending) → IsPlan plan → (a : HasAccount plan count book ending) → IsCounted plan (map exchanged book.frames) (tour_of a.session.master) a.answers.serving.leading.serves }
{
    crate::toured_servings::toured_law();
}
