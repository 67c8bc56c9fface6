//! A serving as its master leads it: the lives of its slaves, with mails that are passed on. Definitions and laws, no running code: the functions here do
//! nothing, and their contracts state the laws.

ghost use Rattle.std.specs.Prelude.{◌≡◌, ℕ, None, List, All, map};
ghost use Rattle.master_tour.specs.of_frame_view.View.{Lens};
ghost use Rattle.master_hand.specs.of_segment_plan.declared.plan.Scenario.{Scenario};
ghost use Rattle.life_runs.specs.Led.{Exchanged, Leads, IsLed};
ghost use Rattle.life_runs.specs.Opened.{AllOpenTheirs};
ghost use Rattle.life_runs.specs.Came.{HasServed, IsFresh};
ghost use Rattle.life_runs.specs.Served.{ServeTo, Serves, IsServedLed, IsRunOf, TellsSo, all_serve};

/// A RUN IS A SERVING to which no mail is asked: of the same frames and the same lives, whatever the paces of its slaves are.
pub fn run_served_law()
    ensures { (lens : ℕ → Lens) (recover retry : ℕ) (paces : List ℕ) (first : List Leads) (fs : List Exchanged) (missed : ℕ) (as' : List Leads) → All (λ a. a.lived.life.era.passing ≡ None) first → IsLed lens recover retry first fs missed as' →
        (ws : List Serves) × IsServedLed lens recover retry (all_serve paces first) fs missed ws × IsRunOf ws as' }
{}

/// WHAT IS TOLD UNDER A KEY ARE THE REPLIES OF ITS SLAVE TO ITS MAIL: over all frames of a serving, of the mail that was passed on last to each slave what was
/// told are the first replies that were heard for it, in order, and all of them while it isn't over.
pub fn told_law()
    ensures { (lens : ℕ → Lens) (recover retry : ℕ) (paces : List ℕ) (first : List Leads) (fs : List Exchanged) (missed : ℕ) (ws : List Serves) → IsServedLed lens recover retry (all_serve paces first) fs missed ws → All TellsSo ws }
{}

/// MAILS ARE PASSED ON IN THE ORDER IN WHICH THEY WERE ASKED, each once, and none of a script is skipped for them: over all epochs of each slave's life what came
/// into hand were the next of its script, packets, and mails, which with those that wait are among those that were asked of it, in order, and all of them where
/// the slave was never given up.
pub fn asked_law()
    ensures { (lens : ℕ → Lens) (recover retry : ℕ) (paces : List ℕ) (first : List Leads) (fs : List Exchanged) (missed : ℕ) (ws : List Serves) → All IsFresh first → IsServedLed lens recover retry (all_serve paces first) fs missed ws → All (HasServed lens) ws }
{}

/// EACH EPOCH OF A SERVING OPENS ITS STATE, as in a run: the first, and one behind a give-up, the slave's start; and one behind a state service PreOp or Bootstrap,
/// as that service asks.
pub fn opened_law()
    ensures { (plan : Scenario) (fs : List Exchanged) (missed : ℕ) (ws : List Serves) → ServeTo plan fs missed ws → AllOpenTheirs (map (λ (w : Serves). w.lead) ws) }
{}
