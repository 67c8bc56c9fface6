//! The packets that begin at the ports of slaves over the frames of a run. No running code: the function here does nothing, and its contract states a law.

ghost use Rattle.std.specs.Prelude.{◌≡◌, ◌<◌, ◌++◌, ◌∷◌, ℕ, suc, true, Option, List, length, map, All};
ghost use Rattle.arrayvec.specs.ArrayVec.{ArrayVec};
ghost use Rattle.master_node.specs.of_eoe_switch.Switch.{switched};
ghost use Rattle.master_node.specs.of_eoe_switch.declared.switching.SwitchEvent.{SwitchEvent};
ghost use Rattle.master_node.specs.of_frame_view.View.{Lens};
ghost use Rattle.slave_server.specs.of_segment_plan.declared.plan.Scenario.{Scenario};
ghost use Rattle.master_node.specs.of_life_runs.First.{first_leads};
ghost use Rattle.master_node.specs.of_life_runs.Led.{Exchanged, Leads, Turn, IsLed, IsLedFrame};
ghost use Rattle.master_node.specs.Arrivals.{ComeIn};
ghost use Rattle.master_node.specs.Begins.{PacketsBegin};
ghost use Rattle.master_node.specs.Downs.{GoDown};
ghost use Rattle.master_node.specs.Happened.{events_of};
ghost use Rattle.master_node.specs.Made.{AreOfMaking};
ghost use Rattle.master_node.specs.Serving.{run_turn};
ghost use Rattle.master_node.specs.Shows.{is_live_lead};
ghost use Rattle.master_node.specs.declared.node.MasterNode.{MasterNode};
ghost use Rattle.master_node.specs.of_master_tour.Goes.{holds_at};
ghost use Rattle.packets_heard.specs.Numbers.{NoneWaits, Numbered, begins, comes_in, each_with, events_up_to, frames_begun, frames_heard, frames_other, given_up_at, goes, number_behind, numbers_where};
ghost use Rattle.packets_heard.specs.Over.{AreBegun, begun_at, forwarded_to, packets_begun};
ghost use Rattle.packets_heard.specs.Listed.{IsOwn, Listed};
ghost use Rattle.packets_heard.specs.Servings.{AreServedBegun, ServedListed, ServedNumbered, served_begun, served_completed, served_other, served_packets};
ghost use Rattle.master_node.specs.of_life_runs.Served.{Serves, ServedTurn, IsServedFrame, IsServedLed};
ghost use Rattle.master_node.specs.of_segment_ring.declared.wire.Fate.{Fate};

/// WHERE JUST THE PACKETS BEGIN THAT CAME INTO HAND, frame by frame, each the oldest at the port of its slave, over a run: at a port as many packets begin as came
/// into hand of its slave; and these are the first of those that were forwarded there, in order;
/// behind its going down none begins. What a master lists of one frame more goes on so.
pub fn begun_law()
    ensures begun { (lens : ℕ → Lens) (recover retry missed : ℕ) (ports : List (Option ℕ)) (many : ℕ) (first as' : List Leads) (fs : List Exchanged) (led : IsLed lens recover retry first fs missed as') (es : List SwitchEvent) (k port : ℕ) →
        IsOwn ports k port → AreBegun ports many led es → begun_at port es ≡ length (packets_begun led k) }
    ensures forwarded { (lens : ℕ → Lens) (recover retry missed : ℕ) (ports : List (Option ℕ)) (many : ℕ) (first as' : List Leads) (fs : List Exchanged) (led : IsLed lens recover retry first fs missed as') (es : List SwitchEvent) (k port : ℕ) →
        IsOwn ports k port → port < many → AreBegun ports many led es → (left : List (ArrayVec ℕ)) × (forwarded_to port (switched many es).forwards ≡ packets_begun led k ++ left) }
    ensures last { (lens : ℕ → Lens) (recover retry missed : ℕ) (ports : List (Option ℕ)) (many : ℕ) (first as' : List Leads) (fs : List Exchanged) (led : IsLed lens recover retry first fs missed as') (es xs ys : List SwitchEvent) (k port : ℕ) →
        IsOwn ports k port → AreBegun ports many led es → es ≡ xs ++ SwitchEvent.Down port ∷ ys → begun_at port ys ≡ 0 }
    ensures goes_on { (lens : ℕ → Lens) (recover retry missed : ℕ) (ports : List (Option ℕ)) (many : ℕ) (first as' : List Leads) (fs : List Exchanged) (led : IsLed lens recover retry first fs missed as') (f : Exchanged) (us : List Turn) (frame : IsLedFrame lens (length fs) f.sent as' us) (m n : MasterNode) (packets : ℕ → List (List ℕ)) (leads : List Leads) (es : List SwitchEvent) →
        m.lan.ports.items ≡ ports → PacketsBegin (switched many es).switch us m.lan → (switched many (es ++ events_of m.lan.happened)).switch ≡ m.lan.switch → (f.fate ≡ Fate.Pass → ComeIn m packets n) → ((after : ℕ) → f.fate ≡ Fate.Lost after → GoDown m us leads n) →
        AreBegun ports many led es → AreBegun ports many (IsLed.on fs missed as' f us led frame) (es ++ (events_of m.lan.happened ++ events_of n.lan.happened)) }
    // So it is over a serving.
    ensures served_begun { (lens : ℕ → Lens) (recover retry missed : ℕ) (ports : List (Option ℕ)) (many : ℕ) (first ws : List Serves) (fs : List Exchanged) (led : IsServedLed lens recover retry first fs missed ws) (es : List SwitchEvent) (k port : ℕ) →
        IsOwn ports k port → AreServedBegun ports many led es → begun_at port es ≡ length (served_packets led k) }
    ensures served_last { (lens : ℕ → Lens) (recover retry missed : ℕ) (ports : List (Option ℕ)) (many : ℕ) (first ws : List Serves) (fs : List Exchanged) (led : IsServedLed lens recover retry first fs missed ws) (es xs ys : List SwitchEvent) (k port : ℕ) →
        IsOwn ports k port → AreServedBegun ports many led es → es ≡ xs ++ SwitchEvent.Down port ∷ ys → begun_at port ys ≡ 0 }
    ensures served_forwarded { (lens : ℕ → Lens) (recover retry missed : ℕ) (ports : List (Option ℕ)) (many : ℕ) (first ws : List Serves) (fs : List Exchanged) (led : IsServedLed lens recover retry first fs missed ws) (es : List SwitchEvent) (k port : ℕ) →
        IsOwn ports k port → port < many → AreServedBegun ports many led es → (left : List (ArrayVec ℕ)) × (forwarded_to port (switched many es).forwards ≡ served_packets led k ++ left) }
    ensures served_goes_on { (lens : ℕ → Lens) (recover retry missed : ℕ) (ports : List (Option ℕ)) (many : ℕ) (first ws : List Serves) (fs : List Exchanged) (led : IsServedLed lens recover retry first fs missed ws) (f : Exchanged) (vs : List ServedTurn) (frame : IsServedFrame lens (length fs) f.sent ws vs) (m n : MasterNode) (packets : ℕ → List (List ℕ)) (leads : List Leads) (es : List SwitchEvent) →
        m.lan.ports.items ≡ ports → PacketsBegin (switched many es).switch (map run_turn vs) m.lan → (switched many (es ++ events_of m.lan.happened)).switch ≡ m.lan.switch → (f.fate ≡ Fate.Pass → ComeIn m packets n) → ((after : ℕ) → f.fate ≡ Fate.Lost after → GoDown m (map run_turn vs) leads n) →
        AreServedBegun ports many led es → AreServedBegun ports many (IsServedLed.on fs missed ws f vs led frame) (es ++ (events_of m.lan.happened ++ events_of n.lan.happened)) }
{}

/// WHERE EACH EVENT HAS THE NUMBER OF ITS MOMENT, frame by frame (the frames sent before the one that is made, and one more behind its return or its loss), over
/// a run: a packet begins at a slave's port with the number of the frame before which it came into hand; one comes in with the number behind the frame that
/// brought its last fragment; and the port goes down with the number behind the frame at which the slave was given up for good. Where another service of the
/// slave came into hand before a frame, nothing waits at its port behind the events numbered up to that frame. What a book numbers of one frame more goes on so.
pub fn numbers_law()
    ensures begun { (lens : ℕ → Lens) (recover retry missed : ℕ) (ports : List (Option ℕ)) (many : ℕ) (first as' : List Leads) (fs : List Exchanged) (led : IsLed lens recover retry first fs missed as') (es : List SwitchEvent) (ns : List ℕ) (k port : ℕ) →
        IsOwn ports k port → Numbered ports many led es ns → numbers_where (begins port) es ns ≡ frames_begun led k }
    ensures heard { (lens : ℕ → Lens) (recover retry missed : ℕ) (ports : List (Option ℕ)) (many : ℕ) (first as' : List Leads) (fs : List Exchanged) (led : IsLed lens recover retry first fs missed as') (es : List SwitchEvent) (ns : List ℕ) (k port : ℕ) →
        IsOwn ports k port → Listed lens recover retry ports led es → Numbered ports many led es ns → numbers_where (comes_in port) es ns ≡ map (λ n. suc n) (frames_heard ports led k) }
    ensures down { (lens : ℕ → Lens) (plan : Scenario) (retry missed : ℕ) (ports : List (Option ℕ)) (many : ℕ) (as' : List Leads) (fs : List Exchanged) (led : IsLed lens plan.recover retry (first_leads plan) fs missed as') (es : List SwitchEvent) (ns : List ℕ) (k port : ℕ) →
        IsOwn ports k port → holds_at is_live_lead (first_leads plan) k ≡ true → Listed lens plan.recover retry ports led es → Numbered ports many led es ns → numbers_where (goes port) es ns ≡ number_behind (given_up_at plan.recover as' k) }
    ensures quiet { (lens : ℕ → Lens) (recover retry missed : ℕ) (ports : List (Option ℕ)) (many : ℕ) (first as' : List Leads) (fs : List Exchanged) (led : IsLed lens recover retry first fs missed as') (es : List SwitchEvent) (ns : List ℕ) (k port : ℕ) →
        IsOwn ports k port → Numbered ports many led es ns → All (λ frame. NoneWaits many port (events_up_to frame es ns)) (frames_other led k) }
    ensures goes_on { (lens : ℕ → Lens) (recover retry missed : ℕ) (ports : List (Option ℕ)) (many : ℕ) (first as' : List Leads) (fs : List Exchanged) (led : IsLed lens recover retry first fs missed as') (f : Exchanged) (us : List Turn) (frame : IsLedFrame lens (length fs) f.sent as' us) (m n : MasterNode) (packets : ℕ → List (List ℕ)) (leads : List Leads) (es : List SwitchEvent) (ns : List ℕ) →
        m.lan.ports.items ≡ ports → AreOfMaking m.lan.happened → PacketsBegin (switched many es).switch us m.lan → (switched many (es ++ events_of m.lan.happened)).switch ≡ m.lan.switch → (f.fate ≡ Fate.Pass → ComeIn m packets n) → ((after : ℕ) → f.fate ≡ Fate.Lost after → GoDown m us leads n) →
        Listed lens recover retry ports led es → AreBegun ports many led es → Numbered ports many led es ns →
        Numbered ports many (IsLed.on fs missed as' f us led frame) (es ++ (events_of m.lan.happened ++ events_of n.lan.happened)) (ns ++ (each_with (length fs) (events_of m.lan.happened) ++ each_with (suc (length fs)) (events_of n.lan.happened))) }
    // So it is over a serving, where a mail that is passed on is another service too.
    ensures served_begun { (lens : ℕ → Lens) (recover retry missed : ℕ) (ports : List (Option ℕ)) (many : ℕ) (first ws : List Serves) (fs : List Exchanged) (led : IsServedLed lens recover retry first fs missed ws) (es : List SwitchEvent) (ns : List ℕ) (k port : ℕ) →
        IsOwn ports k port → ServedNumbered ports many led es ns → numbers_where (begins port) es ns ≡ served_begun led k }
    ensures served_heard { (lens : ℕ → Lens) (recover retry missed : ℕ) (ports : List (Option ℕ)) (many : ℕ) (first ws : List Serves) (fs : List Exchanged) (led : IsServedLed lens recover retry first fs missed ws) (es : List SwitchEvent) (ns : List ℕ) (k port : ℕ) →
        IsOwn ports k port → ServedListed ports led es → ServedNumbered ports many led es ns → numbers_where (comes_in port) es ns ≡ map (λ n. suc n) (served_completed ports led k) }
    ensures served_quiet { (lens : ℕ → Lens) (recover retry missed : ℕ) (ports : List (Option ℕ)) (many : ℕ) (first ws : List Serves) (fs : List Exchanged) (led : IsServedLed lens recover retry first fs missed ws) (es : List SwitchEvent) (ns : List ℕ) (k port : ℕ) →
        IsOwn ports k port → ServedNumbered ports many led es ns → All (λ frame. NoneWaits many port (events_up_to frame es ns)) (served_other led k) }
{}
