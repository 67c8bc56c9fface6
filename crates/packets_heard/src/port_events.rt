//! What happens at the ports of slaves over the frames of a run. No running code: the function here does nothing, and its contract states a law.

ghost use Rattle.std.specs.Prelude.{◌≡◌, ◌++◌, ℕ, Bool, true, if◌then◌else◌, Option, Some, List, map, length, slice_get};
ghost use Rattle.master_node.specs.of_datagrams.Datagram as Raw;
ghost use Rattle.master_node.specs.of_eoe.declared.joining.Unfinished.{Unfinished};
ghost use Rattle.master_node.specs.of_eoe_switch.declared.switching.SwitchEvent.{SwitchEvent};
ghost use Rattle.master_node.specs.of_frame_view.View.{Lens};
ghost use Rattle.master_node.specs.of_frame_view.Seen.{seen};
ghost use Rattle.master_node.specs.of_life_runs.Led.{Exchanged, Leads, Turn, AllTurn, IsLed, IsLedFrame, led_behind, gives_up_at};
ghost use Rattle.master_node.specs.Arrivals.{completed_at, ComeIn};
ghost use Rattle.master_node.specs.Downs.{GoDown};
ghost use Rattle.master_node.specs.Made.{AreOfMaking};
ghost use Rattle.master_node.specs.Happened.{arrivals_at, events_of};
ghost use Rattle.master_node.specs.Forwards.{port_by};
ghost use Rattle.master_node.specs.Ports.{ports_behind};
ghost use Rattle.master_node.specs.Shows.{is_live_lead};
ghost use Rattle.master_node.specs.Joined.{HasUnfinished, JoinsKept, stand_before, stand_under, unfinished_after};
ghost use Rattle.master_node.specs.Serving.{run_lead, run_turn};
ghost use Rattle.master_node.specs.Toured.{turn_share};
ghost use Rattle.master_node.specs.declared.node.MasterNode.{MasterNode};
ghost use Rattle.master_node.specs.of_master_tour.Goes.{holds_at};
ghost use Rattle.master_node.specs.of_master_tour.Orders.{AreOnce};
ghost use Rattle.master_node.specs.of_master_tour.Toured.{Tour, IsOfTour};
ghost use Rattle.slave_server.specs.of_segment_model.Returned.{Returns};
ghost use Rattle.slave_server.specs.of_segment_plan.declared.slave.SlaveSpec.{SlaveSpec};
ghost use Rattle.master_node.specs.of_segment_ring.declared.wire.Fate.{Fate};
ghost use Rattle.packets_heard.specs.Heard.{Joined, joined_in, joined_on, mails_by};
ghost use Rattle.packets_heard.specs.Listed.{CarriesAll, IsOwn, Listed, downs_at, long_ones, packets_at, packets_by, unfinished_of};
ghost use Rattle.packets_heard.specs.Servings.{ServedListed, served_joined};
ghost use Rattle.master_node.specs.of_life_runs.Served.{Serves, ServedTurn, AllServedTurn, IsServedFrame, IsServedLed, served_behind};

/// WHERE A MASTER'S STEPS LIST JUST THIS of the switch, over a run: the port of a slave that was live at its begin went down once if the slave was given
/// up for good, and else not; and the packets that came in there are just those that the mails accepted of this slave complete, in order, each whole. A frame carries
/// the slaves of its visit of the tour; and what a master lists of one frame more goes on so.
pub fn port_law()
    ensures own { (slaves : List SlaveSpec) (k port : ℕ) → port_by (slice_get (ports_behind 0 slaves) k) ≡ Some port → IsOwn (ports_behind 0 slaves) k port }
    ensures downs { (lens : ℕ → Lens) (recover retry missed : ℕ) (ports : List (Option ℕ)) (first as' : List Leads) (fs : List Exchanged) (led : IsLed lens recover retry first fs missed as') (es : List SwitchEvent) (k port : ℕ) →
        IsOwn ports k port → holds_at is_live_lead first k ≡ true → Listed lens recover retry ports led es → downs_at port es ≡ (if holds_at is_live_lead as' k then 0 else 1) }
    ensures arrivals { (lens : ℕ → Lens) (recover retry missed : ℕ) (ports : List (Option ℕ)) (first as' : List Leads) (fs : List Exchanged) (led : IsLed lens recover retry first fs missed as') (es : List SwitchEvent) (k port : ℕ) →
        IsOwn ports k port → Listed lens recover retry ports led es → arrivals_at port es ≡ long_ones (packets_at (joined_in led) k) }
    ensures carries { (lens : ℕ → Lens) (recover retry : ℕ) (ports : List (Option ℕ)) (number : ℕ) (f : Exchanged) (as' : List Leads) (us : List Turn) (live : ℕ → Bool) (size : ℕ) (area : ℕ → ℕ) (t : Tour) (many : ℕ) (visit : List ℕ) (js : List Joined) →
        IsLedFrame lens number f.sent as' us → IsOfTour (λ u. turn_share u) live size area t us many visit → AreOnce visit → (f.fate ≡ Fate.Pass → Returns (seen lens f.sent) (seen lens f.back)) → CarriesAll visit us (λ k. packets_by lens recover retry ports f f.fate us js k) }
    ensures goes_on { (lens : ℕ → Lens) (recover retry missed : ℕ) (ports : List (Option ℕ)) (first as' : List Leads) (fs : List Exchanged) (led : IsLed lens recover retry first fs missed as') (f : Exchanged) (us : List Turn) (frame : IsLedFrame lens (length fs) f.sent as' us) (m n : MasterNode) (es : List SwitchEvent) →
        m.lan.ports.items ≡ ports → AreOfMaking m.lan.happened → (f.fate ≡ Fate.Pass → ComeIn m (λ k. completed_at (seen lens f.back) us (unfinished_of (joined_in led)) k) n) →
        ((after : ℕ) → f.fate ≡ Fate.Lost after → GoDown m us (map (led_behind lens recover retry (gives_up_at lens recover retry missed) (length fs) f) us) n) → CarriesAll m.tour.visit.items us (λ k. packets_by lens recover retry ports f f.fate us (joined_in led) k) →
        Listed lens recover retry ports led es → Listed lens recover retry ports (IsLed.on fs missed as' f us led frame) (es ++ (events_of m.lan.happened ++ events_of n.lan.happened)) }
    ensures under_way { (lens : ℕ → Lens) (made : ℕ) (ds : List Raw.Datagram) (as' : List Leads) (us : List Turn) (m n : MasterNode) (befores : List (Option Unfinished)) → AllTurn lens made ds as' us → JoinsKept m n → HasUnfinished m (map stand_before as') befores → HasUnfinished n (map stand_under us) befores }
    // So it is over a serving.
    ensures served_downs { (lens : ℕ → Lens) (recover retry missed : ℕ) (ports : List (Option ℕ)) (first ws : List Serves) (fs : List Exchanged) (led : IsServedLed lens recover retry first fs missed ws) (es : List SwitchEvent) (k port : ℕ) →
        IsOwn ports k port → holds_at is_live_lead (map run_lead first) k ≡ true → ServedListed ports led es → downs_at port es ≡ (if holds_at is_live_lead (map run_lead ws) k then 0 else 1) }
    ensures served_arrivals { (lens : ℕ → Lens) (recover retry missed : ℕ) (ports : List (Option ℕ)) (first ws : List Serves) (fs : List Exchanged) (led : IsServedLed lens recover retry first fs missed ws) (es : List SwitchEvent) (k port : ℕ) →
        IsOwn ports k port → ServedListed ports led es → arrivals_at port es ≡ long_ones (packets_at (served_joined led) k) }
    ensures served_carries { (lens : ℕ → Lens) (recover retry : ℕ) (ports : List (Option ℕ)) (number : ℕ) (f : Exchanged) (ws : List Serves) (vs : List ServedTurn) (live : ℕ → Bool) (size : ℕ) (area : ℕ → ℕ) (t : Tour) (many : ℕ) (visit : List ℕ) (js : List Joined) →
        IsServedFrame lens number f.sent ws vs → IsOfTour (λ u. turn_share u) live size area t (map run_turn vs) many visit → AreOnce visit → (f.fate ≡ Fate.Pass → Returns (seen lens f.sent) (seen lens f.back)) → CarriesAll visit (map run_turn vs) (λ k. packets_by lens recover retry ports f f.fate (map run_turn vs) js k) }
    ensures served_goes_on { (lens : ℕ → Lens) (recover retry missed : ℕ) (ports : List (Option ℕ)) (first ws : List Serves) (fs : List Exchanged) (led : IsServedLed lens recover retry first fs missed ws) (f : Exchanged) (vs : List ServedTurn) (frame : IsServedFrame lens (length fs) f.sent ws vs) (m n : MasterNode) (es : List SwitchEvent) →
        m.lan.ports.items ≡ ports → AreOfMaking m.lan.happened → (f.fate ≡ Fate.Pass → ComeIn m (λ k. completed_at (seen lens f.back) (map run_turn vs) (unfinished_of (served_joined led)) k) n) →
        ((after : ℕ) → f.fate ≡ Fate.Lost after → GoDown m (map run_turn vs) (map run_lead (map (served_behind lens recover retry (gives_up_at lens recover retry missed) (length fs) f) vs)) n) →
        CarriesAll m.tour.visit.items (map run_turn vs) (λ k. packets_by lens recover retry ports f f.fate (map run_turn vs) (served_joined led) k) →
        ServedListed ports led es → ServedListed ports (IsServedLed.on fs missed ws f vs led frame) (es ++ (events_of m.lan.happened ++ events_of n.lan.happened)) }
    ensures served_under_way { (lens : ℕ → Lens) (made : ℕ) (ds : List Raw.Datagram) (ws : List Serves) (vs : List ServedTurn) (m n : MasterNode) (befores : List (Option Unfinished)) → AllServedTurn lens made ds ws vs → JoinsKept m n →
        HasUnfinished m (map stand_before (map run_lead ws)) befores → HasUnfinished n (map stand_under (map run_turn vs)) befores }
    ensures joined { (lens : ℕ → Lens) (f : Exchanged) (js : List Joined) (us : List Turn) → length js ≡ length us → unfinished_of (joined_on lens f js us) ≡ unfinished_after (λ u. mails_by lens f f.fate u) us (unfinished_of js) }
{}
