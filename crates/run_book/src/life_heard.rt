//! The mails that a master accepts of its slaves over the frames of a run, and their emergencies. No running code: the function here does nothing, and its
//! contract states a law.

ghost use Rattle.std.specs.Prelude.{◌≡◌, ◌<◌, ◌≤◌, ◌++◌, ℕ, suc, List, [], length, map, Option, Some, IfSome, slice_get, slice_set};
ghost use Rattle.master_node.specs.of_frame_view.View.{Lens};
ghost use Rattle.run_book.specs.Heard.{Accepted, AllNoted, brought_of, brought_by, emergencies_of, emergencies_with, heard_in, heard_on, heard_none, heard_to};
ghost use Rattle.master_node.specs.of_life_runs.Led.{Exchanged, Leads, Turn, IsLed, IsLedFrame};
ghost use Rattle.slave_server.specs.of_link_mails.Body.{Body};
ghost use Rattle.master_node.specs.of_master_hand.Brings.{as_list, emergencies_in};
ghost use Rattle.master_node.specs.of_master_tour.Brings.{accepted_in};
ghost use Rattle.run_book.specs.declared.book.Emergency.{Emergency};
ghost use Rattle.slave_server.specs.of_segment_model.Slaves.{Datagram};
ghost use Rattle.master_node.specs.of_segment_ring.declared.wire.Fate.TheVariants.{Lost};

/// FRAME BY FRAME the emergencies that are noted of each slave are just those among the mails accepted of it, in order, each with the frame that brought
/// it: a return adds the one that it brought, slave by slave, and a loss none. Over a run the mails accepted are those of its frames, one after the other.
pub fn emergencies_law()
    ensures begins { (lens : ℕ → Lens) (recover retry : ℕ) (first : List Leads) → heard_in {lens = lens} {recover = recover} {retry = retry} {first = first} {fs = []} {missed = 0} {as' = first} IsLed.start ≡ heard_none first }
    ensures goes_on { (lens : ℕ → Lens) (recover retry missed : ℕ) (first as' : List Leads) (fs : List Exchanged) (f : Exchanged) (us : List Turn) (led : IsLed lens recover retry first fs missed as') (frame : IsLedFrame lens (length fs) f.sent as' us) →
        heard_in (IsLed.on fs missed as' f us led frame) ≡ heard_on (λ u. brought_by lens (length fs) f f.fate u) (heard_in led) us }
    ensures brings { (frame : ℕ) (back : List (Datagram Body)) (u : Turn) (found : Option (List ℕ)) → as_list found ≡ emergencies_in (accepted_in u.lived.spot u.lived.life back) → emergencies_of (brought_of frame back u) ≡ emergencies_with frame (as_list found) }
    ensures next { (more : Turn → List Accepted) (k : ℕ) (hss : List (List Accepted)) (us : List Turn) (notes : List (List Emergency)) (n m : List Emergency) → k < length us → slice_get notes k ≡ Some n → IfSome (slice_get us k) (λ u. m ≡ n ++ emergencies_of (more u)) →
        AllNoted (heard_to more k hss us) notes → AllNoted (heard_to more (suc k) hss us) (slice_set notes k m) }
    ensures passes { (more : Turn → List Accepted) (k : ℕ) (hss : List (List Accepted)) (us : List Turn) (notes : List (List Emergency)) → length notes ≤ k → AllNoted (heard_to more k hss us) notes → AllNoted (heard_on more hss us) notes }
    ensures loses { (lens : ℕ → Lens) (frame after : ℕ) (f : Exchanged) (hss : List (List Accepted)) (us : List Turn) (notes : List (List Emergency)) → AllNoted hss notes → AllNoted (heard_on (λ u. brought_by lens frame f (Lost after) u) hss us) notes }
{}
