//! The laws of a link and of a ring of links. Each function does nothing and carries a law as its contract.

ghost use Rattle.std.specs.Prelude.{◌≡◌, ◌≢◌, ◌⊎◌, ◌+◌, ◌*◌, ◌≤◌, List, None, length};
ghost use Rattle.link_model.specs.Slave.{Node, Server, SeenAs, node_seen, processor_step};
ghost use Rattle.link_model.specs.Master.{InState};
ghost use Rattle.link_model.specs.Link.{Link, Event, Fate, happens, run, new_link, IsInOrder};
ghost use Rattle.link_model.specs.Agree.{Agrees, Accords};
ghost use Rattle.link_model.specs.Numbers.{Numbered};
ghost use Rattle.link_model.specs.Frames.{Gram};
ghost use Rattle.link_model.specs.Segment.{Member, RingFate, SegmentEvent, SegmentAgrees, segment_happens, segment_run, members_after, members_by, ring_of, ring_after, stations_of, Distinct, IsFrame, MayHappen, MayRun, Each, AllNew};
ghost use Rattle.link_model.specs.Gains.{gain_of, gains, losses, IsPaid, NothingLeft, HasStepped};
ghost use Rattle.link_model.specs.Application.{Carries, AllLeave, IsCarried, carried};

/// One link, for any server and any list of events: each event keeps the link agreement; so at every moment the
/// mails taken are the first mails held, and the mails accepted the first mails offered.
pub fn link_law<B, S>()
    ensures kept { (v : Server B S) (w : Link B S) (e : Event B S) → Agrees w → Agrees (happens v w e) }
    ensures accords { (v : Server B S) (w : Link B S) (e : Event B S) → Accords w → Accords (happens v w e) }
    ensures numbers { (w : Link B S) → Accords w → Numbered w }
    ensures in_order { (w : Link B S) → Agrees w → IsInOrder w }

    // From the end of bring-up on, whatever comes.
    ensures always { (v : Server B S) (s : S) (es : List (Event B S)) → IsInOrder (run v (new_link s) es) }
    ensures agrees { (v : Server B S) (s : S) (es : List (Event B S)) → Accords (run v (new_link s) es) }
{}

/// A frame over a ring of slaves with stations of their own: to each link it is just what the datagrams to its own
/// station are, in whatever order they and others stand in the frame, and whether it returned or was lost behind
/// some of the slaves.
pub fn frame_law<B, S>()
    ensures alone { (v : Server B S) (ms : List (Member B S)) (gs : List (Gram B)) (fate : RingFate) → Distinct (stations_of ms) → IsFrame ms gs → members_after ms gs fate ≡ members_by v ms gs fate }
    ensures ring { (ms : List (Member B S)) (gs : List (Gram B)) (fate : RingFate) → ring_of (members_after ms gs fate) ≡ ring_after (ring_of ms) gs fate }
{}

/// Any number of links in a ring: each event keeps the link agreement of each of them, and so does every list of
/// events that may come.
pub fn segment_law<B, S>()
    ensures kept { (v : Server B S) (ms : List (Member B S)) (e : SegmentEvent B S) → MayHappen ms e → SegmentAgrees ms → SegmentAgrees (segment_happens v ms e) }
    ensures agrees { (v : Server B S) (ms : List (Member B S)) (es : List (SegmentEvent B S)) → MayRun v ms es → SegmentAgrees ms → SegmentAgrees (segment_run v ms es) }
    ensures accords { (v : Server B S) (ms : List (Member B S)) (es : List (SegmentEvent B S)) → Distinct (stations_of ms) → MayRun v ms es → Each Accords ms → Each Accords (segment_run v ms es) }

    // From the end of bring-up on.
    ensures numbers { (v : Server B S) (ms : List (Member B S)) (es : List (SegmentEvent B S)) → Distinct (stations_of ms) → AllNew ms → MayRun v ms es → Each Numbered (segment_run v ms es) }
    ensures always { (v : Server B S) (ms : List (Member B S)) (es : List (SegmentEvent B S)) → Distinct (stations_of ms) → AllNew ms → MayRun v ms es → Each IsInOrder (segment_run v ms es) }
{}

/// The measure: what a list of events gains is paid by the mails taken up and accepted, and by three for each lost
/// datagram of the inward half.
pub fn gains_law<B, S>()
    ensures falls { (v : Server B S) (w : Link B S) (e : Event B S) → Agrees w → IsPaid w e (happens v w e) }
    ensures within { (v : Server B S) (s : S) (es : List (Event B S)) → let w = run v (new_link s) es in gains v (new_link s) es ≤ 3 * losses es + (length w.accepted + length w.held) }
{}

/// A server and what is seen of it: a step of the processor takes and offers the same mails for both, and leaves
/// the same node.
pub fn server_law<B, S, T>()
    ensures { (v : Server B S) (u : Server B T) (f : S → T) (n : Node B S) → SeenAs v u f → node_seen f (processor_step v n) ≡ processor_step u (node_seen f n) }
{}

/// What a step of the processor makes gain: behind it, with nothing lost, a read of the acknowledge gains; a read of
/// mailbox 1 gains, or all that was offered was accepted and the slave has nothing left; and the write of a held
/// mail gains, or both mailboxes are full.
pub fn step_law<B, S>()
    ensures stepped { (v : Server B S) (n : Node B S) → HasStepped v (processor_step v n) }
    ensures asked { (v : Server B S) (w : Link B S) → Agrees w → HasStepped v w.node → w.halves.inn.state ≡ InState.Asked → gain_of w (Event.In Fate.Pass) ≡ 1 }
    ensures clear { (w : Link B S) → w.halves.inn.state ≡ InState.Clear → w.node.inn.box ≢ None → gain_of w (Event.In Fate.Pass) ≡ 1 }
    ensures settled { (v : Server B S) (w : Link B S) → Agrees w → HasStepped v w.node → w.halves.inn.state ≡ InState.Clear → w.node.inn.box ≡ None → NothingLeft v w }
    ensures held { (v : Server B S) (w : Link B S) → HasStepped v w.node → w.halves.out.holding ≢ None → (gain_of w (Event.Out Fate.Pass) ≡ 1) ⊎ ((w.node.out.box ≢ None) × (w.node.inn.box ≢ None)) }
{}

/// The server: where each mail taken makes of its application what `carry` says, and nothing else changes it, the
/// application is that of the start with the mails taken carried out, each once and in order.
pub fn application_law<A, B, S>()
    ensures { (v : Server B S) (app : S → A) (carry : A → B → A) (s : S) (es : List (Event B S)) → Carries v app carry → AllLeave app es → IsCarried app carry (app s) (run v (new_link s) es) }
{}
