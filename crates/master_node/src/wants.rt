//! What the master still wants of its slaves, and how often each was given up.

ghost use Rattle.std.specs.Prelude.{◌≡◌, ◌<◌, None, vec_len, true, false};
ghost use Rattle.std.specs.Bool.{OnTrue, OnFalse};
ghost use Rattle.life_runs.specs.of_link_model.Master.{InState};
ghost use Rattle.life_runs.specs.of_mailbox_master.Any.{in_half_of};
ghost use Rattle.master_node.specs.Resting.{SideRests};
ghost use Rattle.master_node.specs.Wants.{IsQuiet, gave_more};

use crate::node::MasterNode;
use mailbox_master::InwardHalf;
use master_hand::InHand;
use master_side::Side;
use master_tour::Stand;

// Whether a slave's link is at rest: no mail is held, and nothing is asked again.
fn is_at_rest(side: &Side<InHand>) -> bool
    ensures is { OnTrue result ((side.now.out.state ≡ None) × ((in_half_of side.now.inn).state ≡ InState.Clear)) }
    ensures rests { side.now.out.state ≡ None → (in_half_of side.now.inn).state ≡ InState.Clear → result ≡ true }
{
    side.out.is_idle() && matches!(side.inn, InwardHalf::Clear(_))
}

// Whether a slave that is open still wants frames for what it has in hand or for its script.
fn is_wanting(side: &Side<InHand>) -> bool
    ensures quiet { OnFalse result (IsQuiet side.now) }
    ensures unpassed { OnFalse result (side.now.passing ≡ None) }
    ensures rests { SideRests side.now → result ≡ false }
{
    if !side.is_free() {
        return true;
    }
    if !is_at_rest(side) {
        return true;
    }
    side.hand.scripted().is_some()
}

// Whether a slave that is opened anew so often, and still so often, was given up more often than so.
fn gave_more(stand: Stand, spare: u32, recover: u32, times: usize) -> bool
    ensures { result ≡ gave_more stand spare recover times }
{
    match stand {
        Stand::Gone => times <= recover as usize,
        Stand::Opening(_) => times < recover.saturating_sub(spare) as usize,
        Stand::Open => times < recover.saturating_sub(spare) as usize,
    }
}

impl MasterNode {
    ghost use Rattle.std.specs.Prelude.{◌≡◌, ◌<◌, ℕ, List, All, IfSome, true, nat_lt, length, map, slice_get, vec_len, [], false, ◌&&◌};
    ghost use Rattle.std.specs.Bool.{OnTrue, OnFalse};
    ghost use Rattle.std.specs.List.{list_any};
    ghost use Rattle.life_runs.specs.of_frame_view.View.{Lens};
    ghost use Rattle.life_runs.specs.Led.{Leads};
    ghost use Rattle.life_runs.specs.of_master_tour.Goes.{is_live, holds_at};
    ghost use Rattle.master_node.specs.Shows.{MasterShows, lived_of, WaitsNone};
    ghost use Rattle.master_node.specs.Told.{HasLives};
    ghost use Rattle.life_runs.specs.of_master_tour.declared.stop.Stand.{Stand};
    ghost use Rattle.master_node.specs.Entering.{IsIdle};
    ghost use Rattle.master_node.specs.Passes.{waits_in};
    ghost use Rattle.master_node.specs.Serving.{mails_in, ServedShows, run_lead};
    ghost use Rattle.master_node.specs.Eager.{recalls};
    ghost use Rattle.master_node.specs.Forwards.{forwarded};
    ghost use Rattle.master_node.specs.Resting.{AllRest, StopRests};
    ghost use Rattle.master_node.specs.Wants.{gave_of, IsCounted, AllPlaced, AllLeft, IsQuietBy, IsServedOut, MaillessAt, NoneToCome, NoneWaiting};
    ghost use Rattle.life_runs.specs.Served.{Serves};

    // Whether a packet or a mail waits for a slave.
    fn has_waiting(&self, place: usize) -> bool
        requires { place < vec_len self.now.posts }
        ensures rests { waits_in (mails_in self.now) place ≡ [] → forwarded self.now.lan.switch self.now.lan.ports.items place ≡ [] → result ≡ false }
        ensures none { OnFalse result (NoneWaiting self.now place) }
        ensures mails { OnFalse result (IfSome (slice_get self.now.posts.items place) WaitsNone) }
    {
        if self.lan.waits(place) {
            return true;
        }
        self.posts[place].has_mail()
    }

    // Whether a slave wants frames.
    fn wants_at(&self, place: usize) -> bool
        requires { place < vec_len self.now.posts }
        ensures live { OnTrue result (holds_at (λ s. is_live s.stand) self.now.tour.stops.items place ≡ true) }
        ensures quiet { OnFalse result (IfSome (slice_get self.now.tour.stops.items place) (λ s. IsQuietBy s.stand s.side)) }
        ensures mails { OnFalse result (MaillessAt self.now place) }
        ensures rests { IfSome (slice_get self.now.tour.stops.items place) (λ s. StopRests self.now.lan place s × (s.stand ≡ Stand.Open → waits_in (mails_in self.now) place ≡ [])) → result ≡ false }
        ensures waits { OnFalse result (holds_at (λ s. is_live s.stand) self.now.tour.stops.items place ≡ true → NoneWaiting self.now place) }
    {
        let stop = &self.tour.stops[place];
        match stop.stand {
            Stand::Gone => false,
            Stand::Opening(_) => true,
            Stand::Open => {
                if is_wanting(&stop.side) {
                    return true;
                }
                self.has_waiting(place)
            }
        }
    }

    // Whether some slave wants frames.
    fn has_wanting(&self) -> bool
        ensures live { OnTrue result (list_any (λ s. is_live s.stand) self.now.tour.stops.items ≡ true) }
        ensures quiet { OnFalse result (All (λ s. IsQuietBy s.stand s.side) self.now.tour.stops.items) }
        ensures mails { OnFalse result ((k : ℕ) → k < vec_len self.now.posts → MaillessAt self.now k) }
        ensures rests { ((k : ℕ) → IfSome (slice_get self.now.tour.stops.items k) (λ s. StopRests self.now.lan k s × (s.stand ≡ Stand.Open → waits_in (mails_in self.now) k ≡ []))) → result ≡ false }
        ensures waits { OnFalse result ((k : ℕ) → holds_at (λ s. is_live s.stand) self.now.tour.stops.items k ≡ true → NoneWaiting self.now k) }
    {
        for place in 0..self.posts.len() {
            if self.wants_at(place) {
                return true;
            }
        }
        false
    }

    // Whether a packet of the host has not yet come in while a slave is live.
    fn has_coming(&self) -> bool
        ensures live { OnTrue result (list_any (λ s. is_live s.stand) self.now.tour.stops.items ≡ true) }
        ensures none { nat_lt self.now.lan.entered (length self.now.lan.host) ≡ false → result ≡ false }
        ensures is { result ≡ (nat_lt self.now.lan.entered (length self.now.lan.host) && list_any (λ s. is_live s.stand) self.now.tour.stops.items) }
    {
        self.lan.has_host() && self.has_live()
    }

    /// Whether there is something left to do: a live slave is brought up or opened anew, has something in hand, a scripted service, a packet
    /// or a mail left, or a half of its link that isn't at rest, or a packet of the host has not yet come in while a slave is live. So nothing is where each
    /// slave was given up for good or rests, and all packets of the host have come in.
    pub fn wants(&self) -> bool
        ensures live { OnTrue result (list_any (λ s. is_live s.stand) self.now.tour.stops.items ≡ true) }
        ensures left { OnFalse result ((lens : ℕ → Lens) (recover retry missed : ℕ) (as' : List Leads) → MasterShows lens recover retry self.now missed as' → AllPlaced as' → AllLeft lens as') }
        ensures come { OnFalse result (NoneToCome self.now) }
        ensures served { OnFalse result ((lens : ℕ → Lens) (recover retry missed made : ℕ) (ws : List Serves) → ServedShows lens recover retry self.now missed made ws → AllPlaced (map run_lead ws) → All (IsServedOut lens) ws) }
        ensures rests { (lens : ℕ → Lens) (recover retry missed : ℕ) (as' : List Leads) → MasterShows lens recover retry self.now missed as' → AllRest lens self.now.lan 0 (recalls self.now) as' → nat_lt self.now.lan.entered (length self.now.lan.host) ≡ false → result ≡ false }
        ensures idle { IsIdle self.now → result ≡ false }
    {
        if self.has_wanting() {
            return true;
        }
        self.has_coming()
    }

    /// Whether a slave that is opened anew so often was given up more often than so.
    pub fn gave_up_more(&self, slave: u32, recover: u32, times: usize) -> bool
        requires { slave < vec_len self.now.posts }
        ensures { (lens : ℕ → Lens) (as' : List Leads) → HasLives lens recover self.now (map lived_of as') →
            IfSome (slice_get as' slave) (λ a. IsCounted recover a.lived.life.stand (length (gave_of a)) → result ≡ nat_lt times (length (gave_of a))) }
    {
        let stop = &self.tour.stops[slave as usize];
        gave_more(stop.stand, stop.spare, recover, times)
    }
}
