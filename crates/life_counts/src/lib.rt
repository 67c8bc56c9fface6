//! What a life has gained is no more than the services count that came into hand of its slave, and what the frame bound counts for the services of a
//! plan is enough for the mails that they take. Definitions and laws, no running code: the functions here do nothing, and their contracts state the
//! laws.
#![tactic(auto)]

pub mod plan_counts;
pub mod served_gains;
pub mod tagged_epochs;
pub mod tagged_lives;

ghost use Rattle.master_hand.specs.of_exchange_model.Exchange.{Speech};
ghost use Rattle.few_replies.specs.RowCounts.{AreCounted};
ghost use Rattle.life_counts.specs.Begun.{begun_most, life_most, KeepsShape, AreUnopened};
ghost use Rattle.few_replies.specs.of_life_model.Gains.{era_gains, gains};
ghost use Rattle.few_replies.specs.of_life_model.Eras.{Clearing, OpenEra};
ghost use Rattle.few_replies.specs.of_life_model.Lives.{Spot, Life, new_life, life_next, life_back, life_lost, gives_up};
ghost use Rattle.few_replies.specs.of_link_mails.Body.{Body};
ghost use Rattle.master_hand.specs.of_segment_model.Record.{Frame, News};
ghost use Rattle.master_hand.specs.of_segment_model.Slaves.{Datagram, Found};
ghost use Rattle.whole_ring.specs.of_slave_lives.Lived.{Behind};
ghost use Rattle.whole_ring.specs.of_slave_lives.Opening.{Plan};
ghost use Rattle.slave_server.specs.of_slave_node.Node.{Node};
ghost use Rattle.std.specs.Prelude.{◌≡◌, ◌≤◌, ◌+◌, ℕ, Bool, Option, List};
ghost use Rattle.master_hand.specs.of_state_model.Accounts.{Pick};
ghost use Rattle.master_hand.specs.of_state_model.Promise.{services_in};
ghost use Rattle.whole_ring.specs.Whole.{OwesLaws, IsLived};

/// WHAT AN EPOCH HAS GAINED, in mails and in steps of state services, is no more than what its services count: each by mails what it takes at most, a
/// state service six.
pub fn epoch_counts<V, A, M, Q, R, K>()
    ensures { (w : OpenEra V A M Q R) (shape : V → K) (count : K → Q → ℕ) → AreCounted w.exchange shape count → ((state : ℕ) (v : V) → shape (w.states.tell state v) ≡ shape v) →
        era_gains w.era ≤ begun_most (count (shape w.server)) (services_in w.era.account.started) }
{}

/// AN EPOCH THAT WAS NEVER OPENED gained nothing, so it is of each life from its first frame on.
pub fn unopened_law<M, Q, R>()
    ensures new { (state : ℕ) → AreUnopened (new_life {M = M} {Q = Q} {R = R} state) }
    ensures next { (x : Speech M Q R) (acknowledged : Q → Bool) (more : M → Bool) (passed : Q → Bool) (frame : ℕ) (l : Life M Q R) (pick : Pick Q) → AreUnopened l → AreUnopened (life_next x acknowledged more passed frame l l.stand pick) }
    ensures back { (x : Speech M Q R) (acknowledged : Q → Bool) (more : M → Bool) (passed : Q → Bool) (frame : ℕ) (spot : Spot) (news : List (News M)) (back : List (Datagram M)) (came : Option (Bool × Option Found)) (l : Life M Q R) → AreUnopened l →
        AreUnopened (life_back x acknowledged more passed frame spot news back came l l.stand) }
    ensures lost { (x : Speech M Q R) (acknowledged : Q → Bool) (more : M → Bool) (passed : Q → Bool) (spot : Spot) (news : List (News M)) (sent : List (Datagram M)) (l : Life M Q R) → AreUnopened l → AreUnopened (life_lost x acknowledged more passed spot news sent l l.stand) }
    ensures given_up { (recover frame : ℕ) (spot : Spot) (l : Life M Q R) → AreUnopened l → AreUnopened (gives_up recover spot frame l) }
{}

/// WHAT A LIFE HAS GAINED since the first frame is no more than what the services count that came into hand in all its epochs, whatever frames were
/// lost, and whether the slave was given up, taken up again or returned to Init.
pub fn life_counts<S, V, A, Q, R, K>()
    ensures { (w : Behind S V A Q R) (c : Clearing V A) (p : Plan) (spot : Spot) (first : A) (l : Life Body Q R) (fs : List (Frame Body)) (n : Node S) (shape : A → K) (count : K → Q → ℕ) →
        OwesLaws w c p spot → IsLived w c p spot first l fs n → AreUnopened l → KeepsShape w c shape count → gains l ≤ 1 + life_most (count (shape first)) l }
{}
