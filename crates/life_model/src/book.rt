//! What a book says of a slave, and the epochs that give it.

ghost use Rattle.std.specs.Prelude.{◌≡◌, ℕ, Bool, None, List, ◌++◌};
ghost use Rattle.state_model.specs.of_segment_model.Laws.{IsSettled, WantsNothing};
ghost use Rattle.state_model.specs.Accounts.{Started};
ghost use Rattle.state_model.specs.Promise.{services_in};
ghost use Rattle.life_model.specs.Eras.{OpenEra};
ghost use Rattle.life_model.specs.Book.{NoInits, IsTail, IsForgetful, EpochDone, EpochRests, epoch_book, done_rows};

/// What a book takes for done of an epoch, the longest first part of its rows that counts as many services as the slave carried out, without a
/// state service in doubt, is what the slave has done, but for its AL state: at most two rows are behind, each reply is its row's, and the
/// emissions heard are the first of those that it emits. The state service that ends an epoch is a row of the next one.
pub fn book_law<V, A, M, Q, R>()
    ensures epoch { (w : OpenEra V A M Q R) (cleared : A → A) (more : M → Bool) → IsForgetful w.states → (rs tail : List (Started Q)) → w.era.account.started ≡ rs ++ tail → NoInits (services_in rs) → IsTail tail →
        (follows : Bool) (al : ℕ) → EpochDone w cleared (epoch_book w more rs) (done_rows w cleared more rs follows al) }
    // Where the slave is settled and the master wants nothing of it, nothing is left of the epoch.
    ensures rests { (w : OpenEra V A M Q R) (cleared : A → A) (more : M → Bool) → NoInits (services_in w.era.account.started) → IsSettled w.slave → WantsNothing w.exchange.speech w.era.side → w.era.account.hand ≡ None →
        (follows : Bool) (al : ℕ) → EpochRests w cleared (epoch_book w more w.era.account.started) (done_rows w cleared more w.era.account.started follows al) }
{}
