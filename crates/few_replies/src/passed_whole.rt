//! Mails that are passed on, over a session: all replies of such a mail are heard in its row, also where there are none. Definitions and laws, no
//! running code.

ghost use Rattle.slave_parts.specs.of_exchange_model.Exchange.{Exchange, IsLawful};
ghost use Rattle.slave_parts.specs.of_exchange_model.Rows.{Row, IsWhole};
ghost use Rattle.slave_parts.specs.of_life_model.Lives.{Spot, Era};
ghost use Rattle.few_replies.specs.Led.{RepliesFirst, IsLed, NoneUnheard};
ghost use Rattle.few_replies.specs.Silent.{is_passed, IsForeseenRight, EachHadNone, HeardAll};
ghost use Rattle.slave_parts.specs.of_segment_model.Record.{Frame};
ghost use Rattle.slave_parts.specs.of_segment_model.Slaves.{Registers, Processor, Slave};
ghost use Rattle.slave_parts.specs.of_serving_model.Tagged.{IsServed, Tagged, Asked, Rowed, ideal, tagged};
ghost use Rattle.std.specs.Prelude.{◌≡◌, ℕ, Bool, Option, List};

/// A service of one mail that is always answered isn't over before a reply of it was heard: a master that reads the status of mailbox 0 only where
/// nothing is in doubt, and counts an empty read of mailbox 1 only behind a step of the slave, hears it first.
pub fn heard_law<V, A, M, Q, R>()
    ensures { (x : Exchange V A M Q R) → IsLawful x → (acknowledged : Q → Bool) (processor : Processor V) (more : M → Bool) (passed : Q → Bool) (spot : Spot) (opened : ℕ) (v : V) (r : Registers) (fs : List (Frame M)) (counts : Bool)
        (e : Era M Q R) (n : Slave V M) → IsLed x acknowledged processor more passed spot opened v r fs counts e n → NoneUnheard x passed e }
{}

/// A mail that is passed on, and is over without a reply, had none: so it was foreseen as answered just where a reply was heard, and of each row all
/// replies of the server's step were heard, in order. It is for servers whose replies come before their emissions.
pub fn silent_law<V, M, Q, R, C>()
    ensures silent { (x : Exchange V V M Q R) (core : V → C) → IsServed x core → RepliesFirst x → (acknowledged : Asked M Q → Bool) (processor : Processor (Rowed V M Q)) (more : Tagged M Q → Bool) (spot : Spot) (opened : ℕ)
        (v : Rowed V M Q) (r : Registers) (fs : List (Frame (Tagged M Q))) (counts : Bool) (e : Era (Tagged M Q) (Asked M Q) (Option R)) (n : Slave (Rowed V M Q) (Tagged M Q)) →
        IsLed (tagged x) acknowledged processor more is_passed spot opened v r fs counts e n → EachHadNone x e }
    // Of a row that is over as rows are, foreseen right, all replies were heard.
    ensures whole { (x : Exchange V V M Q R) (w : Rowed V M Q) (r : Row (Tagged M Q) (Asked M Q) (Option R)) (m : M) (answers : Bool) → r.service ≡ Asked.Passed m answers → IsForeseenRight x (ideal x w) m answers →
        IsWhole (tagged x) w r → HeardAll x w m r }
{}
