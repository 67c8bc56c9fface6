//! How many mails a service takes, those of its client and those of the server together: by the octets that it moves and the lengths of the mailboxes.
//! Definitions and laws over the models of the four protocols, no running code: the functions here do nothing, and their contracts state the laws.

ghost use Rattle.std.specs.Prelude.{◌≡◌, ◌≤◌, ◌+◌, ◌*◌, ◌∷◌, ◌++◌, [], ℕ, Bool, true, List, length};
ghost use Rattle.slave_parts.specs.of_eoe.Cutting.{blocks_of};
ghost use Rattle.slave_parts.specs.of_exchange_model.Areas.{Areas, AreMailboxes};
ghost use Rattle.slave_parts.specs.of_exchange_model.Exchange.{Exchange, IsLawful};
ghost use Rattle.slave_parts.specs.of_exchange_model.Laws.{Moment};
ghost use Rattle.slave_parts.specs.of_exchange_model.Rows.{Row};
ghost use Rattle.slave_parts.specs.of_protocol_models.Tables as Tables;
ghost use Rattle.slave_parts.specs.of_protocol_models.CoeServer as CoeServer;
ghost use Rattle.slave_parts.specs.of_protocol_models.CoeMeaning as CoeMeaning;
ghost use Rattle.slave_parts.specs.of_protocol_models.CoeModel.{coe_exchange, is_service as is_coe_service};
ghost use Rattle.slave_parts.specs.of_protocol_models.Files as Files;
ghost use Rattle.slave_parts.specs.of_protocol_models.FoeServer as FoeServer;
ghost use Rattle.slave_parts.specs.of_protocol_models.FoeMeaning as FoeMeaning;
ghost use Rattle.slave_parts.specs.of_protocol_models.FoeModel.{foe_exchange};
ghost use Rattle.slave_parts.specs.of_protocol_models.Elements as Elements;
ghost use Rattle.slave_parts.specs.of_protocol_models.SoeServer as SoeServer;
ghost use Rattle.slave_parts.specs.of_protocol_models.SoeClient as SoeClient;
ghost use Rattle.slave_parts.specs.of_protocol_models.SoeModel.{soe_exchange, is_ready as is_soe_ready};
ghost use Rattle.slave_parts.specs.of_protocol_models.EoeMails.{packet_mails};
ghost use Rattle.slave_parts.specs.of_protocol_models.Network as Network;
ghost use Rattle.slave_parts.specs.of_protocol_models.EoeServer as EoeServer;
ghost use Rattle.slave_parts.specs.of_protocol_models.EoeClient as EoeClient;
ghost use Rattle.slave_parts.specs.of_protocol_models.EoeModel.{eoe_exchange};
ghost use Rattle.few_replies.specs.Counts.{mails_between, mails_within, coe_octets, foe_octets, foe_busy, soe_octets, eoe_mails};
ghost use Rattle.few_replies.specs.RowCounts.{AreCounted, rows_mails, rows_count as counts_of};

/// CoE: two mails for each part of the value that is moved or told, at most, two more, and what the service emits.
pub fn coe_counts<S>()
    ensures { (o : Tables.Tables S) (eoe : Bool) (areas : Areas) → Tables.AreLawful o → AreMailboxes areas → (v : CoeServer.Server S) (q : CoeMeaning.Service) → o.valid v.app ≡ true → is_coe_service q ≡ true →
        mails_between (coe_exchange o eoe areas) v q ≤ mails_within areas (coe_octets o v.app q) + length (CoeMeaning.meaning_of o eoe v.app q).emits }
{}

/// FoE: the same of a file's octets, and two for each time that the file is busy.
pub fn foe_counts<S>()
    ensures { (o : Files.Files S) (areas : Areas) → AreMailboxes areas → (v : FoeServer.Server S) (q : FoeMeaning.Service) →
        mails_between (foe_exchange o areas) v q ≤ mails_within areas (foe_octets o v.app q) + 2 * foe_busy o v.app q }
{}

/// SoE: the same of an element's octets.
pub fn soe_counts<S>()
    ensures { (o : Elements.Elements S) (areas : Areas) → Elements.AreLawful o → AreMailboxes areas → (v : SoeServer.Server S) (q : SoeClient.Service) → is_soe_ready o v ≡ true → SoeClient.is_service q ≡ true →
        mails_between (soe_exchange o areas) v q ≤ mails_within areas (soe_octets o v.app q) }
{}

/// EoE: an address service takes two mails, and a packet no more than it has blocks of 32 octets, and what the slave sends on it.
pub fn eoe_counts<S>()
    ensures between { (o : Network.Network S) (areas : Areas) → Network.IsSound o → AreMailboxes areas → (v : EoeServer.Server S) (q : EoeClient.Service) → Network.is_ready o v.station ≡ true → EoeClient.is_service q ≡ true →
        mails_between (eoe_exchange o areas) v q ≤ eoe_mails q + length (EoeClient.meaning_of o areas.back v.station q).emits }
    // the fragments of a packet, through a mailbox of any length
    ensures fragments { (room frame : ℕ) (octets : List ℕ) → 64 ≤ room → length (packet_mails room octets frame) ≤ blocks_of (length octets) }
{}

/// ROWS HAVE NO MORE MAILS THAN THEIR SERVICES COUNT, told and heard together, at each moment of a session, however its link loses frames.
pub fn rows_count<V, A, M, Q, R, K>()
    ensures { (x : Exchange V A M Q R) (shape : V → K) (count : K → Q → ℕ) → IsLawful x → AreCounted x shape count → (v : V) (front last : List (Row M Q R)) (now : Row M Q R) (held taken accepted : List M) → x.ready v ≡ true →
        Moment x v front last now held taken accepted → rows_mails (front ++ last ++ now ∷ []) ≤ counts_of (count (shape v)) (front ++ last ++ now ∷ []) }
{}
