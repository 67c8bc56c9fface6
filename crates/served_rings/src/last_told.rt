//! That a slave's last reply to a mail tells that it is the last, by its octets. Definitions and laws over the models, no running code: the functions
//! here do nothing, and their contracts state the laws.

ghost use Rattle.run_work.specs.of_protocol_models.CoeClient as CoeClient;
ghost use Rattle.run_work.specs.of_protocol_models.CoeOctets.{coe_mail_written};
ghost use Rattle.run_work.specs.of_protocol_models.CoeServer.{information_parts};
ghost use Rattle.served_places.specs.of_link_mails.Body.{Body};
ghost use Rattle.run_work.specs.of_master_hand.Spoken.{is_followed};
ghost use Rattle.run_work.specs.of_few_replies.Heard.{LastTold};
ghost use Rattle.served_places.specs.of_serving_model.Passing.{ends_told, LastTells};
ghost use Rattle.served_places.specs.of_serving_model.Tagged.{Asked, tagged};
ghost use Rattle.run_work.specs.of_slave_model.Application.{Parts, ArePartsLawful};
ghost use Rattle.run_work.specs.of_slave_model.Profile.{Profile, IsProfile};
ghost use Rattle.run_work.specs.of_slave_model.Server.{told_by};
ghost use Rattle.run_work.specs.of_slave_parts.Parts.{parts};
ghost use Rattle.run_work.specs.of_slave_parts.Served.{product_whole};
ghost use Rattle.run_work.specs.of_protocol_models.SoeClient as SoeClient;
ghost use Rattle.run_work.specs.of_protocol_models.Elements.{Target, target};
ghost use Rattle.run_work.specs.of_protocol_models.SoeMails.{fragments_of};
ghost use Rattle.run_work.specs.of_protocol_models.SoeOctets.{soe_mail_written};
ghost use Rattle.std.specs.Prelude.{◌≡◌, ℕ, ◌<◌, Bool, true, false, List, [], ◌∷◌, map, replicate, length};

/// THE PARTS OF AN ANSWER go on but the last: those of an information, and the fragments of an element, where the mailbox has room for an octet of them.
pub fn parts_told()
    ensures information { (fuel opcode part : ℕ) (bytes : List ℕ) → 0 < part → length bytes < fuel →
        ends_told CoeClient.is_incomplete (information_parts fuel opcode part bytes) ≡ true }
    ensures fragments { (room opcode : ℕ) (t : Target) (bytes : List ℕ) → 10 < room →
        ends_told SoeClient.is_incomplete (fragments_of room opcode t bytes) ≡ true }
{}

/// Worked rows: through mailboxes of 64 a list of 60 octets goes in two parts, and so does an element of 60 octets; the first tells in its octets that
/// another follows, and the second that none does. Where a mailbox has no room for an octet of a part none tells that.
pub fn told_rows()
    ensures information { map (λ m. is_followed (told_by coe_mail_written m)) (information_parts 61 2 52 (replicate 60 7)) ≡ true ∷ false ∷ [] }
    ensures fragments { map (λ m. is_followed (told_by soe_mail_written m)) (fragments_of 64 2 (target 0 100 64) (replicate 60 7)) ≡ true ∷ false ∷ [] }
    ensures none { map (λ m. is_followed (told_by coe_mail_written m)) (information_parts 2 2 0 (7 ∷ [])) ≡ true ∷ true ∷ [] }
{}

/// A SLAVE'S LAST REPLY TELLS that no other follows, by the incomplete bit in its octets: whatever mail is taken, valid or not, in each AL state and
/// whatever transfers are unfinished, there is no reply to it, or all replies go on but the last.
pub fn last_told<T, F, I>()
    ensures { (o : Parts T F I) (p : Profile) → ArePartsLawful o → IsProfile p → LastTells (product_whole o p) is_followed }
{}

/// So it is of a slave's real parts: its object dictionary, its store of files and its table of IDNs.
pub fn parts_last_told()
    ensures { (p : Profile) → IsProfile p → LastTells (product_whole parts p) is_followed }
{
    slave_parts::parts_are_lawful();
}

/// So it is of services and mails that are passed on as one exchange, where a mail that says itself that others follow isn't foreseen to be answered: of
/// a mail that is, and has no reply, the mail itself is made up as one.
pub fn passed_told<T, F, I>()
    ensures { (o : Parts T F I) (p : Profile) → ArePartsLawful o → IsProfile p → (m : Body) (answers : Bool) → (answers ≡ true → is_followed m ≡ false) →
        LastTold (tagged (product_whole o p)) (λ t. is_followed t.mail) (Asked.Passed m answers) }
{}
