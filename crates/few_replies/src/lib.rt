//! The replies of a slave: how many mails it answers one mail with, whatever the mail is and in whatever state its servers are; and that all replies
//! to a mail that is passed on are heard in its row, also where there are none. Definitions and laws over the models, no running code: the functions
//! here do nothing, and their contracts state the laws.
#![tactic(auto)]

pub mod mail_counts;
pub mod passed_counts;
pub mod passed_model;
pub mod passed_whole;
pub mod passing_gains;
pub mod passing_rows;
pub mod service_counts;
pub mod session_rows;
pub mod slave_calm;
pub mod task_counts;
pub mod whole_counts;
pub mod worked_life;

ghost use Rattle.few_replies.specs.Most.{Tells, AreEnough, begins_packet, is_packet_free};
ghost use Rattle.slave_parts.specs.of_link_mails.Body.{Body};
ghost use Rattle.slave_parts.specs.of_slave_model.Application.{Parts, ArePartsLawful, station_valid};
ghost use Rattle.slave_parts.specs.of_slave_model.Product.{serve};
ghost use Rattle.slave_parts.specs.of_slave_model.Profile.{Profile, IsProfile};
ghost use Rattle.slave_parts.specs.of_slave_model.Server.{Server};
ghost use Rattle.std.specs.Prelude.{◌≡◌, ◌≤◌, ℕ, true, false, length};

/// A SLAVE ANSWERS ONE MAIL WITH FEW: of whatever protocol it is, valid or not, in each AL state and whatever transfers are unfinished, it gives no more
/// mails than the parts of an information, the fragments of an element, those of a packet that goes back, or an answer with an emergency. Only a
/// download to the entry 2F01:01, which sends a packet, is apart; and where none was begun, none is unfinished behind the mail.
pub fn few_replies<T, F, I>()
    ensures few { (o : Parts T F I) (p : Profile) (information element most : ℕ) → ArePartsLawful o → IsProfile p → Tells o information element → AreEnough p information element most →
        (al : ℕ) (j : Server T F I) (b : Body) → station_valid o j.app ≡ true → is_packet_free j ≡ true → begins_packet b ≡ false → length (serve o p al j b).1 ≤ most }
    ensures free { (o : Parts T F I) (p : Profile) (al : ℕ) (j : Server T F I) (b : Body) → is_packet_free j ≡ true → begins_packet b ≡ false → is_packet_free (serve o p al j b).0 ≡ true }
{}
