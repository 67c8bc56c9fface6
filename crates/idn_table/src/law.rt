ghost use Rattle.protocol_models.specs.of_exchange_model.Areas.{Areas, AreMailboxes};
ghost use Rattle.protocol_models.specs.of_exchange_model.Exchange.{IsLawful};
ghost use Rattle.protocol_models.specs.Elements.{AreLawful};
ghost use Rattle.protocol_models.specs.SoeOctets.{soe_mail_exchange};
ghost use Rattle.idn_table.specs.Idns.{idn_elements};

/// The table of IDNs is one over which SoE keeps the laws of an exchange: for each element, value and pair of mailbox lengths, from a server
/// without an unfinished join, over the octets of mails. It does nothing; its contract is the law.
pub fn idns_are_lawful()
    ensures table { AreLawful idn_elements }
    ensures mails { (areas : Areas) → AreMailboxes areas → IsLawful (soe_mail_exchange idn_elements areas) }
{}
