ghost use Rattle.std.specs.Prelude.{◌≡◌, ℕ, Bool, List};
ghost use Rattle.idn_table.specs.of_exchange_model.Areas.{Areas};
ghost use Rattle.idn_table.specs.of_mailbox_mail.declared.mail.Kind.TheVariants.{SoE};
ghost use Rattle.idn_table.specs.of_protocol_models.Elements.{Elements};
ghost use Rattle.idn_table.specs.of_protocol_models.SoeServer.{Server, soe_outcome};
ghost use Rattle.idn_table.specs.of_protocol_models.SoeOctets.{body_heard, mail_with, soe_mail_exchange};
ghost use Rattle.soe_server.specs.Serving.{Serving, join_of, outcome_of, served_of};

/// What `take` did with a mail's body is the step of the exchange of mails: the same table, join and count, and the mails that `next` then
/// gives. It holds over each kind of table, so over the table of IDNs.
pub fn calls_are_the_exchange<S>()
    ensures { (o : Elements S) (areas : Areas) (v : Server S) (old new : Serving) (app : S) (counts : Bool) (body : List ℕ) → v.join ≡ join_of old → areas.back ≡ old.room →
        soe_outcome o old.room v.app (join_of old) (body_heard body) ≡ outcome_of app new counts →
        (soe_mail_exchange o areas).serve v (mail_with SoE body) ≡ served_of app v.handled new counts }
{}
