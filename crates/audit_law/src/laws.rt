ghost use Rattle.std.specs.Prelude.{List};
ghost use Rattle.mailbox_law.specs.declared.steps.LinkStep.{LinkStep};
ghost use Rattle.capture_audit.specs.Rules.{new_link};
ghost use Rattle.audit_law.specs.Told.{Obeys, told};
ghost use Rattle.audit_law.specs.Laws.{CarriesOnce, OpeningCarriesOnce, OfOpenings, OpeningAdds, StationsAreKnown};

/// One opening of a link, whoever made the capture: where the told accesses break no rule, then for every list of
/// steps that is possible for them, with whatever losses, processor steps and mails given to the slave, each mail sent
/// was taken once and in order, but for at most the last two, and the mails accepted are the first that were given.
pub fn opening_law()
    ensures { OpeningCarriesOnce }
{}

/// A capture that obeys the rules: the accesses told in each opening of a station's link obey them from a new link on,
/// so each mail is sent and accepted once and in order, as [`opening_law`] has it; and the mails that the audit tells of
/// a station are those of its openings, one behind the other.
pub fn capture_law()
    ensures obeys { OfOpenings (λ station out_len in_len before d during. Obeys (new_link out_len in_len) (told station during)) }
    ensures once { OfOpenings (λ station out_len in_len before d during. (steps : List LinkStep) → CarriesOnce out_len in_len (told station during) steps) }
    ensures mails { OfOpenings OpeningAdds }
    ensures stations { StationsAreKnown }
{}
