ghost use Rattle.std.specs.Prelude.{◌≡◌, map, IfOk};
ghost use Rattle.code_texts.specs.Family.{word_of, report_of, title_of, is_of_services, codes_of};
ghost use Rattle.code_texts.specs.Rows.{rows_of, code_of, text_of};

use crate::program::{AUDIT_RULES, FAULTS, RULES, STATUSES};
use crate::services::{
    ABORTS, AL_STATUS_CODES, EOE_RESULTS, FOE_ERRORS, MAILBOX_ERRORS, SOE_ERRORS,
};
use std::alloc::{AllocError, Global};

/// What a code is one of.
#[derive(Clone, Copy)]
pub enum Family {
    /// A rule of a scenario file, by which it is refused.
    Rule,
    /// A fault of a capture file.
    Fault,
    /// A rule of the mailboxes that a capture breaks.
    AuditRule,
    /// What the program ends with.
    Status,
    /// An SDO abort code.
    Abort,
    /// An error of FoE.
    FoeError,
    /// An error of SoE.
    SoeError,
    /// A result of an EoE request.
    EoeResult,
    /// An error of a mailbox.
    MailboxError,
    /// An AL status code.
    AlStatus,
}

/// All families, in the order in which they are listed.
pub const FAMILIES: [Family; 10] = [
    Family::Rule,
    Family::Fault,
    Family::AuditRule,
    Family::Status,
    Family::Abort,
    Family::FoeError,
    Family::SoeError,
    Family::EoeResult,
    Family::MailboxError,
    Family::AlStatus,
];

impl Family {
    /// The word by which its codes are asked for.
    pub fn word(self) -> &'static str
        ensures { result.now ≡ word_of self }
    {
        match self {
            Family::Rule => "rule",
            Family::Fault => "fault",
            Family::AuditRule => "audit",
            Family::Status => "status",
            Family::Abort => "abort",
            Family::FoeError => "foe",
            Family::SoeError => "soe",
            Family::EoeResult => "eoe",
            Family::MailboxError => "mailbox",
            Family::AlStatus => "refused",
        }
    }

    /// The first word of a line of a report that tells such a code.
    pub fn report(self) -> &'static str
        ensures { result.now ≡ report_of self }
    {
        match self {
            Family::Rule => "refused",
            Family::Fault => "refused",
            Family::AlStatus => "AL",
            _ => self.word(),
        }
    }

    /// What such a code is.
    pub fn title(self) -> &'static str
        ensures { result.now ≡ title_of self }
    {
        match self {
            Family::Rule => "refusal of a scenario",
            Family::Fault => "refusal of a capture",
            Family::AuditRule => "audit rule",
            Family::Status => "exit status",
            Family::Abort => "SDO abort code",
            Family::FoeError => "FoE error",
            Family::SoeError => "SoE error",
            Family::EoeResult => "EoE result",
            Family::MailboxError => "mailbox error",
            Family::AlStatus => "AL status code",
        }
    }

    /// Whether services are refused with its codes: these are hexadecimal numbers of as many digits.
    pub fn is_of_services(self) -> bool
        ensures { result ≡ is_of_services self }
    {
        !matches!(
            self,
            Family::Rule | Family::Fault | Family::AuditRule | Family::Status
        )
    }

    /// Its rows, in rising order: a line each, with the code, a blank and what it says.
    pub fn codes(self) -> &'static str
        ensures { result.now ≡ codes_of self }
    {
        match self {
            Family::Rule => RULES,
            Family::Fault => FAULTS,
            Family::AuditRule => AUDIT_RULES,
            Family::Status => STATUSES,
            Family::Abort => ABORTS,
            Family::FoeError => FOE_ERRORS,
            Family::SoeError => SOE_ERRORS,
            Family::EoeResult => EOE_RESULTS,
            Family::MailboxError => MAILBOX_ERRORS,
            Family::AlStatus => AL_STATUS_CODES,
        }
    }
}

/// The rows of a family.
pub(crate) fn rows(alloc: Global, family: Family) -> Result<Vec<&'static str>, AllocError>
    ensures { IfOk result (λ rows. map (λ row. row.now) rows.items ≡ rows_of family) }
{
    family.codes().lines().collect(alloc)
}

/// A row's code, and what it says.
#[tactic(auto, unfolding(crate::specs::Rows::code_of, crate::specs::Rows::text_of))]
pub(crate) fn parts(row: &str) -> (&str, &str)
    ensures code { result.0.now ≡ code_of row.now }
    ensures text { result.1.now ≡ text_of row.now }
{
    match row.split_once(' ') {
        Some(parts) => parts,
        None => (row, ""),
    }
}
