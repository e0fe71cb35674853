// What a call that refuses says: the reason, with its address where it has one.
ghost use Rattle.std.specs.Prelude.{◌≡◌, Some, is_some, unwrap_or};
ghost use Rattle.std.specs.Option.{option_map_or};
ghost use Rattle.decoder.specs.Question.{why_number};
ghost use Rattle.rules.specs.Outcome.{reason_verdict, number_of, carries_address, place_of, why_in};
ghost use Rattle.rules.specs.Text.{refusal_text};

use decoder::reading::Why;
use std::error::Error;
use std::fmt;

#[derive(Clone, Copy, Debug, PartialEq, Eq)]
pub enum Reason {
    // 1: the layout breaks a rule.
    Layout,
    // 2: the code length is wrong.
    CodeLength,
    // 3: the ledger's length isn't the number of words.
    LedgerLength,
    // 4: the word is in no class, and why.
    NoClass { why: Why, at: u32 },
    // 5: a register field is 9, or 15.
    Register { at: u32 },
    // 6: r13 is written or named outside the rule.
    StackPointer { at: u32 },
    // 7: an access has no guard.
    Access { at: u32 },
    // 8: a register branch has no guard.
    RegisterBranch { at: u32 },
    // 9: a call isn't in slot 3.
    Call { at: u32 },
    // 10: a literal load reads outside the code, or off a multiple of 4.
    LiteralLoad { at: u32 },
    // 11: a direct target is no landing place.
    Target { at: u32 },
    // 12: the patch's lengths or offset do not fit.
    PatchShape,
    // 13: ledger and old bundles disagree.
    Disagreement,
    // 14: a word that branches land on would be inner or data.
    Stranded { at: u32 },
}

impl Reason {
    // The paper's number.
    pub fn number(self) -> u32
        ensures { result ≡ number_of (reason_verdict self) }
    {
        match self {
            Reason::Layout => 1,
            Reason::CodeLength => 2,
            Reason::LedgerLength => 3,
            Reason::NoClass { .. } => 4,
            Reason::Register { .. } => 5,
            Reason::StackPointer { .. } => 6,
            Reason::Access { .. } => 7,
            Reason::RegisterBranch { .. } => 8,
            Reason::Call { .. } => 9,
            Reason::LiteralLoad { .. } => 10,
            Reason::Target { .. } => 11,
            Reason::PatchShape => 12,
            Reason::Disagreement => 13,
            Reason::Stranded { .. } => 14,
        }
    }

    // 4 to 11 and 14 carry an address, the others none.
    pub fn address(self) -> Option<u32>
        ensures carries { is_some result ≡ carries_address (reason_verdict self) }
        ensures place { unwrap_or result 0 ≡ place_of (reason_verdict self) }
    {
        match self {
            Reason::NoClass { at, .. }
            | Reason::Register { at }
            | Reason::StackPointer { at }
            | Reason::Access { at }
            | Reason::RegisterBranch { at }
            | Reason::Call { at }
            | Reason::LiteralLoad { at }
            | Reason::Target { at }
            | Reason::Stranded { at } => Some(at),
            Reason::Layout
            | Reason::CodeLength
            | Reason::LedgerLength
            | Reason::PatchShape
            | Reason::Disagreement => None,
        }
    }

    // Beside 4, why the word is in no class.
    pub fn why(self) -> Option<Why>
        ensures { option_map_or why_number result 0 ≡ why_in (reason_verdict self) }
    {
        match self {
            Reason::NoClass { why, .. } => Some(why),
            _ => None,
        }
    }
}

// `12`, `7 at 131076` or `4 at 131080, why 2`.
impl fmt::Display for Reason {
    ghost output = { λ reason. Some (refusal_text (reason_verdict reason)) };

    fn fmt<W: fmt::Write>(&self, f: &mut fmt::Formatter<W>) -> fmt::Result {
        write!(f, "{}", self.number())?;
        if let Some(at) = self.address() {
            write!(f, " at {at}")?;
        }
        if let Some(why) = self.why() {
            write!(f, ", why {}", u32::from(why))?;
        }
        Ok(())
    }
}

impl Error for Reason {}
