// Rules 4 to 9, each a yes where the word breaks it, and the word's setting, which rules 10 and 11 need too.
// before and next are the words beside it in its bundle. Each rule is handed what the paper says it looks at,
// and no whole setting: so its type says what cannot matter.
ghost use Rattle.std.specs.Prelude.{◌≡◌};
ghost use Rattle.rules.specs.Outcome.{number_of, verdict_of, word_verdict};
ghost use Rattle.rules.specs.Rule.{rule4, rule5, rule6, wants_guard, rule7, rule8, rule9, landable, rules_of, fault_of};

use crate::layout::Layout;
use crate::outcome::Reason;
use crate::region::Region;
use decoder::place::{direct_target, literal};
use decoder::question::{
    PC, REGISTERS, SP, THREAD, base, branch_register, in_no_class, is_call, names, takes_sp,
    writes_sp,
};
use decoder::reading::{Kind, Reading};
use pairs::mask::is_data_mask;
use pairs::pair::{branch_guards, closes, mask_guards, test_guards};
use pairs::role::Role;

// 4: the word is in no class.
#[tactic(auto, unfolding(crate::specs::Rule::rule4))]
pub fn rule4(kind: Kind) -> bool
    ensures { result ≡ rule4 kind }
{
    in_no_class(kind)
}

// 5: a register field is 9, or is 15 other than a literal load's base.
#[tactic(auto, unfolding(crate::specs::Rule::rule5))]
pub fn rule5(kind: Kind) -> bool
    ensures { result ≡ rule5 kind }
{
    names(THREAD, kind) | names(PC, kind)
}

// 6: r13 is written or named outside the rule of pairs.
#[tactic(auto, unfolding(crate::specs::Rule::rule6))]
pub fn rule6(word: Reading, next: Reading) -> bool
    ensures { result ≡ rule6 word next }
{
    takes_sp(word.kind)
        || writes_sp(word.kind) && !is_data_mask(SP, word.kind) & !closes(word, next)
}

#[tactic(auto, unfolding(crate::specs::Rule::wants_guard))]
fn wants_guard(r: u32) -> bool
    ensures { result ≡ wants_guard r }
{
    (r < REGISTERS) & !(r == THREAD) & !(r == SP) & !(r == PC)
}

// 7: an access has no guard, or only a test guard with the switch off.
#[tactic(auto, unfolding(crate::specs::Rule::rule7))]
pub fn rule7(layout: Layout, before: Reading, word: Reading) -> bool
    ensures { result ≡ rule7 layout before word }
{
    base(word.kind).is_some_and(wants_guard)
        && !(mask_guards(before, word) | (layout.test_pairs & test_guards(before, word)))
}

// 8: a register branch has no guard.
#[tactic(auto, unfolding(crate::specs::Rule::rule8))]
pub fn rule8(before: Reading, word: Reading) -> bool
    ensures { result ≡ rule8 before word }
{
    branch_register(word.kind).is_some_and(|r| r < REGISTERS) && !branch_guards(before, word)
}

// 9: a call isn't in slot 3.
#[tactic(auto, unfolding(crate::specs::Rule::rule9))]
pub fn rule9(kind: Kind, slot: u32) -> bool
    ensures { result ≡ rule9 kind slot }
{
    is_call(kind) & !(slot == 3)
}

// The roles that a direct branch may land on. It is promised for every number, so it takes no `Role`.
#[tactic(auto, unfolding(crate::specs::Rule::landable))]
pub fn landable(role: u32) -> bool
    ensures { result ≡ landable role }
{
    (role == u32::from(Role::Plain)) | (role == u32::from(Role::Head))
}

// A word in its region and its bundle.
#[derive(Clone, Copy, Debug, PartialEq, Eq)]
pub struct Setting {
    pub region: Region,
    pub before: Reading,
    pub word: Reading,
    pub next: Reading,
    pub slot: u32,
    pub address: u32,
    // That of the word that its direct target is, if any: a number, as `Region::rule11` takes every one.
    pub role: u32,
}

impl Setting {
    // Which of rules 4 to 11 the word breaks, in order.
    #[tactic(auto, unfolding(crate::specs::Rule::rules_of))]
    pub fn rules(self) -> [bool; 8]
        ensures { result ≡ rules_of self.region.layout self.region.words self.before self.word self.next self.slot self.address self.role }
    {
        let kind = self.word.kind;
        [
            rule4(kind),
            rule5(kind),
            rule6(self.word, self.next),
            rule7(self.region.layout, self.before, self.word),
            rule8(self.before, self.word),
            rule9(kind, self.slot),
            self.region.rule10(literal(self.word, self.address)),
            self.region
                .rule11(direct_target(self.word, self.address), self.role),
        ]
    }

    // The reason of the lowest number that the word breaks, with its address.
    #[tactic(auto, unfolding(crate::specs::Rule::fault_of, crate::specs::Rule::rules_of, crate::specs::Rule::lowest_from, crate::specs::Rule::rule4, decoder::specs::Question::in_no_class))]
    pub fn fault(self) -> Result<(), Reason>
        ensures number { number_of (verdict_of result) ≡ fault_of self.region.layout self.region.words self.before self.word self.next self.slot self.address self.role }
        ensures told { verdict_of result ≡ word_verdict self.word.kind (fault_of self.region.layout self.region.words self.before self.word self.next self.slot self.address self.role) self.address }
    {
        let at = self.address;
        let broken = self.rules();
        if let Kind::NoClass(why) = self.word.kind {
            return Err(Reason::NoClass { why, at });
        }
        // 5 to 11, in their places behind that of 4.
        match broken {
            [_, true, ..] => Err(Reason::Register { at }),
            [_, _, true, ..] => Err(Reason::StackPointer { at }),
            [_, _, _, true, ..] => Err(Reason::Access { at }),
            [_, _, _, _, true, ..] => Err(Reason::RegisterBranch { at }),
            [_, _, _, _, _, true, ..] => Err(Reason::Call { at }),
            [_, _, _, _, _, _, true, _] => Err(Reason::LiteralLoad { at }),
            [_, _, _, _, _, _, _, true] => Err(Reason::Target { at }),
            _ => Ok(()),
        }
    }
}
