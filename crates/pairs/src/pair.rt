// The four pairs. Each function takes the readings of two adjacent words of one bundle, as the paper names
// them: a struct of the two would be made for each call and taken apart in it.
ghost use Rattle.std.specs.Prelude.{◌≡◌};
ghost use Rattle.pairs.specs.Pair.{can_be_guarded, mask_guards, test_guards, branch_guards, closes, is_pair};

use crate::mask::{is_branch_mask, is_data_mask, is_test};
use decoder::question::{PC, REGISTERS, SP, base, branch_register, keeps_flags, writes_sp};
use decoder::reading::Reading;

// The conditions of a test guard and of the access that it guards.
const ALWAYS: u32 = 14;

const EQUAL: u32 = 0;

// An access on r may have a guard: r is no other than one of the registers but r13 and r15.
#[tactic(auto, unfolding(crate::specs::Pair::can_be_guarded))]
fn can_be_guarded(r: u32) -> bool
    ensures { result ≡ can_be_guarded r }
{
    (r < REGISTERS) & !(r == SP) & !(r == PC)
}

// An access, guarded by a data mask.
#[tactic(auto, unfolding(crate::specs::Pair::mask_guards))]
pub fn mask_guards(first: Reading, second: Reading) -> bool
    ensures { result ≡ mask_guards first second }
{
    base(second.kind).is_some_and(|r| {
        can_be_guarded(r) && is_data_mask(r, first.kind) & (first.condition == second.condition)
    })
}

// An access, guarded by a test.
#[tactic(auto, unfolding(crate::specs::Pair::test_guards))]
pub fn test_guards(first: Reading, second: Reading) -> bool
    ensures { result ≡ test_guards first second }
{
    base(second.kind).is_some_and(|r| {
        can_be_guarded(r)
            && is_test(r, first.kind) & (first.condition == ALWAYS) & (second.condition == EQUAL)
    })
}

// A register branch, guarded by a branch mask.
#[tactic(auto, unfolding(crate::specs::Pair::branch_guards))]
pub fn branch_guards(first: Reading, second: Reading) -> bool
    ensures { result ≡ branch_guards first second }
{
    branch_register(second.kind).is_some_and(|r| {
        r < REGISTERS && is_branch_mask(r, first.kind) & (first.condition == second.condition)
    })
}

// A write of r13, closed by a data mask of r13.
#[tactic(auto, unfolding(crate::specs::Pair::closes))]
pub fn closes(first: Reading, second: Reading) -> bool
    ensures { result ≡ closes first second }
{
    let write = first.kind;
    let mask = second.kind;
    writes_sp(write)
        && !is_data_mask(SP, write)
            & keeps_flags(write)
            & is_data_mask(SP, mask)
            & (first.condition == second.condition)
}

#[tactic(auto, unfolding(crate::specs::Pair::is_pair))]
pub fn is_pair(first: Reading, second: Reading) -> bool
    ensures { result ≡ is_pair first second }
{
    mask_guards(first, second)
        | test_guards(first, second)
        | branch_guards(first, second)
        | closes(first, second)
}
