// The C interface's calls: the two again, on numbers and slices. A slice is a pointer and a length in C.
// C has no `Layout` and no `Result`, so four parameters stand for the one, and one number for the other: 0
// where accepted; else bits 7..0 are the refusal's number, bits 15..8 say why where that is 4, and the high
// 32 bits are its address, 0 where it has none. All other bits are 0.
#![tactic(auto)]

ghost use Rattle.std.specs.Prelude.{◌≡◌};
ghost use Rattle.rules.specs.Outcome.{verdict_of};
ghost use Rattle.awlthimble.specs.Answer.{packed, layout_of, CheckAnswered, PatchAnswered};

use checker::check::check;
use checker::patch::patch;
use rules::layout::Layout;
use rules::outcome::Reason;

#[tactic(auto, unfolding(crate::specs::Answer::packed))]
fn packed(answer: Result<(), Reason>) -> u64
    ensures { result ≡ packed (verdict_of answer) }
{
    match answer {
        Ok(()) => 0,
        Err(reason) => {
            let why = reason.why().map_or(0, u32::from);
            let address = reason.address().unwrap_or(0);
            reason.number() as u64 + why as u64 * 0x100 + address as u64 * 0x1_0000_0000
        }
    }
}

fn layout(code_start: u32, trampoline_first: u32, trampoline_end: u32, test_pairs: bool) -> Layout
    ensures { result ≡ layout_of code_start trampoline_first trampoline_end test_pairs }
{
    Layout {
        code_start,
        trampoline_first,
        trampoline_end,
        test_pairs,
    }
}

// The check.
pub fn awl_check(
    code_start: u32,
    trampoline_first: u32,
    trampoline_end: u32,
    test_pairs: bool,
    code: &[u8],
    ledger: &mut [u32],
) -> u64
    ensures { CheckAnswered (layout_of code_start trampoline_first trampoline_end test_pairs) code.now ledger.old ledger.new result }
{
    let layout = layout(code_start, trampoline_first, trampoline_end, test_pairs);
    packed(check(layout, code, ledger))
}

// The patch.
pub fn awl_patch(
    code_start: u32,
    trampoline_first: u32,
    trampoline_end: u32,
    test_pairs: bool,
    ledger: &mut [u32],
    offset: usize,
    old_bundles: &mut [u8],
    new_bundles: &[u8],
) -> u64
    ensures { PatchAnswered (layout_of code_start trampoline_first trampoline_end test_pairs) ledger.old offset old_bundles.old new_bundles.now ledger.new old_bundles.new result }
{
    let layout = layout(code_start, trampoline_first, trampoline_end, test_pairs);
    packed(patch(layout, ledger, offset, old_bundles, new_bundles))
}
