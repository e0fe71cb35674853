// The calls of awlthimble, exported to C. A crate is a library or a static library, and no crate can
// stand on this one.
#![tactic(auto)]

ghost use Rattle.awlthimble.specs.Answer.{layout_of, CheckAnswered, PatchAnswered};

// The check.
#[unsafe(no_mangle)]
pub extern "C" fn awl_check(
    code_start: u32,
    trampoline_first: u32,
    trampoline_end: u32,
    test_pairs: bool,
    code: &[u8],
    ledger: &mut [u32],
) -> u64
    ensures { CheckAnswered (layout_of code_start trampoline_first trampoline_end test_pairs) code.now ledger.old ledger.new result }
{
    awlthimble::awl_check(
        code_start,
        trampoline_first,
        trampoline_end,
        test_pairs,
        code,
        ledger,
    )
}

// The patch.
#[unsafe(no_mangle)]
pub extern "C" fn awl_patch(
    code_start: u32,
    trampoline_first: u32,
    trampoline_end: u32,
    test_pairs: bool,
    ledger: &mut [u32],
    offset: usize,
    old_bundles: &mut [u8],
    new_bundles: &[u8],
) -> u64
    ensures { PatchAnswered (layout_of code_start trampoline_first trampoline_end test_pairs) ledger.old offset old_bundles.old new_bundles.now ledger.new old_bundles.new result }
{
    awlthimble::awl_patch(
        code_start,
        trampoline_first,
        trampoline_end,
        test_pairs,
        ledger,
        offset,
        old_bundles,
        new_bundles,
    )
}
