// The layout, and what rule 1 and rule 2 ask of it and of a code length.
ghost use Rattle.std.specs.Prelude.{◌≡◌};
ghost use Rattle.rules.specs.Layout.{layout_holds, length_holds};

// One past the last address of the sandbox.
pub const SANDBOX_END: u64 = 0x4000_0000;
// The most bytes of code.
pub const CODE_LIMIT: usize = 65536;

const TRAMPOLINES_FROM: u32 = 65536;

const TRAMPOLINES_TO: u32 = 131_072;

const BUNDLE: u32 = 16;

#[derive(Clone, Copy, Debug, PartialEq, Eq)]
pub struct Layout {
    pub code_start: u32,
    pub trampoline_first: u32,
    // Exclusive.
    pub trampoline_end: u32,
    // The switch for test pairs.
    pub test_pairs: bool,
}

impl Layout {
    // That of the paper's bench.
    pub const PAPER: Layout = Layout {
        code_start: 131_072,
        trampoline_first: 65536,
        trampoline_end: 131_072,
        test_pairs: true,
    };
}

// Rule 1 is kept. The length is used as given, whatever it is.
#[tactic(auto, unfolding(crate::specs::Layout::layout_holds, crate::specs::Layout::sandbox_end))]
pub fn layout_holds(layout: Layout, length: usize) -> bool
    ensures { result ≡ layout_holds layout length }
{
    let Layout {
        code_start: start,
        trampoline_first: first,
        trampoline_end: end,
        ..
    } = layout;
    let whole = (start % BUNDLE == 0) & (first % BUNDLE == 0) & (end % BUNDLE == 0);
    let ordered = (TRAMPOLINES_FROM <= first)
        & (first <= end)
        & (end <= TRAMPOLINES_TO)
        & (TRAMPOLINES_TO <= start);
    length as u64 <= SANDBOX_END && whole & ordered & (start as u64 + length as u64 <= SANDBOX_END)
}

// Rule 2 is kept.
#[tactic(auto, unfolding(crate::specs::Layout::length_holds, crate::specs::Layout::code_limit))]
pub fn length_holds(length: usize) -> bool
    ensures { result ≡ length_holds length }
{
    (16..=CODE_LIMIT).contains(&length) & (length % 16 == 0)
}
