// The paper's words from the bench, then those of multiple transfers, halfwords, wider masks and whys,
// run through the calls and, row by row, printed: what a call answers, and the ledger where it accepts.
// The set that the paper marks and the words of the requests are proved besides, as tables over the
// definitions (proofs/Table.antt).
#![tactic(auto)]

use checker::check::check;
use checker::patch::patch;
use rules::layout::Layout;
use rules::outcome::Reason;
use std::{array, io};

// The nop, as the paper has it.
const N: u32 = 0xE320_F000;

const NOPS: [u32; 4] = [N; 4];

// The paper's layout with test pairs off.
const NO_TEST_PAIRS: Layout = Layout {
    test_pairs: false,
    ..Layout::PAPER
};

// What a call answered, and the ledger's entries, if any, where it accepts.
fn print_answer(rt: &impl Print, answer: Result<(), Reason>, ledger: &[u32]) -> io::Result<()> {
    match answer {
        Ok(()) => {
            print!(rt; "accepted")?;
            if !ledger.is_empty() {
                print!(rt; ",")?;
            }
            for entry in ledger {
                print!(rt; " {entry}")?;
            }
            println!(rt)
        }
        Err(reason) => println!(rt; "refused {reason}"),
    }
}

// Each word's bytes, little-endian. (`words.map` would ask that WORDS be bounded.)
fn bytes_of<const WORDS: usize>(words: [u32; WORDS]) -> [[u8; 4]; WORDS] {
    array::from_fn(|at| words[at].to_le_bytes())
}

// Regions of one size, each checked.
fn regions<const WORDS: usize>(
    rt: &impl Print,
    layout: Layout,
    rows: &[[u32; WORDS]],
) -> io::Result<()> {
    for row in rows {
        let mut ledger = [0; WORDS];
        let answer = check(layout, bytes_of(*row).as_flattened(), &mut ledger);
        print_answer(rt, answer, &ledger)?;
    }
    Ok(())
}

fn masks(rt: &impl Print) -> io::Result<()> {
    let first = [
        NOPS,
        [0xE3C0_0103, 0xE580_1000, N, N],
        [0xE3C0_020C, 0xE580_1000, N, N],
    ];
    let apart = [N, N, N, 0xE3C0_0103, 0xE580_1000, N, N, N];
    let test = [0xE310_0103, 0x0580_1000, N, N];
    let last = [
        [0x0310_0103, 0x0580_1000, N, N],
        [0xE3C0_013F, 0xE12F_FF10, N, N],
    ];
    regions(rt, Layout::PAPER, &first)?;
    regions(rt, Layout::PAPER, &[apart])?;
    regions(rt, Layout::PAPER, &[test])?;
    regions(rt, NO_TEST_PAIRS, &[test])?;
    regions(rt, Layout::PAPER, &last)
}

fn branches(rt: &impl Print) -> io::Result<()> {
    let rows = [
        [N, N, N, 0xEBFF_FFFB],
        [0xEBFF_FFFE, N, N, N],
        [0xE3C0_0103, 0xE580_1000, 0xEAFF_FFFD, N],
        [N, N, N, 0xEAFF_BFFB],
        [N, N, N, 0xEAFF_BFFC],
    ];
    regions(rt, Layout::PAPER, &rows)
}

fn heads(rt: &impl Print) -> io::Result<()> {
    let rows = [
        [0xE125_BE70, 0xFFFF_FFFF, 0xFFFF_FFFF, 0xFFFF_FFFF],
        [N, 0xE125_BE70, N, N],
        [0xE1A0_D000, 0xE3CD_D103, N, N],
        [0xE1B0_D000, 0xE3CD_D103, N, N],
        [0xE00F_0291, N, N, N],
        [0xE589_1000, N, N, N],
        [0xE780_1002, N, N, N],
        [0xEF00_0000, N, N, N],
    ];
    regions(rt, Layout::PAPER, &rows)
}

fn literals(rt: &impl Print) -> io::Result<()> {
    let rows = [
        [0xE59F_0004, N, N, N],
        [0xE59F_0008, N, N, N],
        [0xE59F_0006, N, N, N],
    ];
    let branch = [N, N, N, 0xEA00_0000, N, N, N, N];
    regions(rt, Layout::PAPER, &rows)?;
    regions(rt, Layout::PAPER, &[branch])
}

fn multiple_transfers(rt: &impl Print) -> io::Result<()> {
    let rows = [
        [0xE92D_4010, N, N, N],
        [0xE8BD_4010, N, N, N],
        [0xE8BD_8010, N, N, N],
        [0xE3C0_0103, 0xE890_0006, N, N],
        [0xE890_0006, N, N, N],
        [0xE8A0_0001, N, N, N],
        [0xE890_0000, N, N, N],
        [0xE8D0_0006, N, N, N],
        [0xE89D_2001, N, N, N],
        [0xE8BD_2001, N, N, N],
        [0xE880_2000, N, N, N],
    ];
    regions(rt, Layout::PAPER, &rows)
}

fn halfwords(rt: &impl Print) -> io::Result<()> {
    let rows = [
        [0xE3C0_0103, 0xE1D0_10B0, N, N],
        [0xE3C0_0103, 0xE1D0_10D0, N, N],
        [0xE3C0_0103, 0xE1D0_10F0, N, N],
        [0xE3C0_0103, 0xE1C0_10D0, N, N],
        [0xE3C0_0103, 0xE1C0_10F0, N, N],
        [0xE190_10B2, N, N, N],
        [0xE1DF_10B4, N, N, N],
        [0xE3C0_0103, 0xE1D0_D0B0, N, N],
        [0xE0F0_10B2, N, N, N],
        [0xE310_0103, 0x01D0_10B0, N, N],
    ];
    regions(rt, Layout::PAPER, &rows)
}

fn wider_masks(rt: &impl Print) -> io::Result<()> {
    let first = [
        [0xE3C0_013F, 0xE580_1000, N, N],
        [0xE3C1_0103, 0xE580_1000, N, N],
        [0xE3C0_1103, 0xE580_1000, N, N],
        [0xE3C0_0102, 0xE580_1000, N, N],
        [0xE3C9_0103, 0xE580_1000, N, N],
        [0xE3C0_D103, N, N, N],
    ];
    let test = [0xE310_01FF, 0x0580_1000, N, N];
    let last = [
        [0xE3C0_01FF, 0xE12F_FF10, N, N],
        [0xE3C0_010F, 0xE12F_FF10, N, N],
        [0xE3C0_D103, 0xE3CD_D103, N, N],
        [0xE1A0_D000, 0xE3CD_D13F, 0xE12F_FF1D, N],
    ];
    regions(rt, Layout::PAPER, &first)?;
    regions(rt, Layout::PAPER, &[test])?;
    regions(rt, NO_TEST_PAIRS, &[test])?;
    regions(rt, Layout::PAPER, &last)
}

fn whys(rt: &impl Print) -> io::Result<()> {
    let rows = [
        [0xF3C0_0103, N, N, N],
        [0xEF00_0000, N, N, N],
        [0xE780_1002, N, N, N],
        [0xE7F0_00F0, N, N, N],
        [0xE320_F001, N, N, N],
        [0xFF00_0000, N, N, N],
        [0xF780_1002, N, N, N],
        [0xE780_1012, N, N, N],
        [0xEE00_0000, N, N, N],
        [N, N, 0xE125_BE70, N],
        [N, N, N, 0xE125_BE70],
    ];
    regions(rt, Layout::PAPER, &rows)
}

// One bundle patched, and the ledger with it.
fn patched(
    rt: &impl Print,
    ledger: &mut [u32],
    offset: usize,
    old: [u32; 4],
    new: [u32; 4],
) -> io::Result<()> {
    let mut old = bytes_of(old);
    let new = bytes_of(new);
    let answer = patch(
        Layout::PAPER,
        ledger,
        offset,
        old.as_flattened_mut(),
        new.as_flattened(),
    );
    print_answer(rt, answer, ledger)
}

// The region that `literals` ends with: its second bundle is landed on, until the first is patched.
fn patches(rt: &impl Print) -> io::Result<()> {
    let branch = [N, N, N, 0xEA00_0000];
    let access = [0xE3C0_0103, 0xE580_1000, N, N];
    let mut ledger = [0, 0, 0, 0, 0, 4, 0, 0];
    patched(rt, &mut ledger, 16, NOPS, access)?;
    patched(rt, &mut ledger, 0, branch, NOPS)?;
    patched(rt, &mut ledger, 16, NOPS, access)
}

// Two bundles, the first of which has a ledger of another edition of the rules, and then its own.
fn old_ledger(rt: &impl Print) -> io::Result<()> {
    let sp = [0xE3C0_D103, 0xE3CD_D103, N, N];
    patched(rt, &mut [0, 1, 0, 0, 0, 0, 0, 0], 0, sp, NOPS)?;
    patched(rt, &mut [0; 8], 0, sp, NOPS)
}

// Patches that bring in words of no class, the first of two and one beside a stranded word.
fn patched_whys(rt: &impl Print) -> io::Result<()> {
    let two = [N, 0xE780_1002, 0xEF00_0000, N];
    let beside = [0xE3C0_0103, 0xE580_1000, N, 0xEF00_0000];
    patched(rt, &mut [0; 8], 16, NOPS, two)?;
    patched(rt, &mut [0, 0, 0, 0, 0, 4, 0, 0], 16, NOPS, beside)
}

// Lengths alone: zeros, which are plain data words.
fn lengths(rt: &impl Print) -> io::Result<()> {
    let code = [0; 65552];
    let mut ledger = [0; 16388];
    for length in [0, 15, 65552, 65536] {
        let answer = check(Layout::PAPER, &code[..length], &mut ledger[..length / 4]);
        print_answer(rt, answer, &[])?;
    }
    Ok(())
}

fn main(rt: HostRuntime) -> io::Result<()> {
    masks(&rt)?;
    branches(&rt)?;
    heads(&rt)?;
    literals(&rt)?;
    multiple_transfers(&rt)?;
    halfwords(&rt)?;
    wider_masks(&rt)?;
    whys(&rt)?;
    patches(&rt)?;
    old_ledger(&rt)?;
    patched_whys(&rt)?;
    lengths(&rt)
}
