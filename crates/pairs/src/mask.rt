// Data masks, branch masks and test guards: the first words of the guarded pairs.
ghost use Rattle.std.specs.Prelude.{◌≡◌};
ghost use Rattle.pairs.specs.Mask.{has_top, has_place, immediate_of, masks, cleared_bits, is_data_mask, is_branch_mask, tests, tested_bits, is_test};

use decoder::immediate::value;
use decoder::question::{PC, THREAD};
use decoder::reading::{DataFields, Kind, Operand};

const TST: u32 = 8;

const BIC: u32 = 14;

// Bits 31 and 30, those above the sandbox, are set.
fn has_top(value: u32) -> bool
    ensures { result ≡ has_top value }
{
    value / 0x4000_0000 % 4 == 3
}

// Bits 3 to 0, the place within a bundle, are set.
fn has_place(value: u32) -> bool
    ensures { result ≡ has_place value }
{
    value % 16 == 15
}

// An immediate's value; another operand has no bits.
#[tactic(auto, unfolding(crate::specs::Mask::immediate_of))]
fn immediate(operand: Operand) -> u32
    ensures { result ≡ immediate_of operand }
{
    match operand {
        Operand::Immediate { rotation, byte } => value(rotation, byte),
        _ => 0,
    }
}

// An S = 0 bic into r, from any register but r9 and pc.
fn masks(r: u32, fields: DataFields) -> bool
    ensures { result ≡ masks r fields }
{
    (fields.operation == BIC)
        & (fields.s == 0)
        & (fields.rd == r)
        & !(fields.rn == THREAD)
        & !(fields.rn == PC)
}

// The bits that such an immediate bic clears, and none of another word.
#[tactic(auto, unfolding(crate::specs::Mask::cleared_bits))]
fn cleared(r: u32, kind: Kind) -> u32
    ensures { result ≡ cleared_bits r kind }
{
    match kind {
        Kind::Data(fields) if masks(r, fields) => immediate(fields.operand),
        _ => 0,
    }
}

// The word is a data mask of r.
#[tactic(auto, unfolding(crate::specs::Mask::is_data_mask))]
pub fn is_data_mask(r: u32, kind: Kind) -> bool
    ensures { result ≡ is_data_mask r kind }
{
    has_top(cleared(r, kind))
}

// The word is a branch mask of r.
#[tactic(auto, unfolding(crate::specs::Mask::is_branch_mask))]
pub fn is_branch_mask(r: u32, kind: Kind) -> bool
    ensures { result ≡ is_branch_mask r kind }
{
    let bits = cleared(r, kind);
    has_top(bits) & has_place(bits)
}

// A tst of r.
fn tests(r: u32, fields: DataFields) -> bool
    ensures { result ≡ tests r fields }
{
    (fields.operation == TST) & (fields.rn == r)
}

// The bits that an immediate tst of r asks for, and none of another word.
#[tactic(auto, unfolding(crate::specs::Mask::tested_bits))]
fn tested(r: u32, kind: Kind) -> u32
    ensures { result ≡ tested_bits r kind }
{
    match kind {
        Kind::Data(fields) if tests(r, fields) => immediate(fields.operand),
        _ => 0,
    }
}

// The word tests at least the bits of r that a data mask clears.
#[tactic(auto, unfolding(crate::specs::Mask::is_test))]
pub fn is_test(r: u32, kind: Kind) -> bool
    ensures { result ≡ is_test r kind }
{
    has_top(tested(r, kind))
}
