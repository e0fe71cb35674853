// The classes of a word, and its reading. A word's bits high..low are word / 2^low % 2^(high - low + 1), as
// the definitions have them, also where low is 0: the proofs of `kind` and `low_kind` need the same term.
ghost use Rattle.std.specs.Prelude.{◌≡◌, false, ◌≤◌, eqb};
ghost use Rattle.decoder.specs.Bits.{bits};
ghost use Rattle.decoder.specs.Word.{condition_of, is_compare, is_move, is_data, operand_of, is_multiply, is_any_access, why_of, kind_of, reading_of};

use crate::access::{access_kind, is_any_access};
use crate::reading::{DataFields, Kind, MultiplyFields, Operand, Reading, Why};

// The nop, to the bit.
const NOP: u32 = 0xE320_F000;

// Operations 8 to 11 (tst, teq, cmp, cmn) write no register.
#[tactic(auto, unfolding(crate::specs::Word::is_compare))]
pub(crate) fn is_compare(operation: u32) -> bool
    ensures { result ≡ is_compare operation }
{
    matches!(operation, 8..=11)
}

// Operations 13 and 15 (mov, mvn) have no Rn.
#[tactic(auto, unfolding(crate::specs::Word::is_move))]
pub(crate) fn is_move(operation: u32) -> bool
    ensures { result ≡ is_move operation }
{
    matches!(operation, 13 | 15)
}

#[tactic(auto, unfolding(crate::specs::Word::is_data))]
fn is_data(word: u32) -> bool
    ensures { result ≡ is_data word }
{
    let group = word / 0x200_0000 % 8;
    let bit4 = word / 16 % 2;
    let bit7 = word / 128 % 2;
    let shape = (group == 1) | ((group == 0) & ((bit4 == 0) | ((bit7 == 0) & (bit4 == 1))));
    let operation = word / 0x20_0000 % 16;
    let flags = (word / 0x10_0000 % 2 == 1) & (word / 0x1000 % 16 == 0);
    let compares = !is_compare(operation) | flags;
    let moves = !is_move(operation) | (word / 0x1_0000 % 16 == 0);
    shape & compares & moves
}

#[tactic(auto, unfolding(crate::specs::Word::operand_of))]
fn operand(word: u32) -> Operand
    ensures { result ≡ operand_of word }
{
    if word / 0x200_0000 % 8 == 1 {
        return Operand::Immediate {
            rotation: word / 256 % 16,
            byte: word / 1 % 256,
        };
    }
    if word / 16 % 2 == 0 {
        return Operand::Shifted {
            shift: word / 32 % 4,
            amount: word / 128 % 32,
            rm: word / 1 % 16,
        };
    }
    Operand::ShiftedByRs {
        shift: word / 32 % 4,
        rs: word / 256 % 16,
        rm: word / 1 % 16,
    }
}

#[tactic(auto, unfolding(crate::specs::Word::is_multiply))]
fn is_multiply(word: u32) -> bool
    ensures { result ≡ is_multiply word }
{
    let head = word / 0x20_0000 % 128;
    let plain = (head == 0) & (word / 0x1000 % 16 == 0);
    (plain | (head == 1)) & (word / 16 % 16 == 9)
}

// Why a word that no class takes is in none, its condition apart.
#[tactic(auto, unfolding(crate::specs::Word::why_of))]
fn why(word: u32) -> Why
    requires { eqb (condition_of word) 15 ≡ false }
    ensures { result ≡ why_of word }
{
    if word / 0x100_0000 % 16 == 15 {
        return Why::SystemCall;
    }
    if (word / 0x200_0000 % 8 == 3) & (word / 16 % 2 == 0) {
        return Why::RegisterIndexed;
    }
    Why::Unlisted
}

// Bits 27..25 are 0 or 1, and the word is no access.
fn low_kind(word: u32) -> Kind
    requires { (eqb (condition_of word) 15 ≡ false) × (bits word 27 25 ≤ 1) × (is_any_access word ≡ false) }
    ensures { result ≡ kind_of word }
{
    if word == NOP {
        return Kind::Nop;
    }
    let rn = word / 0x1_0000 % 16;
    let rd = word / 0x1000 % 16;
    let s = word / 0x10_0000 % 2;
    if is_data(word) {
        return Kind::Data(DataFields {
            operation: word / 0x20_0000 % 16,
            s,
            rn,
            rd,
            operand: operand(word),
        });
    }
    let rm = word / 1 % 16;
    if is_multiply(word) {
        return Kind::Multiply(MultiplyFields {
            accumulate: word / 0x20_0000 % 2,
            s,
            target: rn,
            added: rd,
            rs: word / 256 % 16,
            rm,
        });
    }
    let head = word / 0x10_0000 % 256;
    if (head == 0x30) | (head == 0x34) {
        return Kind::HalfMove {
            top: word / 0x40_0000 % 2,
            rd,
            number: rn * 4096 + word / 1 % 4096,
        };
    }
    let top = word / 16 % 0x100_0000;
    if (top == 0x12_FFF1) | (top == 0x12_FFF3) {
        return Kind::RegisterBranch {
            call: word / 32 % 2,
            rm,
        };
    }
    Kind::NoClass(why(word))
}

// At most one class takes a word, so they are asked in another order than the paper's.
fn kind(word: u32) -> Kind
    ensures { result ≡ kind_of word }
{
    if word / 0x1000_0000 % 16 == 15 {
        return Kind::NoClass(Why::Condition15);
    }
    let group = word / 0x200_0000 % 8;
    if group == 5 {
        return Kind::Branch {
            call: word / 0x100_0000 % 2,
            offset: word / 1 % 0x100_0000,
        };
    }
    if is_any_access(word) {
        return access_kind(word);
    }
    if group <= 1 {
        return low_kind(word);
    }
    Kind::NoClass(why(word))
}

// The reading of a word that is no literal head and stands after none.
#[tactic(auto, unfolding(crate::specs::Word::reading_of))]
pub fn read(word: u32) -> Reading
    ensures { result ≡ reading_of word }
{
    Reading {
        condition: word / 0x1000_0000 % 16,
        kind: kind(word),
    }
}
