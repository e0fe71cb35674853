// The accesses: of a word or byte, of a halfword or signed byte, of the registers of a list. All three
// are one kind, with what is moved inside.
ghost use Rattle.std.specs.Prelude.{◌≡◌, true, false, eqb};
ghost use Rattle.decoder.specs.Word.{condition_of, write_back_holds, is_word_or_byte, is_halfword, list_names, is_multiple_transfer, is_any_access, is_literal_load, moved_of, kind_of};

use crate::question::REGISTERS;
use crate::reading::{AccessFields, Kind, Moved};

// P, W, Rn and Rt are as an access of one register may have them.
fn write_back_holds(word: u32) -> bool
    ensures { result ≡ write_back_holds word }
{
    let p = word / 0x100_0000 % 2;
    let w = word / 0x20_0000 % 2;
    let same = word / 0x1_0000 % 16 == word / 0x1000 % 16;
    !((p == 0) & (w == 1)) & !(((p == 0) | (w == 1)) & same)
}

fn is_word_or_byte(word: u32) -> bool
    ensures { result ≡ is_word_or_byte word }
{
    (word / 0x200_0000 % 8 == 2) & write_back_holds(word)
}

// A halfword, signed byte or signed halfword.
fn is_halfword(word: u32) -> bool
    ensures { result ≡ is_halfword word }
{
    let shape = (word / 0x200_0000 % 8 == 0)
        & (word / 0x40_0000 % 2 == 1)
        & (word / 128 % 2 == 1)
        & (word / 16 % 2 == 1);
    let part = word / 32 % 4;
    shape && !(part == 0) & !((word / 0x10_0000 % 2 == 0) & (2 <= part)) & write_back_holds(word)
}

// Register r is one of the sixteen-bit list.
pub(crate) fn list_names(r: u32, list: u32) -> bool
    ensures { result ≡ list_names r list }
{
    r < REGISTERS && (list >> r) % 2 == 1
}

fn is_multiple_transfer(word: u32) -> bool
    ensures { result ≡ is_multiple_transfer word }
{
    let list = word / 1 % 0x1_0000;
    (word / 0x200_0000 % 8 == 4)
        & (word / 0x40_0000 % 2 == 0)
        & !(list == 0)
        & !((word / 0x20_0000 % 2 == 1) & list_names(word / 0x1_0000 % 16, list))
}

#[tactic(auto, unfolding(crate::specs::Word::is_any_access))]
pub(crate) fn is_any_access(word: u32) -> bool
    ensures { result ≡ is_any_access word }
{
    match word / 0x200_0000 % 8 {
        2 => is_word_or_byte(word),
        4 => is_multiple_transfer(word),
        _ => is_halfword(word),
    }
}

#[tactic(auto, unfolding(crate::specs::Word::is_literal_load))]
fn is_literal_load(word: u32) -> bool
    ensures { result ≡ is_literal_load word }
{
    let p = word / 0x100_0000 % 2;
    let b = word / 0x40_0000 % 2;
    let w = word / 0x20_0000 % 2;
    let l = word / 0x10_0000 % 2;
    is_word_or_byte(word) & (word / 0x1_0000 % 16 == 15) & (p == 1) & (b == 0) & (w == 0) & (l == 1)
}

fn moved(word: u32) -> Moved
    ensures { result ≡ moved_of word }
{
    let rt = word / 0x1000 % 16;
    match word / 0x200_0000 % 8 {
        2 => Moved::Word {
            b: word / 0x40_0000 % 2,
            rt,
            distance: word / 1 % 4096,
        },
        0 => Moved::Halfword {
            part: word / 32 % 4,
            rt,
            distance: word / 256 % 16 * 16 + word / 1 % 16,
        },
        _ => Moved::Registers {
            list: word / 1 % 0x1_0000,
        },
    }
}

// An access, among them the literal loads.
pub(crate) fn access_kind(word: u32) -> Kind
    requires { (eqb (condition_of word) 15 ≡ false) × (is_any_access word ≡ true) }
    ensures { result ≡ kind_of word }
{
    let u = word / 0x80_0000 % 2;
    if is_literal_load(word) {
        return Kind::LiteralLoad {
            u,
            rt: word / 0x1000 % 16,
            distance: word / 1 % 4096,
        };
    }
    Kind::Access(AccessFields {
        p: word / 0x100_0000 % 2,
        u,
        w: word / 0x20_0000 % 2,
        l: word / 0x10_0000 % 2,
        rn: word / 0x1_0000 % 16,
        moved: moved(word),
    })
}
