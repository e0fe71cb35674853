// Where a branch goes, and where a literal load reads.
ghost use Rattle.std.specs.Prelude.{◌≡◌, ◌<◌, ◌^◌};
ghost use Rattle.decoder.specs.Place.{behind, signed_step, target_of, literal_of};

use crate::reading::{Kind, Reading};

// Three cases of one answer, which `rule10`, `rule11` and `landing` each take in one match. In an `Option`
// round two of them, each match would have the same three arms.
#[derive(Clone, Copy, Debug, PartialEq, Eq)]
pub enum Place {
    // The word has none.
    Absent,
    // It is negative, which is merely outside.
    Below,
    At(u64),
}

#[tactic(auto, unfolding(crate::specs::Place::behind))]
fn back_from(from: u64, back: u64) -> Place
    ensures { result ≡ behind from back }
{
    match from.checked_sub(back) {
        Some(at) => Place::At(at),
        None => Place::Below,
    }
}

// offset is twenty-four bits, read as a signed number of words.
#[tactic(auto, unfolding(crate::specs::Place::signed_step))]
fn signed_step(from: u64, offset: u64) -> Place
    requires { (from < 2 ^ 33) × (offset < 2 ^ 24) }
    ensures { result ≡ signed_step from offset }
{
    if offset < 0x80_0000 {
        return Place::At(from + 4 * offset);
    }
    back_from(from, 4 * (0x100_0000 - offset))
}

// The direct target of a word at an address. A word that is not a branch has none.
#[tactic(auto, unfolding(crate::specs::Place::target_of))]
pub fn direct_target(reading: Reading, address: u32) -> Place
    ensures { result ≡ target_of reading.kind address }
{
    let Kind::Branch { offset, .. } = reading.kind else {
        return Place::Absent;
    };
    let steps = offset / 1 % 0x100_0000;
    signed_step(address as u64 + 8, steps as u64)
}

// Where a literal load at an address reads.
#[tactic(auto, unfolding(crate::specs::Place::literal_of))]
pub fn literal(reading: Reading, address: u32) -> Place
    ensures { result ≡ literal_of reading.kind address }
{
    let Kind::LiteralLoad { u, distance, .. } = reading.kind else {
        return Place::Absent;
    };
    let from = address as u64 + 8;
    if u == 1 {
        return Place::At(from + distance as u64);
    }
    back_from(from, distance as u64)
}
