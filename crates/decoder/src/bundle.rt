// The four readings of a bundle, which travel together as one value.
ghost use Rattle.std.specs.Prelude.{◌≡◌};
ghost use Rattle.decoder.specs.Bundle.{readings_of, slot_reading};

use crate::reading::{Kind, Reading};
use crate::word::read;

// The literal head's word.
const HEAD_WORD: u32 = 0xE125_BE70;

// The reading of one slot, from the bundle's first word and its own. A head in slot 0 makes the other
// three data.
#[tactic(auto, unfolding(crate::specs::Bundle::slot_reading, crate::specs::Bundle::head_word, crate::specs::Bundle::head_reading, crate::specs::Bundle::literal_reading))]
pub fn reading(first: u32, word: u32, slot: usize) -> Reading
    ensures { result ≡ slot_reading first word slot }
{
    if first != HEAD_WORD {
        return read(word);
    }
    let kind = match slot {
        0 => Kind::Head,
        _ => Kind::Literal {
            low: word / 1 % 0x1000_0000,
        },
    };
    Reading {
        condition: word / 0x1000_0000 % 16,
        kind,
    }
}

// Written out: by `array::from_fn` the check is a fifth slower, and docs/PERFORMANCE.md allows a tenth.
#[tactic(auto, unfolding(crate::specs::Bundle::readings_of, crate::specs::Bundle::slot_reading))]
pub fn readings(words: [u32; 4]) -> [Reading; 4]
    ensures { result ≡ readings_of words }
{
    let first = words[0];
    [
        reading(first, first, 0),
        reading(first, words[1], 1),
        reading(first, words[2], 2),
        reading(first, words[3], 3),
    ]
}
