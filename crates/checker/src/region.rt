// Whole bundles that stand in a region: their words, readings and roles.
ghost use Rattle.std.specs.Prelude.{◌≡◌, ◌+◌, ◌/◌, ◌<◌, length};
ghost use Rattle.decoder.specs.Bundle.{blank};
ghost use Rattle.rules.specs.Layout.{address_of};
ghost use Rattle.checker.specs.Check.{words_of};
ghost use Rattle.checker.specs.Region.{word_at, bundle_at, reading_at, before_at, next_at, role_at};
ghost use Rattle.checker.specs.parts.Stands.{Stands};

use decoder::bundle::{reading, readings};
use decoder::reading::{Kind, Reading, Why};
use pairs::role::role_after;
use rules::region::Region;
use std::array;

// They stand from word `first` on. The ledger is handed to their methods beside them: the old and the new
// bundles of a patch share one, which is written between.
#[derive(Clone, Copy)]
pub(crate) struct Bundles<'a> {
    pub(crate) region: Region,
    pub(crate) bytes: &'a [u8],
    pub(crate) first: usize,
    ghost stands: { Stands region.layout region.words bytes.now first },
}

// A blank reading stands where a bundle has no word.
fn blank() -> Reading
    ensures { result ≡ blank }
{
    Reading {
        condition: 0,
        kind: Kind::NoClass(Why::Unlisted),
    }
}

impl Bundles<'_> {
    // How many words they are.
    pub(crate) fn len(&self) -> usize
        ensures { result ≡ words_of self.now.bytes.now }
    {
        self.bytes.len() / 4
    }

    // The address of word k.
    pub(crate) fn address(&self, k: usize) -> u32
        requires { k < words_of self.now.bytes.now }
        ensures { result ≡ address_of self.now.region.layout (self.now.first + k) }
    {
        self.region.layout.code_start + (4 * (self.first + k)) as u32
    }

    // Word k, little-endian. Its bytes are named one by one: a part of four, made an array, could fail.
    #[tactic(auto, unfolding(crate::specs::Region::word_at))]
    fn word(&self, k: usize) -> u32
        requires { k < words_of self.now.bytes.now }
        ensures { result ≡ word_at self.now.bytes.now k }
    {
        let bytes = self.bytes;
        let at = 4 * k;
        u32::from_le_bytes([bytes[at], bytes[at + 1], bytes[at + 2], bytes[at + 3]])
    }

    // The four readings of bundle b.
    #[tactic(auto, unfolding(crate::specs::Region::bundle_at, crate::specs::Region::bundle_words))]
    pub(crate) fn bundle(&self, b: usize) -> [Reading; 4]
        requires { b < length self.now.bytes.now / 16 }
        ensures { result ≡ bundle_at self.now.bytes.now b }
    {
        readings(array::from_fn(|slot| self.word(4 * b + slot)))
    }

    // The reading of word k alone.
    #[tactic(auto, using(crate::proofs::Words::reading_at_lem))]
    pub(crate) fn reading_at(&self, k: usize) -> Reading
        requires { k < words_of self.now.bytes.now }
        ensures { result ≡ reading_at self.now.bytes.now k }
    {
        let slot = k % 4;
        reading(self.word(k - slot), self.word(k), slot)
    }

    // The reading of the word before word k in its bundle, or a blank one in slot 0.
    #[tactic(auto, using(crate::proofs::Words::before_at_lem), unfolding(crate::specs::Region::before_at))]
    pub(crate) fn before_at(&self, k: usize) -> Reading
        requires { k < words_of self.now.bytes.now }
        ensures { result ≡ before_at self.now.bytes.now k }
    {
        if k % 4 == 0 {
            return blank();
        }
        self.reading_at(k - 1)
    }

    // The reading of the word after word k in its bundle, or a blank one in slot 3.
    #[tactic(auto, using(crate::proofs::Words::next_at_lem, crate::proofs::Words::past_slot_3))]
    pub(crate) fn next_at(&self, k: usize) -> Reading
        requires { k < words_of self.now.bytes.now }
        ensures { result ≡ next_at self.now.bytes.now k }
    {
        if k % 4 == 3 {
            return blank();
        }
        self.reading_at(k + 1)
    }

    // The role of word k, by the number that an entry of a ledger has: all who ask want that.
    #[tactic(auto, using(crate::proofs::Words::role_at_lem))]
    pub(crate) fn role_at(&self, k: usize) -> u32
        requires { k < words_of self.now.bytes.now }
        ensures { result ≡ role_at self.now.bytes.now k }
    {
        u32::from(role_after(self.before_at(k), self.reading_at(k)))
    }
}
