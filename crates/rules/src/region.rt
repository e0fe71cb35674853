// A region: where its words are, what a literal load may read and where a direct branch may land.
ghost use Rattle.std.specs.Prelude.{◌≡◌, ◌<◌, IfSome, unwrap_or};
ghost use Rattle.rules.specs.Rule.{literal_holds, rule10, word_at_address, landing_of, in_trampolines, landable, rule11};

use crate::layout::Layout;
use crate::rule::landable;
use decoder::place::Place;

// A layout and the number of words of code.
#[derive(Clone, Copy, Debug, PartialEq, Eq)]
pub struct Region {
    pub layout: Layout,
    pub words: usize,
}

impl Region {
    #[tactic(auto, unfolding(crate::specs::Rule::literal_holds))]
    fn literal_holds(self, a: u64) -> bool
        ensures { result ≡ literal_holds self.layout self.words a }
    {
        a.checked_sub(self.layout.code_start as u64)
            .is_some_and(|from| {
                // The words that the bytes before a begin, and one more for the four from a.
                let begun = from / 4 + (from % 4 + 3) / 4;
                (begun < self.words as u64) & (a % 4 == 0)
            })
    }

    // 10: a literal load's four bytes aren't all in the code, or don't start at a multiple of 4.
    #[tactic(auto, unfolding(crate::specs::Rule::rule10))]
    pub fn rule10(self, place: Place) -> bool
        ensures { result ≡ rule10 self.layout self.words place }
    {
        match place {
            Place::Absent => false,
            Place::Below => true,
            Place::At(a) => !self.literal_holds(a),
        }
    }

    #[tactic(auto, unfolding(crate::specs::Rule::word_at_address))]
    fn word_at_address(self, a: u64) -> Option<usize>
        ensures inside { IfSome result (λ word. word < self.words) }
        ensures word { unwrap_or result self.words ≡ word_at_address self.layout self.words a }
    {
        let word = a.checked_sub(self.layout.code_start as u64)? / 4;
        (word < self.words as u64).then_some(word as usize)
    }

    // The number of the word that a target lands on.
    #[tactic(auto, unfolding(crate::specs::Rule::landing_of))]
    pub fn landing(self, place: Place) -> Option<usize>
        ensures inside { IfSome result (λ word. word < self.words) }
        ensures word { unwrap_or result self.words ≡ landing_of self.layout self.words place }
    {
        match place {
            Place::Absent | Place::Below => None,
            Place::At(a) => self.word_at_address(a),
        }
    }

    #[tactic(auto, unfolding(crate::specs::Rule::in_trampolines))]
    fn in_trampolines(self, a: u64) -> bool
        ensures { result ≡ in_trampolines self.layout a }
    {
        (self.layout.trampoline_first as u64 <= a)
            & (a < self.layout.trampoline_end as u64)
            & (a % 16 == 0)
    }

    // 11: a direct target is neither a plain or head word of the code nor a multiple of 16 in the
    // trampolines. role is that of the word that it is, if any, as `landable` takes it.
    #[tactic(auto, unfolding(crate::specs::Rule::rule11))]
    pub fn rule11(self, place: Place, role: u32) -> bool
        ensures { result ≡ rule11 self.layout self.words place role }
    {
        match place {
            Place::Absent => false,
            Place::Below => true,
            Place::At(a) => {
                !(self.word_at_address(a).is_some() & landable(role) | self.in_trampolines(a))
            }
        }
    }
}
