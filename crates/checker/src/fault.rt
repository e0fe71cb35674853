// The first word that breaks a rule, among bundles that stand in a region. Roles come from the bundles
// inside them and from the ledger outside; the check has the whole region and reads no ledger entry.
ghost use Rattle.std.specs.Prelude.{◌≡◌, ◌+◌, ◌*◌, ◌/◌, ◌<◌, length};
ghost use Rattle.checker.specs.Check.{words_of};
ghost use Rattle.checker.specs.Region.{reading_at, before_at, next_at};
ghost use Rattle.checker.specs.Standing.{target_role, role_from};
ghost use Rattle.checker.specs.parts.Fault.{Tests};

use crate::region::Bundles;
use decoder::place::{Place, direct_target};
use decoder::reading::Reading;
use pairs::role::Role;
use rules::outcome::Reason;
use rules::rule::Setting;

impl Bundles<'_> {
    // The role of word j of the region, by its number, as `Setting` takes it.
    #[tactic(auto, unfolding(crate::specs::Standing::role_from))]
    fn role_from(&self, ledger: &[u32], j: usize) -> u32
        requires { j < length ledger.now }
        ensures { result ≡ role_from ledger.now self.now.bytes.now self.now.first j }
    {
        match j.checked_sub(self.first) {
            Some(k) if k < self.len() => self.role_at(k),
            _ => ledger[j] % 4,
        }
    }

    // The role of the word that a target lands on, by its number too. Where it lands on none, plain stands for it.
    #[tactic(auto, unfolding(crate::specs::Standing::target_role))]
    fn target_role(&self, ledger: &[u32], target: Place) -> u32
        requires { length ledger.now ≡ self.now.region.words }
        ensures { result ≡ target_role self.now.region.layout self.now.region.words (role_from ledger.now self.now.bytes.now self.now.first) target }
    {
        match self.region.landing(target) {
            Some(j) => self.role_from(ledger, j),
            None => u32::from(Role::Plain),
        }
    }

    // Whether word k breaks a rule, and for what reason, by its reading and those beside it.
    #[tactic(auto, using(crate::proofs::Faults::setting_is, crate::proofs::Faults::one_word))]
    fn word_fault(
        &self,
        ledger: &[u32],
        k: usize,
        before: Reading,
        word: Reading,
        next: Reading,
    ) -> Result<(), Reason>
        requires region { (length ledger.now ≡ self.now.region.words) × (k < words_of self.now.bytes.now) }
        requires readings { (before ≡ before_at self.now.bytes.now k) × (word ≡ reading_at self.now.bytes.now k) × (next ≡ next_at self.now.bytes.now k) }
        ensures { Tests self.now.region.layout ledger.now self.now.bytes.now self.now.first k (k + 1) result }
    {
        let address = self.address(k);
        let role = self.target_role(ledger, direct_target(word, address));
        let setting = Setting {
            region: self.region,
            before,
            word,
            next,
            slot: (k % 4) as u32,
            address,
            role,
        };
        setting.fault()
    }

    // Whether one of bundle b's words does, and the reason of the first.
    #[tactic(auto, using(crate::proofs::Words::slot_after))]
    fn bundle_fault(&self, ledger: &[u32], b: usize) -> Result<(), Reason>
        requires { (length ledger.now ≡ self.now.region.words) × (b < length self.now.bytes.now / 16) }
        ensures { Tests self.now.region.layout ledger.now self.now.bytes.now self.now.first (4 * b) (4 * b + 4) result }
    {
        let start = 4 * b;
        let mut before = self.before_at(start);
        let mut word = self.reading_at(start);
        for k in start..start + 4 {
            let next = self.next_at(k);
            self.word_fault(ledger, k, before, word, next)?;
            before = word;
            word = next;
        }
        Ok(())
    }

    // Whether any word does, and the reason of the first by rising address.
    pub(crate) fn first_fault(&self, ledger: &[u32]) -> Result<(), Reason>
        requires { length ledger.now ≡ self.now.region.words }
        ensures { Tests self.now.region.layout ledger.now self.now.bytes.now self.now.first 0 (words_of self.now.bytes.now) result }
    {
        for b in 0..self.bytes.len() / 16 {
            self.bundle_fault(ledger, b)?;
        }
        Ok(())
    }
}
