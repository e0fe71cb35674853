// Writing the ledger: an entry is 4 x count + role. `Within` is a clause of what moves counts, and no fact of a
// type: a struct round the `&mut` would need a clause in the same four, that the slice in it stays the same.
ghost use Rattle.std.specs.Prelude.{◌≡◌, ◌+◌, ◌*◌, ◌/◌, ◌^◌, ◌≤◌, ◌<◌, length, IfSome, unwrap_or};
ghost use Rattle.checker.specs.Check.{words_of};
ghost use Rattle.checker.specs.Standing.{landing_at};
ghost use Rattle.checker.specs.parts.Ledger.{RolesWritten, Within, one_on, Moved, MovesUpTo};

use crate::region::Bundles;
use decoder::place::direct_target;
use pairs::role::roles;

// One landing put on word j, or taken off it. False where its count is at its bound: the number of
// words, or 0. `on` is a flag and no closure: to go back is to take the other step, and the promise speaks of
// both.
#[tactic(auto, using(crate::proofs::Moving::one_refused))]
fn move_landing(ledger: &mut [u32], j: usize, on: bool) -> bool
    requires { (j < length ledger.old) × (length ledger.old ≤ 2 ^ 29) × (Within ledger.old) }
    ensures { Moved on (one_on j) ledger.old ledger.new result }
{
    let entry = ledger[j];
    let bound = if on { ledger.len() } else { 0 };
    if (entry / 4) as usize == bound {
        return false;
    }
    ledger[j] = if on { entry + 4 } else { entry - 4 };
    true
}

impl Bundles<'_> {
    // The roles of bundle b, with the counts kept.
    #[tactic(auto, using(crate::proofs::Ledgers::slot_role))]
    fn write_bundle(&self, ledger: &mut [u32], b: usize)
        requires { (length ledger.old ≡ self.now.region.words) × (b < length self.now.bytes.now / 16) }
        ensures { RolesWritten self.now.bytes.now self.now.first (4 * b) (4 * b + 4) ledger.old ledger.new }
    {
        let roles = roles(self.bundle(b));
        for (slot, role) in roles.iter().enumerate() {
            let j = self.first + (4 * b + slot);
            ledger[j] = ledger[j] / 4 * 4 + u32::from(*role);
        }
    }

    // The roles of all the bundles, with the counts kept.
    pub(crate) fn write_roles(&self, ledger: &mut [u32])
        requires { length ledger.old ≡ self.now.region.words }
        ensures { RolesWritten self.now.bytes.now self.now.first 0 (words_of self.now.bytes.now) ledger.old ledger.new }
    {
        for b in 0..self.bytes.len() / 16 {
            self.write_bundle(ledger, b);
        }
    }

    // The number of the word that word k lands on, if it lands on one.
    #[tactic(auto, unfolding(crate::specs::Standing::landing_at, crate::specs::Standing::target_at))]
    fn landing_at(&self, k: usize) -> Option<usize>
        requires { k < words_of self.now.bytes.now }
        ensures inside { IfSome result (λ j. j < self.now.region.words) }
        ensures landing { unwrap_or result self.now.region.words ≡ landing_at self.now.region.layout self.now.region.words self.now.bytes.now self.now.first k }
    {
        let target = direct_target(self.reading_at(k), self.address(k));
        self.region.landing(target)
    }

    // The landings of the first words are put on, or taken off, up to one that finds a count at its bound.
    #[tactic(auto, using(crate::proofs::Moving::moved_none, crate::proofs::Moving::landings_none, crate::proofs::Moving::within_then))]
    pub(crate) fn move_landings(
        &self,
        ledger: &mut [u32],
        asked: usize,
        on: bool,
    ) -> Result<(), usize>
        requires { (length ledger.old ≡ self.now.region.words) × (Within ledger.old) × (asked ≤ words_of self.now.bytes.now) }
        ensures { MovesUpTo on self.now.region.layout self.now.bytes.now self.now.first asked ledger.old ledger.new result }
    {
        for k in 0..asked {
            let Some(j) = self.landing_at(k) else {
                continue;
            };
            if !move_landing(ledger, j, on) {
                return Err(k);
            }
        }
        Ok(())
    }
}
