// The patch call, and the parts of it that move the counts of a ledger. The counts are moved in the
// ledger itself, the old bundles' branches off and the new ones' on, and moved back where the patch is
// refused: a pass over the ledger, and a few over the patch.
ghost use Rattle.std.specs.Prelude.{◌≡◌, ◌*◌, ◌^◌, ◌<◌, length, IfSome, IfErr};
ghost use Rattle.std.specs.Result.{is_ok};
ghost use Rattle.rules.specs.declared.outcome.Reason.TheVariants.{Disagreement};
ghost use Rattle.rules.specs.Outcome.{verdict_of};
ghost use Rattle.checker.specs.Check.{words_of};
ghost use Rattle.checker.specs.Standing.{landings};
ghost use Rattle.checker.specs.parts.Fault.{first_verdict};
ghost use Rattle.checker.specs.parts.Ledger.{Within, Moved};
ghost use Rattle.checker.specs.Patch.{counts_hold, roles_agree, shape_holds, Patched};
ghost use Rattle.checker.specs.parts.Patch.{count_at, Strands, strand_verdict, Exchanges, PatchedWords};

use crate::region::Bundles;
use rules::layout::{Layout, layout_holds, length_holds};
use rules::outcome::Reason;
use rules::region::Region;
use rules::rule::landable;

// No entry's count exceeds the number of words. A loop, since by `all` the patch of one bundle in long code, which is
// mostly this pass, takes 1.37 times the instructions (docs/PERFORMANCE.md).
#[tactic(auto, unfolding(crate::specs::Patch::counts_hold), using(crate::proofs::Lists::all_yes))]
fn counts_hold(ledger: &[u32]) -> bool
    ensures { result ≡ counts_hold ledger.now }
{
    let words = ledger.len();
    for j in 0..words {
        if words < (ledger[j] / 4) as usize {
            return false;
        }
    }
    true
}

impl Bundles<'_> {
    // The entries of the words have their roles.
    fn roles_agree(&self, ledger: &[u32]) -> bool
        requires { length ledger.now ≡ self.now.region.words }
        ensures { result ≡ roles_agree ledger.now self.now.bytes.now self.now.first }
    {
        (0..self.len()).all(|k| ledger[self.first + k] % 4 == self.role_at(k))
    }

    // The first word that branches land on and that is inner or data, if there is one. The ledger's
    // counts are those without branches of these bundles, or of those that they replace.
    fn first_stranded(&self, ledger: &[u32]) -> Option<usize>
        requires { length ledger.now ≡ self.now.region.words }
        ensures { Strands (count_at ledger.now) self.now.bytes.now self.now.first result }
    {
        (0..self.len()).find(|k| ledger[self.first + *k] / 4 != 0 && !landable(self.role_at(*k)))
    }

    // All the landings are put on, or taken off; where a count would pass its bound, nothing is changed.
    #[tactic(auto, using(crate::proofs::Moving::within_then, crate::proofs::Moving::part_back))]
    fn move_all(&self, ledger: &mut [u32], on: bool) -> Result<(), Reason>
        requires { (length ledger.old ≡ self.now.region.words) × (Within ledger.old) }
        ensures moved { Moved on (landings self.now.region.layout (length ledger.old) self.now.bytes.now self.now.first (words_of self.now.bytes.now)) ledger.old ledger.new (is_ok result) }
        ensures reason { IfErr result (λ reason. reason ≡ Disagreement) }
    {
        if let Err(k) = self.move_landings(ledger, self.len(), on) {
            // What was moved can be moved back.
            let _ = self.move_landings(ledger, k, !on);
            return Err(Reason::Disagreement);
        }
        Ok(())
    }

    // Whether a word breaks a rule, and else 14, of which the first word at fault is known.
    #[tactic(auto, using(crate::proofs::Faults::first_refused, crate::proofs::Faults::first_passed))]
    fn new_fault(&self, ledger: &[u32], strand: Option<usize>) -> Result<(), Reason>
        requires { (length ledger.now ≡ self.now.region.words) × IfSome strand (λ k. k < words_of self.now.bytes.now) }
        ensures { verdict_of result ≡ first_verdict self.now.region.layout ledger.now self.now.bytes.now self.now.first (strand_verdict self.now.region.layout self.now.first strand) }
    {
        self.first_fault(ledger)?;
        if let Some(k) = strand {
            return Err(Reason::Stranded {
                at: self.address(k),
            });
        }
        Ok(())
    }
}

// The old bundles' branches off and the new ones' on, and the first new word at fault by 14, by the counts
// between; where 13 forbids it, nothing is changed.
#[tactic(auto, using(crate::proofs::Exchange::uncounted))]
fn exchange(ledger: &mut [u32], old: &Bundles, new: &Bundles) -> Result<Option<usize>, Reason>
    requires place { (new.now.region ≡ old.now.region) × (new.now.first ≡ old.now.first) }
    requires ledger { (length ledger.old ≡ old.now.region.words) × (Within ledger.old) }
    ensures { Exchanges old.now.region.layout old.now.bytes.now new.now.bytes.now old.now.first ledger.old ledger.new result }
{
    old.move_all(ledger, false)?;
    let strand = new.first_stranded(ledger);
    if let Err(reason) = new.move_all(ledger, true) {
        // What was taken off can be put on again.
        let _ = old.move_all(ledger, true);
        return Err(reason);
    }
    Ok(strand)
}

// The patch of bundles that stand in the region, but for the bytes: 13, then the new words.
#[tactic(auto, unfolding(crate::specs::Patch::bundles_verdict, crate::specs::Patch::agrees, crate::specs::Check::ledger_after), using(crate::proofs::Exchange::counts_within))]
fn patch_words(ledger: &mut [u32], old: &Bundles, new: &Bundles) -> Result<(), Reason>
    requires place { (new.now.region ≡ old.now.region) × (new.now.first ≡ old.now.first) × (length new.now.bytes.now ≡ length old.now.bytes.now) }
    requires ledger { length ledger.old ≡ old.now.region.words }
    ensures { PatchedWords old.now.region.layout ledger.old old.now.first old.now.bytes.now new.now.bytes.now ledger.new result }
{
    if !counts_hold(ledger) || !old.roles_agree(ledger) {
        return Err(Reason::Disagreement);
    }
    let strand = exchange(ledger, old, new)?;
    if let Err(fault) = new.new_fault(ledger, strand) {
        // The way back never fails.
        let _ = exchange(ledger, new, old);
        return Err(fault);
    }
    new.write_roles(ledger);
    Ok(())
}

// Not `copy_from_slice`: it compares addresses, which box/build refuses, as a module does on one machine alone.
// By place, as `zip` left three goals open.
fn copy(old: &mut [u8], new: &[u8])
    requires { length old.old ≡ length new.now }
    ensures { old.new ≡ new.now }
{
    for (i, byte) in old.iter_mut().enumerate() {
        *byte = new[i];
    }
}

// 12 holds.
#[tactic(auto, unfolding(crate::specs::Patch::shape_holds))]
fn shape_holds(words: usize, offset: usize, old: &[u8], new: &[u8]) -> bool
    requires { words * 4 < 2 ^ 63 }
    ensures { result ≡ shape_holds words offset old.now new.now }
{
    let length = 4 * words;
    let size = new.len();
    (size != 0)
        & (size % 16 == 0)
        & (size == old.len())
        & (offset % 16 == 0)
        & (size <= length && offset <= length - size)
}

// Accepts the patch exactly where the region, edited, meets the rules and no branch outside it is
// stranded; then the old bytes are the new ones and the ledger has moved. A refusal changes nothing.
#[tactic(auto, unfolding(crate::specs::Patch::patch_verdict, crate::specs::Patch::shape_holds, crate::specs::Check::ledger_after), using(rules::proofs::Says::layout_says))]
pub fn patch(
    layout: Layout,
    ledger: &mut [u32],
    offset: usize,
    old: &mut [u8],
    new: &[u8],
) -> Result<(), Reason>
    ensures { Patched layout ledger.old offset old.old new.now ledger.new old.new result }
{
    let words = ledger.len();
    let length = 4 * words;
    if !layout_holds(layout, length) {
        return Err(Reason::Layout);
    }
    if !length_holds(length) {
        return Err(Reason::CodeLength);
    }
    if !shape_holds(words, offset, old, new) {
        return Err(Reason::PatchShape);
    }
    let region = Region { layout, words };
    let first = offset / 4;
    let standing = Bundles {
        region,
        bytes: old,
        first,
    };
    let coming = Bundles {
        region,
        bytes: new,
        first,
    };
    patch_words(ledger, &standing, &coming)?;
    copy(old, new);
    Ok(())
}
