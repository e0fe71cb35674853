// The check call.
ghost use Rattle.std.specs.Prelude.{◌≡◌, length};
ghost use Rattle.checker.specs.Check.{words_of, ledger_of, Checked};

use crate::region::Bundles;
use rules::layout::{Layout, layout_holds, length_holds};
use rules::outcome::Reason;
use rules::region::Region;

impl Bundles<'_> {
    // The ledger of a region that they fill.
    #[tactic(auto, using(crate::proofs::Checks::within_roles, crate::proofs::Checks::ledger_written))]
    fn write_ledger(&self, ledger: &mut [u32])
        requires { (self.now.first ≡ 0) × (length ledger.old ≡ self.now.region.words) × (self.now.region.words ≡ words_of self.now.bytes.now) }
        ensures { ledger.new ≡ ledger_of self.now.region.layout self.now.bytes.now }
    {
        ledger.fill(0);
        self.write_roles(ledger);
        // All are put on: no count passes the number of words.
        let _ = self.move_landings(ledger, self.len(), true);
    }
}

// Accepts the region exactly where every word meets the rules, and then writes its ledger. A refusal
// changes nothing; the code is never changed.
#[tactic(auto, unfolding(crate::specs::Check::check_verdict, crate::specs::Check::ledger_after), using(rules::proofs::Says::layout_says, rules::proofs::Says::length_says, crate::proofs::Checks::words_refused, crate::proofs::Checks::words_passed))]
pub fn check(layout: Layout, code: &[u8], ledger: &mut [u32]) -> Result<(), Reason>
    ensures { Checked layout code.now ledger.old ledger.new result }
{
    let length = code.len();
    if !layout_holds(layout, length) {
        return Err(Reason::Layout);
    }
    if !length_holds(length) {
        return Err(Reason::CodeLength);
    }
    let words = ledger.len();
    if words != length / 4 {
        return Err(Reason::LedgerLength);
    }
    let bundles = Bundles {
        region: Region { layout, words },
        bytes: code,
        first: 0,
    };
    bundles.first_fault(ledger)?;
    bundles.write_ledger(ledger);
    Ok(())
}
