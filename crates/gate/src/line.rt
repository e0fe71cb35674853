// The line for a region.
ghost use Rattle.std.specs.Prelude.{◌≡◌};
ghost use Rattle.io.specs.Counts.{IsPrefixLen};
ghost use Rattle.rules.specs.Outcome.{verdict_of};
ghost use Rattle.gate.specs.Line.{paper_layout, line_of, Lined};

use arrayvec::ArrayString;
use checker::check::check;
use itoa::Buffer;
use rules::layout::Layout;
use rules::outcome::Reason;

// The line for what the check answered.
// By `write!` the proof stayed open: that says what it wrote only where it answers `Ok`, and no contract says
// where that is.
#[tactic(auto, using(crate::proofs::Texts::numeral_decimal, crate::proofs::Lines::line_accepted, crate::proofs::Lines::line_alone, crate::proofs::Lines::line_at, rules::proofs::Reasons::reason_refuses))]
fn line_for(answer: Result<(), Reason>, bytes: usize) -> ArrayString<64>
    ensures { result.bytes ≡ line_of (verdict_of answer) bytes }
{
    let mut line = ArrayString::new();
    match answer {
        Ok(()) => {
            line.push_str("accepted ");
            line.push_str(Buffer::new().format(bytes));
            line.push_str(" bytes\n");
        }
        Err(reason) => {
            line.push_str("refused ");
            line.push_str(Buffer::new().format(reason.number()));
            if let Some(at) = reason.address() {
                line.push_str(" at ");
                line.push_str(Buffer::new().format(at));
            }
            line.push_str("\n");
        }
    }
    line
}

// Checks the code and puts the line at the start of out; the rest of out stays. Answers its length.
// A buffer with its length beside, since docs/PROMISES.md names this signature and both clauses.
pub fn line(code: &[u8], ledger: &mut [u32], out: &mut [u8; 64]) -> usize
    ensures lined { Lined code.now ledger.old out.old ledger.new out.new result }
    ensures prefix_len { IsPrefixLen result out.new }
{
    let line = line_for(check(Layout::PAPER, code, ledger), code.len());
    out[..line.len()].copy_from_slice(line.as_str().as_bytes());
    line.len()
}
