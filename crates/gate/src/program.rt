// Reading and writing. Nothing can be proved of what the system reads and writes; what is proved of the
// reading holds for any reader, and says more of one whose bytes are known.
ghost use Rattle.std.specs.Prelude.{ℕ, ◌<◌, length, take, IfOk, OnErr};
ghost use Rattle.std.specs.Io.KnownBytes.{Consumes, IsAtEnd};
ghost use Rattle.io.specs.Counts.{IsPrefixLen};

use crate::line::line;
use std::io;
use std::io::{Input, Read};

// One byte more than the most code: a longer input fills it, and so has a wrong length.
const MOST: usize = 65537;

// Reads until the input ends, a read fails or the buffer is full, and answers how many bytes it put at
// the start of the buffer.
// Tried: the slice itself as the answer. It holds the buffer then, and `err` could not speak of it.
#[tactic(auto, using(crate::proofs::Reading::read_behind))]
fn read_code<R: Read>(input: &mut R, code: &mut [u8]) -> io::Result<usize>
    ensures prefix_len { IfOk result (λ bytes. IsPrefixLen bytes code.new) }
    ensures bytes { IfOk result (λ bytes. Consumes (R.remaining input.old) (R.remaining input.new) (take bytes code.new)) }
    ensures whole { IfOk result (λ bytes. bytes < length code.new → IsAtEnd (R.remaining input.new)) }
    ensures err { OnErr result ((bytes : ℕ) × IsPrefixLen bytes code.new
        × Consumes (R.remaining input.old) (R.remaining input.new) (take bytes code.new)) }
{
    // By n: over a slice that shrinks `bytes` and `err` stayed open, and `io::copy` promises nothing on an error.
    let mut n = 0;
    while n < code.len() {
        let more = input.read(&mut code[n..])?;
        if more == 0 {
            break;
        }
        n += more;
    }
    Ok(n)
}

// The whole program.
pub fn run(rt: &(impl Input + Print + Eprint)) {
    let mut code = [0; MOST];
    let n = match read_code(&mut rt.reader(), &mut code) {
        Ok(n) => n,
        Err(error) => {
            let _ = eprintln!(rt; "standard input: {error}");
            return;
        }
    };
    let mut ledger = [0; MOST / 4];
    let mut text = [0; 64];
    let end = line(&code[..n], &mut ledger[..n / 4], &mut text);
    if let Err(error) = rt.write_all(&text[..end]) {
        let _ = eprintln!(rt; "standard output: {error}");
    }
}
