// The counts program as a function from the bytes that it reads to the bytes that it writes (rules 10.1 to
// 10.8).
#![tactic(auto)]

mod judging;
mod numbers;
mod parsers;
mod writing;

ghost use Rattle.std.specs.Prelude.{◌≡◌, ◌++◌, ◌≤◌, length, take, drop};
ghost use Rattle.counts_text.specs.Program.{counts_text};

use crate::judging::{BadLine, judge};
use crate::writing::Output;
use arith::Refusal;

// Writes what the program answers to the input, and answers how many bytes that is.
pub fn run(input: &[u8], out: &mut [u8; 16384]) -> usize
    ensures answer { result ≡ length (counts_text input.now) }
    ensures text { out.new ≡ counts_text input.now ++ drop result out.old }
    ensures fits { (result ≤ length out.new) × (result ≡ length (take result out.new)) }
{
    let mut output = Output { text: out, done: 0 };
    let too_long = 65536 < input.len();
    if too_long {
        output.put_error(BadLine {
            line: 0,
            refusal: Refusal::Form,
        });
        return output.done;
    }
    match judge(input) {
        Ok(job) => output.put_counts(job),
        Err(bad) => output.put_error(bad),
    }
    output.done
}
