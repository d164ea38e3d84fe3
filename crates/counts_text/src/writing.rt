// The lines that the program writes.
ghost use Rattle.std.specs.Prelude.{◌≡◌, ◌+◌, ◌≤◌, ◌<◌, ◌∷◌, [], length};
ghost use Rattle.arith.specs.Refusal.{number};
ghost use Rattle.counts_text.specs.Numbers.{numeral};
ghost use Rattle.counts_text.specs.Lines.{line_of, error_line};
ghost use Rattle.counts_text.specs.Parsers.{ArePatches, lines_of_counts};
ghost use Rattle.counts_text.specs.Output.{Puts};

use crate::judging::{BadLine, Job};
use crate::parsers::patch_line;

// Memory that is lent for a text, and how many bytes of it are written.
#[derive(Drop)]
pub(crate) struct Output<'a> {
    pub text: &'a mut [u8],
    pub done: usize,
}

impl<'a> Output<'a> {
    // Writes a byte.
    fn put(&mut self, byte: u8)
        requires { self.old.done < length self.old.text.now }
        ensures { Puts (byte ∷ []) self.old self.new }
    {
        self.text[self.done] = byte;
        self.done += 1;
    }

    // Writes a number's numeral.
    fn put_number(&mut self, v: u32)
        requires { self.old.done + length (numeral v) ≤ length self.old.text.now }
        ensures { Puts (numeral v) self.old self.new }
    {
        if 10 <= v {
            self.put_number(v / 10);
        }
        self.put(b'0' + (v % 10) as u8);
    }

    // Writes a line of a letter and numbers.
    fn put_line(&mut self, letter: u8, numbers: &[u32])
        requires { self.old.done + length (line_of letter numbers.now) ≤ length self.old.text.now }
        ensures { Puts (line_of letter numbers.now) self.old self.new }
    {
        self.put(letter);
        for number in numbers {
            self.put(b'\t');
            self.put_number(*number);
        }
        self.put(b'\n');
    }

    // Writes the line that names a bad line.
    #[tactic(auto, unfolding(crate::specs::Lines::error_line))]
    pub(crate) fn put_error(&mut self, bad: BadLine)
        requires { self.old.done + length (error_line bad.line (number bad.refusal)) ≤ length self.old.text.now }
        ensures { Puts (error_line bad.line (number bad.refusal)) self.old self.new }
    {
        self.put_line(b'E', &[bad.line, bad.refusal.into()]);
    }

    // Writes a line of counts for each P line of a job.
    pub(crate) fn put_counts(&mut self, job: Job<'_>)
        requires { ArePatches job.lines.now job.patches × (self.old.done + length (lines_of_counts job.screen job.lines.now job.patches) ≤ length self.old.text.now) }
        ensures { Puts (lines_of_counts job.entry.screen job.entry.lines.now job.entry.patches) self.old self.new }
    {
        let mut rest = job.lines;
        // The job says how many P lines there are, and each begins where the one before it ends.
        for _p in 0..job.patches {
            let patch = patch_line(rest).unwrap();
            let counts = quantiser::counted(job.screen, patch.sep, patch.inks);
            self.put_line(b'C', &counts);
            rest = patch.rest;
        }
    }
}
