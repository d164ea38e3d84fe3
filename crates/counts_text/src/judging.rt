// The whole input judged, line by line.
ghost use Rattle.counts_text.specs.Parsers.{VerdictSays};

use crate::parsers::{patch_line, screen_line};
use arith::Refusal;
use screen::Screen;

// What a good input asks for: the screen, the text of the P lines, and how many they are.
#[derive(Clone, Copy)]
pub(crate) struct Job<'a> {
    pub screen: Screen,
    pub lines: &'a [u8],
    pub patches: u32,
}

// The number of the first bad line, and what refuses it.
#[derive(Clone, Copy)]
pub(crate) struct BadLine {
    pub line: u32,
    pub refusal: Refusal,
}

// Judges all lines.
pub(crate) fn judge(input: &[u8]) -> Result<Job<'_>, BadLine>
    ensures { VerdictSays input.now result }
{
    let (screen, lines) = screen_line(input).map_err(|refusal| BadLine { line: 1, refusal })?;
    let mut rest = lines;
    // The number is needed: it says which line is bad, or how many P lines there are.
    for line in 1..257 {
        let patch = patch_line(rest).ok_or(BadLine {
            line: line + 1,
            refusal: Refusal::Form,
        })?;
        rest = patch.rest;
        if rest.is_empty() {
            return Ok(Job {
                screen,
                lines,
                patches: line,
            });
        }
    }
    Err(BadLine {
        line: 258,
        refusal: Refusal::Form,
    })
}
