// Parsers: each takes the rest of a text and answers what stands at its beginning and the text after it, or
// that it is not of the form.
ghost use Rattle.std.specs.Prelude.{◌≡◌, ◌<◌, ◌+◌, ℕ, cond, Some, None, List, ◌∷◌, [], ◌++◌, length, take, drop, MatchOption};
ghost use Rattle.separation.specs.declared.Separation.{Separation};
ghost use Rattle.arith.specs.Run.{upto};
ghost use Rattle.counts_text.specs.Text.{split, index_of, fields};
ghost use Rattle.counts_text.specs.Lines.{are_numbers, number_at};
ghost use Rattle.counts_text.specs.Program.{line_refusal};
ghost use Rattle.counts_text.specs.Parsers.{head_p, fields_left, NumbersRead, ScreenNumbers, ScreenSays, PatchSays};

use crate::numbers::number_in;
use arith::Refusal;
use screen::Screen;
use separation::{Inks, Separation};

// What a P line says, and the text after the line.
#[derive(Clone, Copy)]
pub(crate) struct PatchLine<'a> {
    pub sep: Separation,
    pub inks: Inks,
    pub rest: &'a [u8],
}

// The text before the first place where a byte stands, and the text after that place.
fn split_once(text: &[u8], byte: u8) -> Option<(&[u8], &[u8])>
    ensures pieces { MatchOption result (split byte text.now ≡ text.now ∷ []) (λ parts. split byte text.now ≡ parts.0.now ∷ split byte parts.1.now) }
    ensures place { MatchOption result (index_of byte text.now ≡ length text.now) (λ parts. (index_of byte text.now < length text.now) × (parts.0.now ≡ take (index_of byte text.now) text.now) × (parts.1.now ≡ drop (index_of byte text.now + 1) text.now)) }
{
    let end = text.iter().position(|&b| b == byte)?;
    Some((&text[..end], &text[end + 1..]))
}

// The first field of a line, and the rest of the line where it has more fields.
fn first_field(line: &[u8]) -> (&[u8], Option<&[u8]>)
    ensures { fields line.now ≡ result.0.now ∷ fields_left result.1 }
{
    match split_once(line, b'\t') {
        Some((field, rest)) => (field, Some(rest)),
        None => (line, None),
    }
}

// Reads the numbers, none above a limit, that a line begins with, as far as there is room for them. Answers
// whether the line has these fields alone and they fill the room.
fn read_numbers(line: &[u8], most: u32, of: &mut [u32]) -> bool
    ensures { NumbersRead most line.now of.old of.new result }
{
    let mut left = Some(line);
    for number in of.iter_mut() {
        let Some(rest) = left else {
            return false;
        };
        let (field, next) = first_field(rest);
        let Some(value) = number_in(field, most) else {
            return false;
        };
        *number = value;
        left = next;
    }
    left.is_none()
}

// The numbers, none above a limit, that the fields of a line are, where there are so many of them.
fn numbers<const N: usize>(line: &[u8], most: u32) -> Option<[u32; N]>
    ensures { result ≡ cond (are_numbers N most (fields line.now)) (Some (upto (number_at (fields line.now)) N)) None }
{
    let mut of = [0; N];
    if read_numbers(line, most, &mut of) {
        Some(of)
    } else {
        None
    }
}

// The numbers of the first line of a text, where it has a screen's form, and the text after it.
fn screen_numbers(text: &[u8]) -> Option<([u32; 5], &[u8])>
    ensures { MatchOption result (line_refusal text.now 0 ≡ 10) (λ read. ScreenNumbers text.now read.0 read.1.now) }
{
    let (line, rest) = split_once(text, b'\n')?;
    let values = line.strip_prefix(b"S\t")?;
    Some((numbers::<5>(values, 99999)?, rest))
}

// The first line of a text, where it is a screen's, and the text after it.
pub(crate) fn screen_line(text: &[u8]) -> Result<(Screen, &[u8]), Refusal>
    ensures { ScreenSays text.now result }
{
    let ([a, b, n, k, g], rest) = screen_numbers(text).ok_or(Refusal::Form)?;
    Ok((screen::make(a, b, n, k, g)?, rest))
}

// The separation that a P line begins with, and the rest of the line.
fn separation_of(line: &[u8]) -> Option<(Separation, &[u8])>
    ensures { MatchOption result ((sep : Separation) (values : List ℕ) → line.now ≡ head_p sep ++ values → ⊥) (λ read. line.now ≡ head_p read.0 ++ read.1.now) }
{
    match line.strip_prefix(b"P\tdemichel\t") {
        Some(values) => Some((Separation::Demichel, values)),
        None => Some((Separation::Kueppers, line.strip_prefix(b"P\tkueppers\t")?)),
    }
}

// The first line of a text, where it is a P line.
pub(crate) fn patch_line(text: &[u8]) -> Option<PatchLine<'_>>
    ensures { PatchSays text.now result }
{
    let (line, rest) = split_once(text, b'\n')?;
    let (sep, values) = separation_of(line)?;
    let [c, m, y] = numbers::<3>(values, 255)?;
    let inks = Inks {
        c: c as u8,
        m: m as u8,
        y: y as u8,
    };
    Some(PatchLine { sep, inks, rest })
}
