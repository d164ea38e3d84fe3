// Prints what the calls of `plates` answer and leave in lent memory: round trips of windows of several
// widths, and each limit of refusals 5, 6, 7 and 9 from both sides. The file stdout holds what this must
// print.
#![tactic(auto)]

use arith::{Refusal, number_of};
use printing::Output;
use std::fmt;

// 36 colorants, all eight among them.
const CELLS: [u8; 36] = [
    0, 1, 2, 3, 4, 5, 6, 7, 7, 0, 5, 2, 7, 4, 1, 6, 3, 0, 0, 0, 6, 6, 1, 3, 5, 7, 2, 4, 4, 3, 2, 1,
    0, 7, 6, 5,
];

// The planes of nine columns and one row, eight pixels of colorant 0 and one of colorant 7; and four
// bytes that are not lent.
const PLANES: [u8; 20] = [
    255, 0, 0, 0, 0, 0, 0, 0, 0, 0, 0, 0, 0, 0, 0, 128, 170, 170, 170, 170,
];

// A window, and how many bytes of its input and of its output are lent.
#[derive(Clone, Copy)]
struct Call {
    columns: u32,
    rows: u32,
    input: usize,
    output: usize,
}

impl Call {
    fn new(columns: u32, rows: u32, input: usize, output: usize) -> Call {
        Call {
            columns,
            rows,
            input,
            output,
        }
    }
}

fn main() {
    let _ = show_all(&mut Output);
}

fn show_all(out: &mut impl fmt::Write) -> fmt::Result {
    writeln!(
        out,
        "# columns rows: refusal of packing; the planes, every place 170 before; refusal of unpacking; the cells, every place 255 before"
    )?;
    round_trips(out)?;
    writeln!(
        out,
        "# columns rows, cells planes: refusal of packing; the planes"
    )?;
    packing_sizes(out)?;
    packing_bytes(out)?;
    writeln!(
        out,
        "# columns rows, planes cells: refusal of unpacking; the cells"
    )?;
    unpacking_sizes(out)?;
    pixels(out)?;
    padding(out)?;
    lowest_first(out)
}

fn round_trips(out: &mut impl fmt::Write) -> fmt::Result {
    let calls = [
        Call::new(0, 0, 0, 0),
        Call::new(0, 2, 0, 0),
        Call::new(1, 0, 0, 0),
        Call::new(1, 2, 2, 16),
        Call::new(7, 0, 0, 0),
        Call::new(7, 2, 14, 16),
        Call::new(8, 0, 0, 0),
        Call::new(8, 2, 16, 16),
        Call::new(9, 0, 0, 0),
        Call::new(9, 2, 18, 32),
        Call::new(16, 0, 0, 0),
        Call::new(16, 2, 32, 32),
        Call::new(17, 0, 0, 0),
        Call::new(17, 2, 34, 48),
    ];
    for call in calls {
        round_trip(out, call)?;
    }
    Ok(())
}

// Refusals 5, 6 and 7 of packing: the sheet's edge, and lengths one short and one long.
fn packing_sizes(out: &mut impl fmt::Write) -> fmt::Result {
    let calls = [
        Call::new(9, 2, 18, 32),
        Call::new(9, 2, 17, 32),
        Call::new(9, 2, 19, 32),
        Call::new(9, 2, 18, 31),
        Call::new(9, 2, 18, 33),
        Call::new(9, 2, 17, 31),
        Call::new(65536, 0, 0, 0),
        Call::new(65537, 0, 0, 0),
        Call::new(1, 65536, 0, 0),
        Call::new(1, 65537, 0, 0),
        Call::new(65536, 65536, 0, 0),
        Call::new(4294967295, 4294967295, 1, 1),
    ];
    for call in calls {
        show_packing(out, call, &CELLS)?;
    }
    Ok(())
}

// Refusal 9 of packing: bytes of 7, 8 and 255, first, last and past the last cell.
fn packing_bytes(out: &mut impl fmt::Write) -> fmt::Result {
    let mut cells = CELLS;
    cells[0] = 8;
    show_packing(out, Call::new(9, 2, 18, 32), &cells)?;
    show_packing(out, Call::new(9, 2, 17, 32), &cells)?;
    show_packing(out, Call::new(9, 2, 18, 31), &cells)?;
    cells[0] = 7;
    cells[17] = 255;
    show_packing(out, Call::new(9, 2, 18, 32), &cells)?;
    cells[17] = 7;
    cells[18] = 8;
    show_packing(out, Call::new(9, 2, 18, 32), &cells)
}

// Refusals 5, 6 and 7 of unpacking.
fn unpacking_sizes(out: &mut impl fmt::Write) -> fmt::Result {
    let calls = [
        Call::new(9, 1, 16, 9),
        Call::new(9, 1, 15, 9),
        Call::new(9, 1, 17, 9),
        Call::new(9, 1, 16, 8),
        Call::new(9, 1, 16, 10),
        Call::new(9, 1, 15, 8),
        Call::new(65536, 0, 0, 0),
        Call::new(65537, 0, 0, 0),
        Call::new(1, 65536, 0, 0),
        Call::new(1, 65537, 0, 0),
        Call::new(65536, 65536, 0, 0),
        Call::new(4294967295, 4294967295, 1, 1),
    ];
    for call in calls {
        show_unpacking(out, call, &PLANES)?;
    }
    Ok(())
}

// Refusal 9 of unpacking: rule 11.13's example; a pixel in no plane, in two, and both with as many bits as
// pixels.
fn pixels(out: &mut impl fmt::Write) -> fmt::Result {
    let one = Call::new(1, 1, 8, 1);
    let mut planes = PLANES;
    planes[0] = 128;
    planes[1] = 128;
    planes[15] = 0;
    show_unpacking(out, one, &planes)?;
    planes[1] = 0;
    show_unpacking(out, one, &planes)?;
    planes[0] = 0;
    show_unpacking(out, one, &planes)?;
    planes[7] = 128;
    show_unpacking(out, one, &planes)?;
    let nine = Call::new(9, 1, 16, 9);
    planes = PLANES;
    planes[0] = 254;
    show_unpacking(out, nine, &planes)?;
    planes[0] = 255;
    planes[14] = 1;
    show_unpacking(out, nine, &planes)?;
    planes[0] = 254;
    show_unpacking(out, nine, &planes)?;
    planes = PLANES;
    planes[15] = 0;
    show_unpacking(out, nine, &planes)?;
    planes[1] = 128;
    planes[15] = 128;
    show_unpacking(out, nine, &planes)?;
    planes[0] = 254;
    show_unpacking(out, nine, &planes)
}

// Refusal 9 of unpacking: padding set in the first and in the last plane, first and last padding bit.
fn padding(out: &mut impl fmt::Write) -> fmt::Result {
    let nine = Call::new(9, 1, 16, 9);
    for (place, byte) in [(1usize, 64u8), (1, 1), (15, 192), (15, 129), (7, 32)] {
        let mut planes = PLANES;
        if place < planes.len() {
            planes[place] = byte;
        }
        show_unpacking(out, nine, &planes)?;
    }
    Ok(())
}

// Of several refusals the lowest number is answered.
fn lowest_first(out: &mut impl fmt::Write) -> fmt::Result {
    let mut planes = PLANES;
    planes[1] = 1;
    for call in [
        Call::new(9, 1, 15, 9),
        Call::new(9, 1, 16, 8),
        Call::new(65537, 1, 16, 8),
        Call::new(0, 2, 0, 0),
    ] {
        show_unpacking(out, call, &planes)?;
    }
    Ok(())
}

// Packs the first cells, unpacks the planes again, and shows both memories.
fn round_trip(out: &mut impl fmt::Write, call: Call) -> fmt::Result {
    let mut planes = [170u8; 52];
    let packing = number(pack_first(call, &CELLS, &mut planes));
    let mut back = [255u8; 36];
    let unpacking = number(unpack_first(
        Call {
            input: call.output,
            output: call.input,
            ..call
        },
        &planes,
        &mut back,
    ));
    writeln!(
        out,
        "{} {}: {packing};{}; {unpacking};{}",
        call.columns,
        call.rows,
        Spaced(&planes),
        Spaced(&back)
    )
}

fn show_packing(out: &mut impl fmt::Write, call: Call, from: &[u8]) -> fmt::Result {
    let mut planes = [170u8; 36];
    let refusal = number(pack_first(call, from, &mut planes));
    writeln!(out, "{call}: {refusal};{}", Spaced(&planes))
}

fn show_unpacking(out: &mut impl fmt::Write, call: Call, from: &[u8]) -> fmt::Result {
    let mut back = [255u8; 12];
    let refusal = number(unpack_first(call, from, &mut back));
    writeln!(out, "{call}: {refusal};{}", Spaced(&back))
}

// Packs the first cells into the first places of the planes; nothing where there are not so many.
fn pack_first(call: Call, cells: &[u8], planes: &mut [u8]) -> Option<Result<(), Refusal>> {
    let input = cells.get(..call.input)?;
    let output = planes.get_mut(..call.output)?;
    Some(plates::pack(call.columns, call.rows, input, output))
}

// Unpacks the first places of the planes into the first cells; nothing where there are not so many.
fn unpack_first(call: Call, planes: &[u8], cells: &mut [u8]) -> Option<Result<(), Refusal>> {
    let input = planes.get(..call.input)?;
    let output = cells.get_mut(..call.output)?;
    Some(plates::unpack(call.columns, call.rows, input, output))
}

// The number of what a call answers: 0 where it is served, and else its refusal's; 1000 where it was not
// made.
fn number(answer: Option<Result<(), Refusal>>) -> u32 {
    match answer {
        Some(answer) => number_of(answer),
        None => 1000,
    }
}

impl fmt::Display for Call {
    fn fmt<W: fmt::Write>(&self, f: &mut fmt::Formatter<W>) -> fmt::Result {
        write!(
            f,
            "{} {}, {} {}",
            self.columns, self.rows, self.input, self.output
        )
    }
}

// Bytes, each after a space.
#[derive(Clone, Copy)]
struct Spaced<'a>(&'a [u8]);

impl fmt::Display for Spaced<'_> {
    fn fmt<W: fmt::Write>(&self, f: &mut fmt::Formatter<W>) -> fmt::Result {
        for byte in self.0 {
            write!(f, " {byte}")?;
        }
        Ok(())
    }
}
