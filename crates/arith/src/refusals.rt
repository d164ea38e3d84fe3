// Why a call is refused, and the number of each refusal (rules 11.5 to 11.19).
ghost use Rattle.std.specs.Prelude.{◌≡◌};
ghost use Rattle.arith.specs.Refusal.{number, number_of};

// What refuses a call.
#[derive(Clone, Copy, Debug, PartialEq, Eq, PartialOrd, Ord, Hash)]
pub enum Refusal {
    // The slope is not admitted.
    Slope = 1,
    // The cell count is not 1 to 4,096.
    CellCount = 2,
    // The number of subscreens is not 1 to 16, or is above the cell count.
    Subscreens = 3,
    // The offset is not below the cell count.
    Offset = 4,
    // A window or a lone place reaches beyond the sheet.
    OffSheet = 5,
    // What is read has not the length that is due.
    InputLength = 6,
    // What is written has not the length that is due.
    OutputLength = 7,
    // A brick buffer is too short, or has a wrong phase.
    Brick = 8,
    // A cell is no colorant's, a pixel is in no plane or in several, or padding is set.
    Plates = 9,
    // A line of a text is not of the form.
    Form = 10,
    // A primary has a value beyond its limits.
    Primary = 11,
    // A price is too high.
    Price = 12,
    // A job has no window, too many of them or too many cells.
    Job = 13,
    // The primaries of sets are not as many as are due.
    PrimariesLength = 14,
    // A screen stores other numbers than those of its brick.
    Stored = 15,
}

// The number that the rules give a refusal.
impl From<Refusal> for u32 {
    ghost from_gives = { λ refusal n. n ≡ number refusal };

    fn from(refusal: Refusal) -> u32 {
        refusal as u32
    }
}

// The number of what refuses a call, or 0 where it is served.
pub fn number_of<T: Copy>(answer: Result<T, Refusal>) -> u32
    ensures { result ≡ number_of answer }
{
    match answer {
        Ok(_) => 0,
        Err(refusal) => u32::from(refusal),
    }
}
