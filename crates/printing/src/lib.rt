// Standard output, for the test programs: what `write!` writes to.
#![tactic(auto)]

use std::fmt;

// Standard output. A piece that it does not take is lost, and what is written after it is tried all the same.
// `write!` makes a piece of each value and of each stretch of text between values; what a full pipe loses shows
// where they are cut, so that the programs keep to the pieces that they wrote from the first.
#[derive(Clone, Copy)]
pub struct Output;

impl fmt::Write for Output {
    fn write_str(&mut self, text: &str) -> fmt::Result {
        let _taken = io::write_all(1, text.as_bytes());
        Ok(())
    }
}
