// The two renderers, and the cell of a lone place (rules 7.1 to 7.8).
#![tactic(auto)]

mod bricks;
mod cells;
mod phases;
mod refusals;
mod rows;
mod windows;
mod worked;

pub use windows::{cell_at, render, render_brick};

// The part of the sheet that a call renders: its corner, and how many columns and rows it has.
#[derive(Clone, Copy)]
pub struct Window {
    pub x: u32,
    pub y: u32,
    pub columns: u32,
    pub rows: u32,
}
