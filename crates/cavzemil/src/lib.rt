// The C interface of the library (rules 14.1 to 14.4): its calls under C names, with structs that C lays
// out as it does its own, and slices as a pointer and then a length.
#![tactic(auto)]

mod bills;
mod cellular;
mod colours;
mod making;
mod planes;
mod rules;
mod screens;
mod separations;
mod windows;

pub use bills::{Charge, Prices, cavzemil_charge_of};
pub use cellular::{Cellular, cavzemil_predict_cellular};
pub use colours::{Counts, Prediction, cavzemil_counts_of, cavzemil_predict};
pub use making::{
    Made, cavzemil_make_screen, cavzemil_replace_cells, cavzemil_replace_offset,
    cavzemil_replace_subscreens,
};
pub use planes::{cavzemil_pack, cavzemil_unpack};
pub use rules::cavzemil_rules;
pub use screens::{
    Brick, Place, Screen, cavzemil_brick_of, cavzemil_fill_brick, cavzemil_phase_at,
};
pub use windows::{
    Cell, Rendering, Window, cavzemil_cell_at, cavzemil_render, cavzemil_render_brick,
};
