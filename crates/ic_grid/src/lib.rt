//! The cells of one sheet, with its rows, columns and merges: preparing a place for writing, arrays, spills, clearing.
#![tactic(auto)]

mod arrays;
mod block;
mod changes;
mod clear;
mod error;
mod grid;
mod handed_in;
mod lines;
mod merges;
mod prepare;
mod room;
mod spill;
mod start;
mod styled;
mod value;
mod walk;
mod whole;
mod write;
mod write_array;

pub use block::{Array, Block};
pub use error::GridError;
pub use grid::Grid;
pub use spill::gathered;
pub use walk::first_from;
