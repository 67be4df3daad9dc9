// The work behind the calls of a host. What these functions require, the calls have tested.
pub mod change;
pub mod lookups;
pub mod questions;
pub mod records;
pub mod rows;
pub mod undo;
