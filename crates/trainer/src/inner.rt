// The work behind the public calls. What these functions require, the public calls have tested.
pub mod accepted;
pub mod ask;
pub mod axes;
pub mod axis;
pub mod begin;
pub mod changing;
pub mod counting;
pub mod kept;
pub mod leaf;
pub mod list;
pub mod scoring;
