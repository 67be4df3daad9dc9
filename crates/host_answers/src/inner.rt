// The work behind the call. What these functions require, the call has tested.
pub mod groups;
pub mod steps;
pub mod tuning;
