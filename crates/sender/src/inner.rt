// The work behind the public calls. What these functions require, the public calls have tested.
pub mod acks;
pub mod burst;
pub mod events;
pub mod memory;
