// The work behind the lines: the events read, tried on a sender, and written.
pub mod read;
pub mod show;
pub mod write;
