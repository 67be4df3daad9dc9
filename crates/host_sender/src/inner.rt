// The work behind the public calls: a sender's fields read and written, and its events taken.
pub mod read;
pub mod run;
pub mod write;
