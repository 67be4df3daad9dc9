// Reading and writing at a place. What these functions require, their callers have tested.
// The bytes and the place are two parameters and no cursor: a layout says `at + 8`, and a moved cursor's contract would say it in steps.
pub mod read;
pub mod write;
