// The work behind save and load: the layout, the fields written, the fields read, and what is read tested.
pub mod body;
pub mod fields;
pub mod layout;
pub mod read;
pub mod write;
