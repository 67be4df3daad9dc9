// The work behind the panel: the input's two parts read, the counts tested, the shares, and the lines written.
pub mod read;
pub mod shares;
pub mod show;
pub mod write;
