// The record: a trainer saved as bytes, and loaded from them.
#![tactic(auto)]

ghost use Rattle.std.specs.Prelude.{◌≡◌};
ghost use Rattle.record.specs.Calls.{save_of, buffer_after, load_of};

use crate::inner::layout::{Layout, VERSION};
use crate::inner::{body, read, write};
use refusal::Refusal;
use trainer::Trainer;

pub mod inner;

// Writes the record of t, and answers its size. A refused save writes nothing.
#[tactic(auto, unfolding(crate::specs::Calls::save_of, crate::specs::Calls::buffer_after))]
pub fn save(t: Trainer, buf: &mut [u8]) -> Result<usize, Refusal>
    ensures { (result ≡ save_of t buf.old) × (buf.new ≡ buffer_after t buf.old (save_of t buf.old)) }
{
    if !t.accepted() {
        return Err(Refusal::NotGrown);
    }
    let l = Layout::of_version(VERSION);
    let size = l.size(t.tree.splits);
    if size > buf.len() {
        return Err(Refusal::ShortBuffer);
    }
    write::write(buf, l, VERSION, &t);
    Ok(size)
}

// The trainer whose record the bytes are.
#[tactic(auto, unfolding(crate::specs::Calls::load_of))]
pub fn load(bytes: &[u8]) -> Result<Trainer, Refusal>
    ensures { result ≡ load_of bytes.now }
{
    if !read::length_holds(bytes) {
        return Err(Refusal::BadLength);
    }
    if !read::version_holds(bytes) {
        return Err(Refusal::UnknownVersion);
    }
    body::read_body(bytes)
}
