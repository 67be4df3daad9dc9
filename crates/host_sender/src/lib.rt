// A sender for hosts: it is kept in 108 bytes, and acks, sends and ticks come in bytes.
#![tactic(auto)]

ghost use Rattle.std.specs.Prelude.{◌≡◌};
ghost use Rattle.host_sender.specs.Layout.{new_in, new_after};
ghost use Rattle.host_sender.specs.Events.{events as events_of, sender_left, replies_left};

use crate::inner::{read, run, write};
use refusal::Refusal;
use rule_tree::inner::grown::Grown;
use sender::Sender;

pub mod inner;

// Writes a new sender with the repeat mode in 9 bytes, and answers its size. A refused call writes nothing.
#[tactic(auto, unfolding(crate::specs::Layout::made_in, crate::specs::Layout::new_in, crate::specs::Layout::new_after))]
pub fn new(mode: &[u8], out: &mut [u8]) -> Result<usize, Refusal>
    ensures { (result ≡ new_in mode.now out.old) × (out.new ≡ new_after mode.now out.old) }
{
    if !read::mode_whole(mode) {
        return Err(Refusal::BadSettings);
    }
    write::store(out, Sender::new(read::mode_at(mode, 0))?)
}

// Takes the events in a list, over the tree of a record's trainer: the sender's bytes become the sender after them, and out gets
// the replies. A refused call writes nothing.
#[tactic(auto, using(record::proofs::Loaded::loaded_grown, record::proofs::Loaded::loaded_few))]
pub fn events(held: &[u8], sender: &mut [u8], list: &[u8], out: &mut [u8]) -> Result<usize, Refusal>
    ensures { (result ≡ events_of held.now sender.old list.now out.old) × (sender.new ≡ sender_left held.now sender.old list.now out.old) × (out.new ≡ replies_left held.now sender.old list.now out.old) }
{
    let t = record::load(held)?;
    run::events_on(Grown { tree: &t.tree }, sender, list, out)
}
