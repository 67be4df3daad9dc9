// Trees that need no record, for hosts, over the bytes that they hold: the split list after another, and the row of the even tree.
#![tactic(auto)]

ghost use Rattle.std.specs.Prelude.{◌≡◌, ◌+◌, ◌*◌, ◌≤◌, length};
ghost use Rattle.std.proofs.lemmas.List.Edits.{sets};
ghost use Rattle.small_trees.specs.Calls.{next_of};
ghost use Rattle.host_trees.specs.Lists.{list_at_of, list_whole, list_bytes, answered_in, answered_after, next_list_in, next_list_after};
ghost use Rattle.host_trees.specs.Rows.{even_row_in};

use refusal::Refusal;
use small_trees::SplitList;
use wire::inner::{read, write};

// Whether the bytes are a length byte and two bytes for each node.
#[tactic(auto, unfolding(crate::specs::Lists::list_whole))]
fn whole(list: &[u8]) -> bool
    ensures { result ≡ list_whole list.now }
{
    let n = read::byte_at(list, 0) as usize;
    list.len() == 1 + 2 * n
}

// What comes after the list that stands in the bytes. A longer list than three nodes is none, so three are read: no more are held.
#[tactic(auto, using(crate::proofs::Lists::long_list, crate::proofs::Lists::nodes_read))]
fn after_in(n: u32, list: &[u8]) -> Result<Option<SplitList>, Refusal>
    ensures { result ≡ next_of n (list_at_of list.now) }
{
    let k = read::byte_at(list, 0) as usize;
    if 3 < k {
        return Err(Refusal::NoSplitList);
    }
    let nodes = [
        read::short_at(list, 1),
        read::short_at(list, 3),
        read::short_at(list, 5),
    ];
    small_trees::next(n, &nodes[..k])
}

#[tactic(auto, using(crate::proofs::Lists::list_written))]
fn put_list(out: &mut [u8], list: &[u16])
    requires { 1 + 2 * length list.now ≤ length out.old }
    ensures { out.new ≡ sets out.old 0 (list_bytes list.now) }
{
    write::put(out, 0, 1, list.len() as u64);
    write::put_list(out, 1, list);
}

// The list written where there is one, and its size; of none no byte.
#[tactic(auto, unfolding(crate::specs::Lists::answered_in, crate::specs::Lists::answered_after))]
fn answered(next: Option<SplitList>, out: &mut [u8]) -> Result<usize, Refusal>
    ensures { (result ≡ answered_in next out.old) × (out.new ≡ answered_after next out.old) }
{
    let Some(list) = next else {
        return Ok(0);
    };
    let size = 1 + 2 * list.as_slice().len();
    if size > out.len() {
        return Err(Refusal::ShortBuffer);
    }
    put_list(out, list.as_slice());
    Ok(size)
}

// The split list after another among those of at most n splits, written as it is read: a length byte, then each node in two.
#[tactic(auto, unfolding(crate::specs::Lists::next_list_in, crate::specs::Lists::next_list_after))]
pub fn next_list(n: u32, list: &[u8], out: &mut [u8]) -> Result<usize, Refusal>
    ensures { (result ≡ next_list_in n list.now out.old) × (out.new ≡ next_list_after n list.now out.old) }
{
    if !whole(list) {
        return Err(Refusal::BadLength);
    }
    let next = after_in(n, list)?;
    answered(next, out)
}

// The row of the even tree that holds the point; 64 where none does, as the C interface has it.
#[tactic(auto, unfolding(crate::specs::Rows::even_row_in))]
pub fn even_row(point: &[u8]) -> Result<usize, Refusal>
    ensures { result ≡ even_row_in point.now }
{
    if point.len() != 24 {
        return Err(Refusal::BadLength);
    }
    let row = even::row_toward(read::point_at(point, 0));
    Ok(row.unwrap_or(64) as usize)
}
