// The lines, byte by byte. What is not written stays; a function answers the place after what it wrote.
// By hand, part after part: `write!` needs a writer over the buffer, which answers a Result where there is room for all, and no place.
// A struct of buffer and place is no plainer: each contract would state both before and after, and each store renew the room that is left.
ghost use Rattle.std.specs.Prelude.{◌≡◌, ◌+◌, ◌≤◌, length};
ghost use Rattle.rule_tree.specs.Nodes.{node_count};
ghost use Rattle.panel_lines.specs.Panel.{decimal, leaf_line, leaf_lines, first_line, lines_of};
ghost use Rattle.panel_lines.specs.Parts.{Wrote, node_line, listed, Leaves, Lines};

use crate::inner::shares;
use itoa::Buffer;
use rule_tree::{Node, RuleTree};

#[tactic(auto, using(crate::proofs::Texts::text_put))]
pub fn put(buf: &mut [u8], at: usize, text: &[u8]) -> usize
    requires { at + length text.now ≤ length buf.old }
    ensures { Wrote buf.old at buf.new result text.now }
{
    let end = at + text.len();
    buf[at..end].copy_from_slice(text);
    end
}

// x in decimal.
pub fn put_decimal(buf: &mut [u8], at: usize, x: u64) -> usize
    requires { at + length (decimal x) ≤ length buf.old }
    ensures { Wrote buf.old at buf.new result (decimal x) }
{
    let mut digits = Buffer::new();
    put(buf, at, digits.format(x).as_bytes())
}

fn put_leaf(buf: &mut [u8], at: usize, i: u64, share: u64) -> usize
    requires { at + length (leaf_line i share) ≤ length buf.old }
    ensures { Wrote buf.old at buf.new result (leaf_line i share) }
{
    let space = put_decimal(buf, at, i);
    buf[space] = b' ';
    let end = put_decimal(buf, space + 1, share);
    buf[end] = b'\n';
    end + 1
}

// The line of node i, if it is a leaf.
fn put_node(buf: &mut [u8], at: usize, x: Node, i: u64, share: u64) -> usize
    requires { at + length (node_line x i share) ≤ length buf.old }
    ensures { Wrote buf.old at buf.new result (node_line x i share) }
{
    if x.children == 0 {
        return put_leaf(buf, at, i, share);
    }
    at
}

// The leaves by rising node; the shares are one a node.
fn put_leaves(buf: &mut [u8], at: usize, t: &RuleTree, shares: &[u64]) -> usize
    requires { Leaves buf.old at t.now shares.now }
    ensures { Wrote buf.old at buf.new result (leaf_lines t.now.nodes (listed shares.now) (node_count t.now.splits)) }
{
    let mut next = at;
    for (i, share) in shares.iter().enumerate() {
        next = put_node(buf, next, t.nodes[i], i as u64, *share);
    }
    next
}

// The first line, after s splits.
fn put_first(buf: &mut [u8], s: u16) -> usize
    requires { length (first_line s) ≤ length buf.old }
    ensures { Wrote buf.old 0 buf.new result (first_line s) }
{
    let splits = u64::from(s);
    let at = put(buf, 0, b"leaves ");
    let at = put_decimal(buf, at, 1 + 7 * splits);
    let at = put(buf, at, b" splits ");
    let at = put_decimal(buf, at, splits);
    buf[at] = b'\n';
    at + 1
}

// The lines of a tree and its counts, whose total is all.
pub fn put_lines(buf: &mut [u8], t: &RuleTree, counts: &[u64], all: u64) -> usize
    requires { Lines buf.old t.now counts.now all }
    ensures { Wrote buf.old 0 buf.new result (lines_of t.now counts.now) }
{
    let shares = shares::shares_of(counts, all);
    let at = put_first(buf, t.splits);
    put_leaves(buf, at, t, &shares[..counts.len()])
}
