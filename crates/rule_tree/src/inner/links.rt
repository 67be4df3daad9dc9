// The test of a tree: how its nodes hang together, and what they hold.
ghost use Rattle.std.specs.Prelude.{◌≡◌, not, ◌≤◌, length, get_or};
ghost use Rattle.rule_tree.specs.Lists.{count_below};
ghost use Rattle.rule_tree.specs.Nodes.{links_of, children_of, is_leaf_of, slots, most_splits};
ghost use Rattle.rule_tree.specs.Grown.{link_holds, links_hold, owners_of, all_ones, linked_of, plain_of, slot_holds, payloads_hold, ends_hold, grown_of};

use crate::{MOST_SPLITS, NODES, Node, RuleTree, SPLITS};
use remy::point::Point;

// Each node's first child, 0 for a leaf and past the last node: the project's fixed memory, an array of a tree's most nodes.
pub fn gathered(nodes: &[Node]) -> [u16; NODES]
    requires { length nodes.now ≤ slots }
    ensures { result ≡ links_of nodes.now (length nodes.now) }
{
    let mut links = [0u16; NODES];
    for (i, x) in nodes.iter().enumerate() {
        links[i] = x.children;
    }
    links
}

pub fn children_of(t: &RuleTree) -> [u16; NODES]
    ensures { result ≡ children_of t.now.nodes }
{
    gathered(&t.nodes)
}

// A leaf, or a parent whose first child is the first of a split's eight nodes and comes after it.
#[tactic(auto, unfolding(crate::specs::Grown::link_holds))]
fn link_holds(splits: u16, c: u16, i: usize) -> bool
    ensures { result ≡ link_holds splits c i }
{
    c == 0 || (c % 8 == 1 && i < (c as usize) && (c as usize) < 1 + 8 * (splits as usize))
}

// The splits are the tree's number, which the links must fit, and no length of the array; so in linked.
fn links_hold(children: &[u16; NODES], splits: u16) -> bool
    ensures { result ≡ links_hold children.now splits }
{
    children
        .iter()
        .enumerate()
        .all(|(i, c)| link_holds(splits, *c, i))
}

// How many nodes have the eight nodes of each split for children.
fn owners(children: &[u16; NODES]) -> [u16; SPLITS]
    ensures { result ≡ owners_of children.now }
{
    let mut out = [0u16; SPLITS];
    for c in children {
        let k = *c / 8;
        if *c % 8 == 1 && k < MOST_SPLITS {
            out[k as usize] += 1;
        }
    }
    out
}

fn all_ones(owners: &[u16; SPLITS], splits: u16) -> bool
    requires { splits ≤ most_splits }
    ensures { result ≡ all_ones owners.now splits }
{
    owners[..splits as usize].iter().all(|n| *n == 1)
}

#[tactic(auto, unfolding(crate::specs::Grown::linked_of))]
pub fn linked(children: &[u16; NODES], splits: u16) -> bool
    ensures { result ≡ linked_of children.now splits }
{
    splits <= MOST_SPLITS && links_hold(children, splits) && all_ones(&owners(children), splits)
}

// The action is (+0, 0, +0), bit by bit, where == would take -0 for +0, and the node is unmarked.
#[tactic(auto, unfolding(crate::specs::Grown::plain_of))]
fn plain(x: Node) -> bool
    ensures { result ≡ plain_of x }
{
    floats::to_bits(x.window_multiplier) == 0
        && x.window_increment == 0
        && floats::to_bits(x.intersend_delay.0) == 0
        && !x.optimized
}

#[tactic(auto, unfolding(crate::specs::Grown::slot_holds))]
fn slot_holds(x: Node, used: bool) -> bool
    ensures { result ≡ slot_holds x used }
{
    if used { x.action().valid() } else { plain(x) }
}

fn payloads_hold(t: &RuleTree) -> bool
    ensures { result ≡ payloads_hold t.now.nodes t.now.splits }
{
    let n = 1 + 8 * (t.splits as usize);
    t.nodes
        .iter()
        .enumerate()
        .all(|(i, x)| slot_holds(*x, i < n))
}

// The upper ends are ones that a box may have.
#[tactic(auto, unfolding(crate::specs::Grown::ends_hold))]
pub fn ends_hold(e: Point) -> bool
    ensures { result ≡ ends_hold e }
{
    e.ends_admitted()
}

#[tactic(auto, unfolding(crate::specs::Grown::grown_of))]
pub fn grown(t: &RuleTree) -> bool
    ensures { result ≡ grown_of t.now }
{
    linked(&children_of(t), t.splits) && payloads_hold(t) && ends_hold(t.ends)
}

pub fn num_parents(t: &RuleTree) -> u32
    ensures { result ≡ count_below slots (λ i. not (is_leaf_of t.now.nodes i)) }
{
    t.nodes.iter().filter(|x| x.children != 0).count() as u32
}
