// The tree with one leaf's action replaced, seen through a lent slice of its nodes, with the upper ends of its box.
#![tactic(auto)]

ghost use Rattle.std.specs.Prelude.{◌≡◌, true, false, ◌&&◌, ◌≤◌, ltb, length, take, MatchResult};
ghost use Rattle.refusal.specs.declared.Refusal.TheVariants.{NotGrown};
ghost use Rattle.remy.specs.Cube.{root_of};
ghost use Rattle.rule_tree.specs.Nodes.{children_of, is_leaf_of};
ghost use Rattle.rule_tree_view.specs.View.{view_with, view_of, replaced_in, lent_nodes, lent_grown, linked_parents, all_valid, linked_in};

use refusal::Refusal;
use remy::action::Action;
use remy::cube::Cube;
use remy::point::Point;
use rule_tree::inner::grown::Grown;
use rule_tree::inner::leaf::Links;
use rule_tree::inner::links;
use rule_tree::{NODES, Node, RuleTree};

#[derive(Clone, Copy)]
pub struct AugmentedView<'a> {
    pub nodes: &'a [Node],
    pub ends: Point,
    pub leaf: u16,
    pub action: Action,
}

fn parent_count(links: &[u16; NODES]) -> u16
    ensures { result ≡ linked_parents links.now }
{
    links.iter().filter(|c| **c != 0).count() as u16
}

fn all_valid(nodes: &[Node]) -> bool
    ensures { result ≡ all_valid nodes.now }
{
    nodes.iter().all(|x| x.action().valid())
}

// The links of the nodes are those of a tree that splits made, their actions are valid, and the ends are ones that a box may have.
fn linked(nodes: &[Node], links: &[u16; NODES], ends: Point) -> bool
    ensures { result ≡ linked_in nodes.now links.now ends }
{
    let s = parent_count(links);
    nodes.len() == 1 + 8 * usize::from(s)
        && links::linked(links, s)
        && all_valid(nodes)
        && links::ends_hold(ends)
}

// What lookups need of the tree that uses a slice's nodes, where that tree is grown.
fn links_in(nodes: &[Node], ends: Point) -> Result<Links, Refusal>
    ensures { MatchResult result
        (λ l. (lent_grown nodes.now ends ≡ true) × (l.children ≡ children_of (lent_nodes nodes.now)) × (l.root ≡ root_of ends))
        (λ e. (e ≡ NotGrown) × (lent_grown nodes.now ends ≡ false)) }
{
    if nodes.len() > NODES {
        return Err(Refusal::NotGrown);
    }
    let children = links::gathered(nodes);
    if !linked(nodes, &children, ends) {
        return Err(Refusal::NotGrown);
    }
    Ok(Links {
        children,
        root: Cube::root(ends),
    })
}

// A number names a leaf of the nodes.
fn is_leaf(nodes: &[Node], leaf: u16) -> bool
    ensures { result ≡ (ltb leaf (length nodes.now) && is_leaf_of nodes.now leaf) }
{
    nodes
        .get(usize::from(leaf))
        .is_some_and(|x| x.children == 0)
}

impl<'a> AugmentedView<'a> {
    // A public call that stays; it converts nothing.
    pub fn new(nodes: &'a [Node], ends: Point, leaf: u16, action: Action) -> AugmentedView<'a>
        ensures { result ≡ view_with nodes.entry ends leaf action }
    {
        AugmentedView {
            nodes,
            ends,
            leaf,
            action,
        }
    }

    pub fn action(self, p: Point) -> Result<Option<Action>, Refusal>
        ensures { result ≡ view_of self.entry.nodes.now self.entry.ends self.entry.leaf self.entry.action p }
    {
        let links = links_in(self.nodes, self.ends)?;
        if !is_leaf(self.nodes, self.leaf) {
            return Err(Refusal::NoLeaf);
        }
        if !self.action.valid() {
            return Err(Refusal::NotAdmitted);
        }
        let Some(node) = links.leaf(p) else {
            return Ok(None);
        };
        if node == self.leaf {
            return Ok(Some(self.action));
        }
        let x = self.nodes[node as usize];
        Ok(Some(x.action()))
    }
}

// Lookup through a view of the first n nodes of a slice: n is no length of it, but says which part is meant.
pub fn looked_part(
    nodes: &[Node],
    n: usize,
    ends: Point,
    leaf: u16,
    action: Action,
    p: Point,
) -> Result<Option<Action>, Refusal>
    ensures { result ≡ view_of (take n nodes.now) ends leaf action p }
{
    let k = n.min(nodes.len());
    AugmentedView::new(&nodes[..k], ends, leaf, action).action(p)
}

// Lookup in a tree with one leaf's action replaced, through a view of the nodes that it uses.
pub fn looked_through(
    tree: RuleTree,
    leaf: u16,
    action: Action,
    p: Point,
) -> Result<Option<Action>, Refusal>
    ensures { result ≡ replaced_in tree leaf action p }
{
    Grown::of(&tree)?;
    let n = 1 + 8 * (tree.splits as usize);
    AugmentedView::new(&tree.nodes[..n], tree.ends, leaf, action).action(p)
}
