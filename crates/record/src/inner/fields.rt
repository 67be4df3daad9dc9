// A record whose split count is one that a tree may have: its tree and its state, each field read at its place.
ghost use Rattle.std.specs.Prelude.{◌≡◌, ◌≤◌, ◌<◌, MatchResult};
ghost use Rattle.refusal.specs.declared.Refusal.TheVariants.{BadField};
ghost use Rattle.rule_tree.specs.Lists.{tabulate};
ghost use Rattle.rule_tree.specs.Nodes.{slots, most_splits};
ghost use Rattle.record.specs.Layout.{list_place};
ghost use Rattle.record.specs.Read.{split_count, link_of, node_with, tree_at, trainer_at};

use crate::inner::layout::{ACTION_SIZE, ENDS_PLACE, Layout, SETTINGS_PLACE};
use crate::inner::{layout, read};
use refusal::Refusal;
use remy::action::Action;
use rule_tree::inner::change;
use rule_tree::{MOST_SPLITS, NODES, Node, RuleTree};
use trainer::Trainer;
use wire::inner::read::{action_at, byte_at, flag_at, float_at, short_at, word_at};

#[derive(Clone, Copy)]
pub struct Fields<'a> {
    pub bytes: &'a [u8],
    pub layout: Layout,
    pub splits: u16,
    ghost few: { splits ≤ most_splits },
}

impl<'a> Fields<'a> {
    pub fn of(bytes: &'a [u8], layout: Layout) -> Result<Fields<'a>, Refusal>
        ensures { MatchResult result
            (λ f. (f.bytes.now ≡ bytes.now) × (f.layout ≡ layout) × (f.splits ≡ split_count layout bytes.now))
            (λ r. (r ≡ BadField) × (most_splits < split_count layout bytes.now)) }
    {
        let splits = read::split_count(bytes, layout);
        if splits > MOST_SPLITS {
            return Err(Refusal::BadField);
        }
        Ok(Fields {
            bytes,
            layout,
            splits,
        })
    }

    // Each node's first child, 0 for a leaf: the splits name the nodes that they made parents.
    fn links(self) -> [u16; NODES]
        ensures { result ≡ tabulate slots (link_of self.entry.bytes.now (list_place self.entry.layout) self.entry.splits) }
    {
        let list = self.layout.list_place();
        let mut out = [0u16; NODES];
        for k in 0..self.splits {
            let node = usize::from(short_at(self.bytes, list + 2 * usize::from(k)));
            if node < NODES {
                out[node] = 8 * k + 1;
            }
        }
        out
    }

    // The node with the first child c: what stands at place at, or a parent with the action given, unmarked, where it is not written.
    fn node(self, given: Action, at: usize, c: u16) -> Node
        requires { at ≤ 60000 }
        ensures { result ≡ node_with self.entry.layout given self.entry.bytes.now at c }
    {
        if self.layout.carries(c) {
            let optimized = flag_at(self.bytes, at + ACTION_SIZE);
            return Node::new(action_at(self.bytes, at), c, optimized);
        }
        Node::new(given, c, false)
    }

    // The nodes that are written stand one after the other.
    fn nodes(self, given: Action) -> [Node; NODES]
        ensures { result ≡ (tree_at self.entry.layout given self.entry.bytes.now self.entry.splits).nodes }
    {
        let children = self.links();
        let n = 1 + 8 * usize::from(self.splits);
        let mut nodes = [change::blank_node(); NODES];
        let mut at = self.layout.nodes_place(self.splits);
        for (i, c) in children[..n].iter().enumerate() {
            nodes[i] = self.node(given, at, *c);
            at += self.layout.node_size(*c);
        }
        nodes
    }

    fn tree(self, given: Action) -> RuleTree
        ensures { result ≡ tree_at self.entry.layout given self.entry.bytes.now self.entry.splits }
    {
        RuleTree {
            nodes: self.nodes(given),
            splits: self.splits,
            ends: read::ends_at(self.bytes, self.layout, ENDS_PLACE),
        }
    }

    // Read field by field, each at its place, as the record lists them.
    pub fn trainer(self) -> Trainer
        ensures { result ≡ trainer_at self.entry.layout self.entry.bytes.now self.entry.splits }
    {
        let bytes = self.bytes;
        let settings = read::settings_at(bytes, self.layout, SETTINGS_PLACE);
        let tree = self.tree(layout::given(&settings));
        let at = self.layout.state_place(self.splits);
        Trainer {
            settings,
            tree,
            phase: byte_at(bytes, at),
            stage: word_at(bytes, at + 1),
            round: word_at(bytes, at + 5),
            leaf: short_at(bytes, at + 9),
            best: float_at(bytes, at + 11),
            k: short_at(bytes, at + 19),
            kept: short_at(bytes, at + 21),
            kept_score: float_at(bytes, at + 23),
        }
    }
}
