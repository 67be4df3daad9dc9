// The bytes of a record, field by field. What is not written stays.
// Each function is handed the buffer and a place. A struct of both is no plainer: docs/SCOPE.md lists the fields by their places, which a place that
// moves would say in steps, and each contract would state the buffer, the place and the room before and after.
ghost use Rattle.std.specs.Prelude.{◌≡◌, true, ◌+◌, ◌*◌, ◌≤◌, length};
ghost use Rattle.std.proofs.lemmas.List.Edits.{sets};
ghost use Rattle.rule_tree.specs.Nodes.{most_splits};
ghost use Rattle.rule_tree.specs.Grown.{grown_of};
ghost use Rattle.record.specs.Layout.{ends_size, size_in};
ghost use Rattle.record.specs.Write.{settings_bytes, splits_bytes, end_bytes, payload_bytes, state_bytes, record_in};
ghost use Rattle.record.specs.Parts.{number_fields, action_fields, place_fields, trial_fields, node_fields};

use crate::inner::layout;
use crate::inner::layout::Layout;
use rule_tree::inner::cubes;
use rule_tree::{Node, RuleTree};
use trainer::Trainer;
use trainer::settings::Settings;
use wire::inner::write::{flag_of, put, put_action, put_list, put_point};

// The settings' numbers and drill.
#[tactic(auto, using(crate::proofs::Writing::numbers_written))]
fn put_numbers(buf: &mut [u8], at: usize, s: &Settings)
    requires { at + 13 ≤ length buf.old }
    ensures { buf.new ≡ sets buf.old at (number_fields s.now) }
{
    put(buf, at, 4, u64::from(s.rule_splits));
    put(buf, at + 4, 4, u64::from(s.optimization_rounds_per_split));
    put(buf, at + 8, 4, u64::from(s.action_change_multiplier));
    buf[at + 12] = flag_of(s.drill_down);
}

// The settings' five actions.
#[tactic(auto, using(crate::proofs::Writing::actions_written))]
fn put_actions(buf: &mut [u8], at: usize, s: &Settings)
    requires { at + 100 ≤ length buf.old }
    ensures { buf.new ≡ sets buf.old at (action_fields s.now) }
{
    put_action(buf, at, s.min_action);
    put_action(buf, at + 20, s.max_action);
    put_action(buf, at + 40, s.initial_action_change);
    put_action(buf, at + 60, s.max_action_change);
    put_action(buf, at + 80, s.default_action);
}

#[tactic(auto, using(crate::proofs::Writing::settings_written))]
fn put_settings(buf: &mut [u8], at: usize, s: &Settings)
    requires { at + 113 ≤ length buf.old }
    ensures { buf.new ≡ sets buf.old at (settings_bytes s.now) }
{
    put_numbers(buf, at, s);
    put_actions(buf, at + layout::NUMBERS_SIZE, s);
}

#[tactic(auto, using(crate::proofs::Writing::splits_written))]
fn put_splits(buf: &mut [u8], at: usize, t: &RuleTree)
    requires { (t.now.splits ≤ most_splits) × (at + (2 + 2 * t.now.splits) ≤ length buf.old) }
    ensures { buf.new ≡ sets buf.old at (splits_bytes t.now) }
{
    let parents = cubes::split_nodes_of(t);
    put(buf, at, 2, u64::from(t.splits));
    put_list(buf, at + 2, &parents[..usize::from(t.splits)]);
}

// The upper ends, where the layout has them. The place after them.
#[tactic(auto, using(crate::proofs::Writing::ends_room), unfolding(crate::specs::Layout::ends_size))]
fn put_ends(buf: &mut [u8], at: usize, l: Layout, s: &Settings) -> usize
    requires { at + ends_size l ≤ length buf.old }
    ensures { (result ≡ at + ends_size l) × (buf.new ≡ sets buf.old at (end_bytes l s.now)) }
{
    if l.ends {
        put_point(buf, at, s.ends);
        return at + layout::ENDS_SIZE;
    }
    at
}

// A node's action and mark, where the layout carries it. The place after it.
#[tactic(auto, using(crate::proofs::Writing::node_count_lem, crate::proofs::Writing::node_written, crate::proofs::Writing::node_skipped))]
fn put_node(buf: &mut [u8], at: usize, l: Layout, x: Node) -> usize
    requires { at + length (node_fields l x) ≤ length buf.old }
    ensures { (result ≡ at + length (node_fields l x)) × (buf.new ≡ sets buf.old at (node_fields l x)) }
{
    if l.carries(x.children) {
        put_action(buf, at, x.action());
        buf[at + layout::ACTION_SIZE] = flag_of(x.optimized);
        return at + layout::NODE_SIZE;
    }
    at
}

// The nodes that the layout carries, by rising number. The place after them.
fn put_nodes(buf: &mut [u8], at: usize, l: Layout, nodes: &[Node]) -> usize
    requires { at + length (payload_bytes l nodes.now (length nodes.now)) ≤ length buf.old }
    ensures { (result ≡ at + length (payload_bytes l nodes.now (length nodes.now)))
        × (buf.new ≡ sets buf.old at (payload_bytes l nodes.now (length nodes.now))) }
{
    let mut next = at;
    for x in nodes {
        next = put_node(buf, next, l, *x);
    }
    next
}

// Where the training stands.
#[tactic(auto, using(crate::proofs::Writing::place_written))]
fn put_place(buf: &mut [u8], at: usize, t: &Trainer)
    requires { at + 11 ≤ length buf.old }
    ensures { buf.new ≡ sets buf.old at (place_fields t.now) }
{
    buf[at] = t.phase;
    put(buf, at + 1, 4, u64::from(t.stage));
    put(buf, at + 5, 4, u64::from(t.round));
    put(buf, at + 9, 2, u64::from(t.leaf));
}

// What has been tried at the leaf.
#[tactic(auto, using(crate::proofs::Writing::trial_written))]
fn put_trial(buf: &mut [u8], at: usize, t: &Trainer)
    requires { at + 20 ≤ length buf.old }
    ensures { buf.new ≡ sets buf.old at (trial_fields t.now) }
{
    put(buf, at, 8, floats::to_bits(t.best));
    put(buf, at + 8, 2, u64::from(t.k));
    put(buf, at + 10, 2, u64::from(t.kept));
    put(buf, at + 12, 8, floats::to_bits(t.kept_score));
}

#[tactic(auto, using(crate::proofs::Writing::state_written))]
fn put_state(buf: &mut [u8], at: usize, t: &Trainer)
    requires { at + 31 ≤ length buf.old }
    ensures { buf.new ≡ sets buf.old at (state_bytes t.now) }
{
    put_place(buf, at, t);
    put_trial(buf, at + 11, t);
}

// The record of a trainer whose tree is grown, in a layout, with its version byte.
#[tactic(auto, using(rule_tree::proofs::Links::grown_splits))]
pub fn write(buf: &mut [u8], l: Layout, version: u8, t: &Trainer)
    requires { (grown_of t.now.tree ≡ true) × (size_in l t.now.tree.splits ≤ length buf.old) }
    ensures stored { buf.new ≡ sets buf.old 0 (record_in l version t.now) }
    ensures size { length (record_in l version t.now) ≡ size_in l t.now.tree.splits }
{
    let splits = usize::from(t.tree.splits);
    put(
        buf,
        0,
        4,
        (l.size(t.tree.splits) - layout::LENGTH_SIZE) as u64,
    );
    buf[layout::LENGTH_SIZE] = version;
    put_settings(buf, layout::SETTINGS_PLACE, &t.settings);
    let count = put_ends(buf, layout::ENDS_PLACE, l, &t.settings);
    put_splits(buf, count, &t.tree);
    let nodes = count + layout::COUNT_SIZE + 2 * splits;
    let all: &[Node] = &t.tree.nodes;
    let state = put_nodes(buf, nodes, l, &all[..1 + 8 * splits]);
    put_state(buf, state, t);
}
