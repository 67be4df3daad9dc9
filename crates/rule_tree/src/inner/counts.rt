// Counts, one a node: a list of its own beside the tree, since callers lend it so. No struct of the counts that were tested holds for all calls: a
// tally changes the counts that it is lent.
ghost use Rattle.std.specs.Prelude.{◌≡◌, ◌≤◌, ◌<◌, length};
ghost use Rattle.rule_tree.specs.Nodes.{slots, most_splits};
ghost use Rattle.rule_tree.specs.Counts.{capped_total, none_at_parents, counts_hold, used_in, eligible, most_used};

use crate::{MOST_COUNTED, Node, RuleTree};

// One more than the greatest total.
const OVER: u64 = MOST_COUNTED + 1;

// The total, or one more than 2^53 where it is above that: a number and no Option, since both limits are tested by comparing it.
pub fn capped_total(counts: &[u64]) -> u64
    ensures { result ≡ capped_total counts.now }
{
    let mut total: u64 = 0;
    for x in counts {
        if MOST_COUNTED - total < *x {
            return OVER;
        }
        total += *x;
    }
    total
}

fn none_at_parents(t: &RuleTree, counts: &[u64]) -> bool
    requires { length counts.now ≤ slots }
    ensures { result ≡ none_at_parents t.now.nodes counts.now (length counts.now) }
{
    counts
        .iter()
        .zip(&t.nodes)
        .all(|(n, x)| x.children == 0 || *n == 0)
}

#[tactic(auto, unfolding(crate::specs::Counts::counts_hold))]
pub fn counts_hold(t: &RuleTree, counts: &[u64]) -> bool
    requires { t.now.splits ≤ most_splits }
    ensures { result ≡ counts_hold t.now counts.now }
{
    counts.len() == 1 + 8 * (t.splits as usize)
        && none_at_parents(t, counts)
        && capped_total(counts) <= MOST_COUNTED
}

// How many counts are above 0.
pub fn used(counts: &[u64]) -> u32
    requires { length counts.now ≤ slots }
    ensures { result ≡ used_in counts.now }
{
    counts.iter().filter(|n| **n > 0).count() as u32
}

#[tactic(auto, unfolding(crate::specs::Counts::eligible))]
fn is_eligible(x: Node, unmarked: bool) -> bool
    ensures { result ≡ eligible x unmarked }
{
    x.children == 0 && !(unmarked && x.optimized)
}

// The leaf with the greatest count, the highest of several; unmarked leaves alone where asked.
pub fn most_used(t: &RuleTree, counts: &[u64], unmarked: bool) -> Option<u16>
    requires { length counts.now ≤ slots }
    ensures { result ≡ most_used t.now.nodes counts.now unmarked (length counts.now) }
{
    let mut best: Option<u16> = None;
    let mut most: u64 = 0;
    for (i, n) in counts.iter().enumerate() {
        if is_eligible(t.nodes[i], unmarked) && most <= *n {
            best = Some(i as u16);
            most = *n;
        }
    }
    best
}
