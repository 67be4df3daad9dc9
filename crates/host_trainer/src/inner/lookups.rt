// Lookups of many points in a tree that was tested.
ghost use Rattle.std.specs.Prelude.{◌≡◌, ◌+◌, ◌≤◌, Result, Ok, length, true};
ghost use Rattle.std.proofs.lemmas.List.Edits.{sets};
ghost use Rattle.rule_tree.specs.Calls.{found_in};
ghost use Rattle.host_trainer.specs.Lookups.{found_bytes, rows_in, rows_after, replaced_in, replaced_in_after};

use crate::inner::rows;
use crate::inner::rows::Row;
use refusal::Refusal;
use remy::action::Action;
use remy::point::Point;
use rule_tree::inner::change;
use rule_tree::inner::grown::Grown;
use rule_tree::inner::rules::Rules;
use wire::inner::{read, write};

// 1 and the action, or zeros.
#[tactic(auto, using(crate::proofs::LookupWays::found_put, crate::proofs::LookupWays::none_put))]
pub fn put_some(out: &mut [u8], at: usize, found: Option<Action>)
    requires { at + 21 ≤ length out.old }
    ensures { out.new ≡ sets out.old at (found_bytes (Ok found)) }
{
    match found {
        Some(a) => {
            out[at] = 1;
            write::put_action(out, at + 1, a);
        }
        None => write::put(out, at, 21, 0),
    }
}

// The same of an answer, zeros for a refused one too.
#[tactic(auto, unfolding(crate::specs::Lookups::found_bytes))]
pub fn put_found(out: &mut [u8], at: usize, found: Result<Option<Action>, Refusal>)
    requires { at + 21 ≤ length out.old }
    ensures { out.new ≡ sets out.old at (found_bytes found) }
{
    match found {
        Ok(found) => put_some(out, at, found),
        Err(_) => put_some(out, at, None),
    }
}

impl<'a> Row for Rules<'a> {
    ghost width = { 21 };

    ghost bytes = { λ r p. found_bytes (Ok (found_in r.grown.tree.now p)) };

    fn size(&self) -> usize {
        21
    }

    #[tactic(auto, using(crate::proofs::LookupWays::found_count))]
    fn put(&self, out: &mut [u8], at: usize, p: Point) {
        put_some(out, at, self.find(p));
    }
}

pub fn found_by_each(tree: Grown<'_>, points: &[u8], out: &mut [u8]) -> Result<usize, Refusal>
    ensures { (result ≡ rows_in 21 points.now out.old) × (out.new ≡ rows_after 21 (λ p. found_bytes (Ok (found_in tree.entry.tree.now p))) points.now out.old) }
{
    rows::put_all(&Rules::of(tree), points, out)
}

// The tree with one leaf's action replaced is grown too, so it is looked through as it is.
#[tactic(auto, using(std::proofs::lemmas::Bool::Decides::nat_tests, rule_tree::proofs::Changing::action_grown, rule_tree::proofs::Links::grown_splits, crate::proofs::LookupWays::replaced_found), unfolding(crate::specs::Lookups::replaced_in, crate::specs::Lookups::replaced_in_after, refusal::specs::Guards::pass))]
pub fn found_by_replaced(
    tree: Grown<'_>,
    leaf: u16,
    action: &[u8],
    points: &[u8],
    out: &mut [u8],
) -> Result<usize, Refusal>
    ensures { (result ≡ replaced_in tree.entry.tree.now leaf action.now points.now out.old) × (out.new ≡ replaced_in_after tree.entry.tree.now leaf action.now points.now out.old) }
{
    tree.leaf(leaf)?;
    if action.len() != 20 {
        return Err(Refusal::BadLength);
    }
    let other = read::action_at(action, 0);
    if !other.valid() {
        return Err(Refusal::NotAdmitted);
    }
    let changed = change::with_action(*tree.tree, leaf, other);
    found_by_each(Grown { tree: &changed }, points, out)
}
