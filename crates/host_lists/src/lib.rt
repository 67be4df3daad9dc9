// Lists of actions for hosts, over the bytes that they hold: an action's candidates, what a trainer asks for in a row, and whether two trees are equal.
#![tactic(auto)]

ghost use Rattle.std.specs.Prelude.{◌≡◌};
ghost use Rattle.record.specs.Calls.{load_of};
ghost use Rattle.host_lists.specs.Lists.{candidates_in, candidates_after, row_in, row_after, equal_in};

use crate::inner::rows;
use host_trainer::inner::records;
use refusal::Refusal;

pub mod inner;

// All candidates of an action, 20 bytes each.
#[tactic(auto, using(std::proofs::lemmas::Bool::Decides::nat_tests), unfolding(crate::specs::Lists::candidates_in, crate::specs::Lists::candidates_after, crate::specs::Parts::candidates_with, crate::specs::Parts::candidates_with_after, host_trainer::specs::Records::settings_of, refusal::specs::Guards::pass))]
pub fn candidates(settings: &[u8], action: &[u8], out: &mut [u8]) -> Result<usize, Refusal>
    ensures { (result ≡ candidates_in settings.now action.now out.old) × (out.new ≡ candidates_after settings.now action.now out.old) }
{
    let s = records::settings_of(settings)?;
    if !s.hold() {
        return Err(Refusal::BadSettings);
    }
    rows::candidates_with(&s, action, out)
}

// The actions whose scores the trainer of a record asks for in a row, 20 bytes each.
#[tactic(auto, using(record::proofs::Loaded::loaded_accepted), unfolding(crate::specs::Lists::row_in, crate::specs::Lists::row_after))]
pub fn asked(held: &[u8], out: &mut [u8]) -> Result<usize, Refusal>
    ensures { (result ≡ row_in (load_of held.now) out.old) × (out.new ≡ row_after (load_of held.now) out.old) }
{
    let t = record::load(held)?;
    rows::asked_by(&t, out)
}

// Whether the trees of two records are equal: 1 or 0, as the C interface has it.
#[tactic(auto, unfolding(crate::specs::Lists::equal_in))]
pub fn equal(a: &[u8], b: &[u8]) -> Result<usize, Refusal>
    ensures { result ≡ equal_in (load_of a.now) (load_of b.now) }
{
    let first = record::load(a)?;
    let second = record::load(b)?;
    let same = rule_tree::inner::equal::equal(&first.tree, &second.tree);
    Ok(usize::from(same))
}
