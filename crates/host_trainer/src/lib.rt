// A trainer for hosts: its record in bytes goes in, the next record comes out.
#![tactic(auto)]

ghost use Rattle.std.specs.Prelude.{◌≡◌};
ghost use Rattle.host_trainer.specs.Records.{start_in, score_answered, counts_answered, written_of, record_after};
ghost use Rattle.host_trainer.specs.Questions.{asked_in_of, asked_after};
ghost use Rattle.host_trainer.specs.Lookups.{lookups, lookups_after, replaced, replaced_after};
ghost use Rattle.host_trainer.specs.Undone.{undone_in};
ghost use Rattle.host_trainer.specs.Changed.{changed_in};

use crate::inner::{change, lookups, questions, records, undo};
use refusal::Refusal;
use rule_tree::inner::grown::Grown;

pub mod inner;

// A new trainer from its settings, as the record has them.
pub fn start(settings: &[u8], out: &mut [u8]) -> Result<usize, Refusal>
    ensures { (result ≡ written_of (start_in settings.now) out.old) × (out.new ≡ record_after (start_in settings.now) out.old) }
{
    records::written(records::started(settings), out)
}

// What the trainer of a record asks for.
pub fn question(held: &[u8], out: &mut [u8]) -> Result<usize, Refusal>
    ensures { (result ≡ asked_in_of held.now out.old) × (out.new ≡ asked_after held.now out.old) }
{
    questions::asked(record::load(held), out)
}

pub fn answer_counts(held: &[u8], counts: &[u8], out: &mut [u8]) -> Result<usize, Refusal>
    ensures { (result ≡ written_of (counts_answered held.now counts.now) out.old) × (out.new ≡ record_after (counts_answered held.now counts.now) out.old) }
{
    records::written(records::counted(held, counts), out)
}

// A score by its bits.
pub fn answer_score(held: &[u8], bits: u64, out: &mut [u8]) -> Result<usize, Refusal>
    ensures { (result ≡ written_of (score_answered held.now bits) out.old) × (out.new ≡ record_after (score_answered held.now bits) out.old) }
{
    records::written(records::scored(held, bits), out)
}

// The record with the newest split of its tree taken back.
pub fn undo_split(held: &[u8], out: &mut [u8]) -> Result<usize, Refusal>
    ensures { (result ≡ written_of (undone_in held.now) out.old) × (out.new ≡ record_after (undone_in held.now) out.old) }
{
    records::written(undo::undone(held), out)
}

// The record with new settings, as the record has them.
pub fn change_settings(held: &[u8], settings: &[u8], out: &mut [u8]) -> Result<usize, Refusal>
    ensures { (result ≡ written_of (changed_in held.now settings.now) out.old) × (out.new ≡ record_after (changed_in held.now settings.now) out.old) }
{
    records::written(change::changed(held, settings), out)
}

// What each point finds in the tree of a record's trainer.
#[tactic(auto, using(record::proofs::Loaded::loaded_grown, record::proofs::Loaded::loaded_few, crate::proofs::LookupWays::looked))]
pub fn lookup(held: &[u8], points: &[u8], out: &mut [u8]) -> Result<usize, Refusal>
    ensures { (result ≡ lookups held.now points.now out.old) × (out.new ≡ lookups_after held.now points.now out.old) }
{
    let t = record::load(held)?;
    lookups::found_by_each(Grown { tree: &t.tree }, points, out)
}

// The same with one leaf's action replaced.
#[tactic(auto, using(record::proofs::Loaded::loaded_grown, record::proofs::Loaded::loaded_few))]
pub fn lookup_replaced(
    held: &[u8],
    leaf: u16,
    action: &[u8],
    points: &[u8],
    out: &mut [u8],
) -> Result<usize, Refusal>
    ensures { (result ≡ replaced held.now leaf action.now points.now out.old) × (out.new ≡ replaced_after held.now leaf action.now points.now out.old) }
{
    let t = record::load(held)?;
    lookups::found_by_replaced(Grown { tree: &t.tree }, leaf, action, points, out)
}
