// Many answers to a trainer for hosts, in one call: its record is loaded once and saved once.
#![tactic(auto)]

ghost use Rattle.std.specs.Prelude.{◌≡◌};
ghost use Rattle.host_trainer.specs.Records.{written_of, record_after};
ghost use Rattle.host_answers.specs.Answers.{answers_in};

use crate::inner::groups;
use host_trainer::inner::records;
use refusal::Refusal;

pub mod inner;

// Answers in turn: groups of counts and scores. All are taken, or the first refusal is the call's and nothing changes.
pub fn answers(held: &[u8], list: &[u8], out: &mut [u8]) -> Result<usize, Refusal>
    ensures { (result ≡ written_of (answers_in held.now list.now) out.old) × (out.new ≡ record_after (answers_in held.now list.now) out.old) }
{
    records::written(groups::groups_on(held, list), out)
}
