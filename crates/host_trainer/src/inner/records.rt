// A trainer out of a host's bytes, what an answer makes of it, and its record.
ghost use Rattle.std.specs.Prelude.{◌≡◌};
ghost use Rattle.trainer.specs.Calls.{answer_counts_of};
ghost use Rattle.host_trainer.specs.Records.{settings_in, settings_of, start_in, counts_in, score_answered, counts_answered, written_of, record_after};
ghost use Rattle.host_trainer.specs.Parts.{count_of};

use record::inner::layout::{ENDS_SIZE, Layout, SETTINGS_SIZE, VERSION};
use refusal::Refusal;
use rule_tree::NODES;
use trainer::Trainer;
use trainer::inner::counting::answered;
use trainer::settings::Settings;
use wire::inner::read;

// The bytes of a list of as many counts as a tree has nodes at most.
const MOST_COUNTS: usize = 8 * NODES;

// The record of the trainer after a call; of a refused call nothing.
#[tactic(auto, unfolding(crate::specs::Records::written_of, crate::specs::Records::record_after))]
pub fn written(a: Result<Trainer, Refusal>, out: &mut [u8]) -> Result<usize, Refusal>
    ensures { (result ≡ written_of a out.old) × (out.new ≡ record_after a out.old) }
{
    record::save(a?, out)
}

// The settings as the record has them, the upper ends last.
pub fn settings_in(bytes: &[u8]) -> Settings
    ensures { result ≡ settings_in bytes.now }
{
    record::inner::read::settings_at(bytes, Layout::of_version(VERSION), 0)
}

// The same where the bytes are settings: other lengths, and a drill byte that is neither 0 nor 1, are not.
#[tactic(auto, using(std::proofs::lemmas::Bool::Decides::nat_tests), unfolding(crate::specs::Records::settings_of, crate::specs::Records::settings_whole))]
pub fn settings_of(bytes: &[u8]) -> Result<Settings, Refusal>
    ensures { result ≡ settings_of bytes.now }
{
    if bytes.len() != SETTINGS_SIZE + ENDS_SIZE || read::byte_at(bytes, 12) > 1 {
        return Err(Refusal::BadSettings);
    }
    Ok(settings_in(bytes))
}

#[tactic(auto, unfolding(crate::specs::Records::start_in))]
pub fn started(settings: &[u8]) -> Result<Trainer, Refusal>
    ensures { result ≡ start_in settings.now }
{
    Trainer::start(settings_of(settings)?)
}

#[tactic(auto, unfolding(crate::specs::Records::score_answered))]
pub fn scored(held: &[u8], bits: u64) -> Result<Trainer, Refusal>
    ensures { result ≡ score_answered held.now bits }
{
    record::load(held)?.answer_score(floats::from_bits(bits))
}

// How many counts there are: none where they are cut, or more than any tree's. No Option: such a list is one of none, which no tree takes.
#[tactic(auto, using(std::proofs::lemmas::Bool::Decides::nat_tests), unfolding(crate::specs::Parts::count_of))]
pub fn count_of(bytes: &[u8]) -> usize
    ensures { result ≡ count_of bytes.now }
{
    let n = bytes.len();
    if n % 8 == 0 && n <= MOST_COUNTS {
        n / 8
    } else {
        0
    }
}

// What the counts of the bytes make of a trainer, which is lent.
#[tactic(auto, using(crate::proofs::RecordWays::count_few, crate::proofs::RecordWays::counts_lent))]
pub fn counted_of(t: &Trainer, bytes: &[u8]) -> Result<Trainer, Refusal>
    ensures { result ≡ answer_counts_of t.now (counts_in bytes.now) }
{
    let n = count_of(bytes);
    let counts: [u64; NODES] = read::counts_at(bytes, n);
    answered(t, &counts[..n])
}

pub fn counted_by(t: Trainer, bytes: &[u8]) -> Result<Trainer, Refusal>
    ensures { result ≡ answer_counts_of t (counts_in bytes.now) }
{
    counted_of(&t, bytes)
}

#[tactic(auto, unfolding(crate::specs::Records::counts_answered))]
pub fn counted(held: &[u8], counts: &[u8]) -> Result<Trainer, Refusal>
    ensures { result ≡ counts_answered held.now counts.now }
{
    counted_by(record::load(held)?, counts)
}
