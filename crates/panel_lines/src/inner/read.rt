// The input's two parts: the record, and the counts after it.
ghost use Rattle.std.specs.Prelude.{◌≡◌, true, false, ◌+◌, ◌≤◌, length, MatchResult};
ghost use Rattle.refusal.specs.declared.Refusal.TheVariants.{BadLength};
ghost use Rattle.wire.specs.Bytes.{number_at};
ghost use Rattle.panel_lines.specs.Panel.{start_holds};

use record::inner::layout::{LENGTH_SIZE, MOST_LENGTH};
use refusal::Refusal;
use wire::inner::read;

// How many bytes the record has by its first four, which say how many follow them.
pub fn record_size(input: &[u8]) -> usize
    ensures { result ≡ 4 + number_at input.now 0 4 }
{
    LENGTH_SIZE + read::word_at(input, 0) as usize
}

// How many bytes the record has, where the input has as many.
#[tactic(auto, using(std::proofs::lemmas::Bool::Decides::nat_tests), unfolding(crate::specs::Panel::start_holds))]
pub fn record_within(input: &[u8]) -> Result<usize, Refusal>
    ensures { MatchResult result
        (λ n. (start_holds input.now ≡ true) × (n ≡ 4 + number_at input.now 0 4) × (n ≤ length input.now))
        (λ r. (r ≡ BadLength) × (start_holds input.now ≡ false)) }
{
    if input.len() < LENGTH_SIZE {
        return Err(Refusal::BadLength);
    }
    let n = read::word_at(input, 0) as usize;
    if n > MOST_LENGTH || n > input.len() - LENGTH_SIZE {
        return Err(Refusal::BadLength);
    }
    Ok(LENGTH_SIZE + n)
}
