// The panel's lines: a record and its counts, shown as the share of each leaf.
#![tactic(auto)]

ghost use Rattle.std.specs.Prelude.{◌≡◌};
ghost use Rattle.panel_lines.specs.Panel.{panel_of, out_after};

use crate::inner::{read, show};
use refusal::Refusal;

pub mod inner;

// Writes the lines of the record and the counts that input holds, and answers their size. A refused panel writes nothing. A trace begins with the
// same two lines; one function for both is no plainer, since it would answer the trainer beside the rest of the input.
pub fn panel(input: &[u8], out: &mut [u8]) -> Result<usize, Refusal>
    ensures { (result ≡ panel_of input.now out.old) × (out.new ≡ out_after input.now out.old (panel_of input.now out.old)) }
{
    let n = read::record_within(input)?;
    let t = record::load(&input[..n])?;
    show::counts_shown(&t.tree, &input[n..], out)
}
