// The sender as a process: a record and a trace of events, and the lines that they are printed as.
#![tactic(auto)]

ghost use Rattle.std.specs.Prelude.{◌≡◌, ◌++◌, length, drop};
ghost use Rattle.trace_lines.specs.Trace.{trace_of, out_after, printed_of};

use crate::inner::{show, write};
use panel_lines::inner::read;
use refusal::Refusal;
use rule_tree::inner::grown::Grown;

pub mod inner;

// Writes the lines of the record and the trace that input holds, and answers their size. A refused trace writes nothing.
pub fn trace(input: &[u8], out: &mut [u8]) -> Result<usize, Refusal>
    ensures { (result ≡ trace_of input.now out.old) × (out.new ≡ out_after input.now out.old (trace_of input.now out.old)) }
{
    let n = read::record_within(input)?;
    let t = record::load(&input[..n])?;
    let tree = Grown { tree: &t.tree };
    show::traced(tree, &input[n..], out)
}

// Every byte that the program prints, the line of a refusal too, and how many they are. The buffer has room for any.
pub fn printed(input: &[u8], out: &mut [u8; 180191]) -> usize
    ensures { (result ≡ length (printed_of input.now)) × (out.new ≡ printed_of input.now ++ drop (length (printed_of input.now)) out.old) }
{
    match trace(input, out) {
        Ok(n) => n,
        Err(refused) => write::put_refusal(out, 0, refused.number()),
    }
}
