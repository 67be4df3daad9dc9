// A tree whose record was loaded, and the bytes of its counts.
ghost use Rattle.std.specs.Prelude.{◌≡◌, ◌≤◌};
ghost use Rattle.rule_tree.specs.Nodes.{most_splits};
ghost use Rattle.panel_lines.specs.Parts.{lines_shown, lines_after, counts_shown, counts_after};

use crate::inner::write;
use refusal::Refusal;
use rule_tree::inner::counts;
use rule_tree::{NODES, RuleTree};
use wire::inner::read;

// Room for the lines of any tree.
const ROOM: usize = 8192;

// The lines are written into a buffer that has room for any, and then into out where that has.
fn lines_shown(t: &RuleTree, xs: &[u64], out: &mut [u8]) -> Result<usize, Refusal>
    requires { t.now.splits ≤ most_splits }
    ensures { (result ≡ lines_shown t.now xs.now out.old) × (out.new ≡ lines_after t.now xs.now out.old (lines_shown t.now xs.now out.old)) }
{
    if !counts::counts_hold(t, xs) {
        return Err(Refusal::BadCounts);
    }
    let all = counts::capped_total(xs);
    let mut buf = [0u8; ROOM];
    let size = write::put_lines(&mut buf, t, xs, all);
    if size > out.len() {
        return Err(Refusal::ShortBuffer);
    }
    write::put(out, 0, &buf[..size]);
    Ok(size)
}

pub fn counts_shown(t: &RuleTree, bytes: &[u8], out: &mut [u8]) -> Result<usize, Refusal>
    requires { t.now.splits ≤ most_splits }
    ensures { (result ≡ counts_shown t.now bytes.now out.old) × (out.new ≡ counts_after t.now bytes.now out.old (counts_shown t.now bytes.now out.old)) }
{
    let n = 1 + 8 * usize::from(t.splits);
    if bytes.len() != 8 * n {
        return Err(Refusal::BadCounts);
    }
    let xs: [u64; NODES] = read::counts_at(bytes, n);
    lines_shown(t, &xs[..n], out)
}
