// A tree whose record was loaded, and the bytes of a trace.
ghost use Rattle.std.specs.Prelude.{◌≡◌};
ghost use Rattle.panel_lines.specs.Parts.{Wrote};
ghost use Rattle.sender.specs.declared.RepeatMode.TheVariants.{Off};
ghost use Rattle.sender.specs.Sender.{fresh_sender};
ghost use Rattle.trace_lines.specs.Trace.{events_in, lines_from};
ghost use Rattle.trace_lines.specs.Parts.{Tracing, traced_of, traced_after};

use crate::inner::{read, write};
use refusal::Refusal;
use rule_tree::inner::grown::Grown;
use rule_tree::inner::rules::Rules;
use sender::RepeatMode;
use sender::inner::events::left_by;
use sender::inner::memory::fresh;

// The lines of the body's n events on a fresh sender with repeat off. They were counted for the room that they need; a place moves on by each
// event's own size.
fn put_lines(rules: &Rules<'_>, body: &[u8], n: usize, out: &mut [u8]) -> usize
    requires { Tracing body.now n out.old }
    ensures { Wrote out.old 0 out.new result (lines_from rules.now.grown.tree.now (fresh_sender Off) (events_in body.now)) }
{
    let mut left = fresh(RepeatMode::Off);
    let mut at: usize = 0;
    let mut next: usize = 0;
    for _ in 0..n {
        let rest = &body[at..];
        let e = read::event_in(rest);
        let size = read::size_of(rest);
        let reply = left.event_by(rules, e);
        next = write::put_line(out, next, reply);
        left = left_by(left, reply);
        at += size;
    }
    next
}

// The lines of a trace. A refused trace writes nothing.
#[tactic(auto, using(crate::proofs::Ways::start_bounds))]
pub fn traced(tree: Grown<'_>, bytes: &[u8], out: &mut [u8]) -> Result<usize, Refusal>
    ensures { (result ≡ traced_of tree.entry.tree.now bytes.now out.old) × (out.new ≡ traced_after tree.entry.tree.now bytes.now out.old (traced_of tree.entry.tree.now bytes.now out.old)) }
{
    if !read::start_holds(bytes) {
        return Err(Refusal::BadTrace);
    }
    let body = &bytes[5..];
    let Some(n) = read::count_events(body) else {
        return Err(Refusal::BadTrace);
    };
    if 11 * n > out.len() {
        return Err(Refusal::ShortBuffer);
    }
    let rules = Rules::of(tree);
    Ok(put_lines(&rules, body, n, out))
}
