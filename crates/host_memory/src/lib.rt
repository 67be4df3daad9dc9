// What a record's tree makes of a sender's memory, for hosts: the leaves that memory known only within ranges could reach, and lookups with the number of
// cubes tested.
#![tactic(auto)]

ghost use Rattle.std.specs.Prelude.{◌≡◌, ◌+◌, ◌≤◌, length};
ghost use Rattle.std.proofs.lemmas.List.Edits.{sets};
ghost use Rattle.rule_tree.specs.Calls.{opened_in};
ghost use Rattle.host_memory.specs.Within.{range_at, ranges_in, listed_in, listed_after, within_in, within_after};
ghost use Rattle.host_memory.specs.Tested.{row_of, tested_in, tested_after};

use host_trainer::inner::rows::Row;
use host_trainer::inner::{lookups, rows};
use ranges::inner::found_in;
use ranges::{Range, Ranges};
use refusal::Refusal;
use remy::point::Point;
use rule_tree::Lookup;
use rule_tree::inner::grown::Grown;
use rule_tree::inner::rules::Rules;
use wire::inner::{read, write};

fn range_at(bytes: &[u8], at: usize) -> Range
    requires { at ≤ 65000 }
    ensures { result ≡ range_at bytes.now at }
{
    let lowest = read::float_at(bytes, at);
    let highest = read::float_at(bytes, at + 8);
    Range { lowest, highest }
}

fn ranges_in(bytes: &[u8]) -> Ranges
    ensures { result ≡ ranges_in bytes.now }
{
    let ack_ewma = range_at(bytes, 0);
    let send_ewma = range_at(bytes, 16);
    let rtt_ratio = range_at(bytes, 32);
    Ranges {
        ack_ewma,
        send_ewma,
        rtt_ratio,
    }
}

// The leaves of a tree that was tested, written where the ranges are in order and the list is long enough.
fn listed(t: Grown<'_>, r: Ranges, out: &mut [u8]) -> Result<usize, Refusal>
    ensures { (result ≡ listed_in t.entry.tree.now r out.old) × (out.new ≡ listed_after t.entry.tree.now r out.old) }
{
    if !r.ordered() {
        return Err(Refusal::BadRanges);
    }
    let found = found_in(t, r);
    let n = found.len();
    if out.len() / 2 < n {
        return Err(Refusal::ShortList);
    }
    write::put_list(out, 0, found.as_slice());
    Ok(2 * n)
}

// The leaves of a record's tree that some point within the ranges reaches, by rising node, two bytes each. A refused call writes nothing.
#[tactic(auto, using(std::proofs::lemmas::Bool::Decides::nat_tests, record::proofs::Loaded::loaded_grown, record::proofs::Loaded::loaded_few), unfolding(crate::specs::Within::within_in, crate::specs::Within::within_after, refusal::specs::Guards::pass))]
pub fn leaves_within(held: &[u8], ranges: &[u8], out: &mut [u8]) -> Result<usize, Refusal>
    ensures { (result ≡ within_in held.now ranges.now out.old) × (out.new ≡ within_after held.now ranges.now out.old) }
{
    let t = record::load(held)?;
    if ranges.len() != 48 {
        return Err(Refusal::BadLength);
    }
    listed(Grown { tree: &t.tree }, ranges_in(ranges), out)
}

// The leaf of each point with the number of cubes that a search in order tests for it.
#[derive(Clone, Copy)]
struct Opens<'a> {
    rules: Rules<'a>,
}

// What a point finds, and the number of cubes tested in two bytes.
#[tactic(auto, using(crate::proofs::Tested::row_put))]
fn put_row(out: &mut [u8], at: usize, l: Lookup)
    requires { at + 23 ≤ length out.old }
    ensures { out.new ≡ sets out.old at (row_of l) }
{
    lookups::put_found(out, at, l.found);
    write::put(out, at + 21, 2, u64::from(l.tested));
}

impl<'a> Row for Opens<'a> {
    ghost width = { 23 };

    ghost bytes = { λ o p. row_of (opened_in o.rules.grown.tree.now p) };

    fn size(&self) -> usize {
        23
    }

    #[tactic(auto, using(crate::proofs::Tested::row_count))]
    fn put(&self, out: &mut [u8], at: usize, p: Point) {
        put_row(out, at, self.rules.opened(p));
    }
}

// What each point finds in a record's tree, and how many cubes were tested for it. A refused call writes nothing.
#[tactic(auto, using(record::proofs::Loaded::loaded_grown, record::proofs::Loaded::loaded_few))]
pub fn lookup_tested(held: &[u8], points: &[u8], out: &mut [u8]) -> Result<usize, Refusal>
    ensures { (result ≡ tested_in held.now points.now out.old) × (out.new ≡ tested_after held.now points.now out.old) }
{
    let t = record::load(held)?;
    let rules = Rules::of(Grown { tree: &t.tree });
    rows::put_all(&Opens { rules }, points, out)
}
