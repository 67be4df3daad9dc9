// Shares in thousandths that add up to 1000: each cut to whole, and one more by the largest remainders, ties to the lower node.
// The project's fixed memory: an array has a place for each node of the greatest tree, and the first of them, one an entry, count. Two loops fill one:
// a function of both is no plainer, since it would be handed a closure and the contract of that.
ghost use Rattle.std.specs.Prelude.{◌≡◌, ◌&&◌, ◌||◌, ◌*◌, ◌/◌, eqb, ltb, length, get_or, take, ◌<◌, ◌≤◌};
ghost use Rattle.rule_tree.specs.Lists.{tabulate};
ghost use Rattle.rule_tree.specs.Nodes.{slots};
ghost use Rattle.panel_lines.specs.Shares.{remainder_at, missing_in, rank_of, share_in, Totalled, Some};

use rule_tree::NODES;

// Counts, and their total, which is not 0.
#[derive(Clone, Copy)]
struct Counted<'a> {
    counts: &'a [u64],
    all: u64,
    ghost some: { Some counts.now all },
}

impl<'a> Counted<'a> {
    // The thousandths that the cut shares leave.
    fn missing(self) -> u64
        ensures { result ≡ missing_in self.entry.counts.now }
    {
        let mut missing: u64 = 1000;
        for count in self.counts {
            missing -= 1000 * *count / self.all;
        }
        missing
    }

    // What the cut leaves of each entry, in parts of the total.
    fn remainders(self) -> [u64; NODES]
        ensures { take (length self.entry.counts.now) result ≡ tabulate (length self.entry.counts.now) (remainder_at self.entry.counts.now) }
    {
        let mut remainders = [0u64; NODES];
        for (i, count) in self.counts.iter().enumerate() {
            remainders[i] = 1000 * *count % self.all;
        }
        remainders
    }
}

// Entry j, whose remainder is other, comes before entry i, whose remainder is own.
fn is_ahead(own: u64, i: usize, other: u64, j: usize) -> bool
    ensures { result ≡ (ltb own other || (eqb other own && ltb j i)) }
{
    own < other || (other == own && j < i)
}

// How many entries come before entry i.
#[tactic(auto, using(crate::proofs::ShareWays::rank_start, crate::proofs::ShareWays::rank_yes, crate::proofs::ShareWays::rank_no, crate::proofs::ShareWays::rank_done))]
fn rank_of(remainders: &[u64], i: usize) -> u64
    requires { (length remainders.now ≤ slots) × (i < length remainders.now) }
    ensures { result ≡ rank_of remainders.now i }
{
    let own = remainders[i];
    let mut rank: u64 = 0;
    for (j, other) in remainders.iter().enumerate() {
        if is_ahead(own, i, *other, j) {
            rank += 1;
        }
    }
    rank
}

// Counts, with what the cut leaves of each and of the thousand.
#[derive(Clone, Copy)]
struct Cut<'c, 'r> {
    counted: Counted<'c>,
    remainders: &'r [u64],
    missing: u64,
    ghost left: { remainders.now ≡ tabulate (length counted.counts.now) (remainder_at counted.counts.now) },
    ghost lacking: { missing ≡ missing_in counted.counts.now },
}

impl<'c, 'r> Cut<'c, 'r> {
    // The share of entry i.
    fn share(self, i: usize) -> u64
        requires { i < length self.counted.counts.now }
        ensures { result ≡ share_in self.entry.counted.counts.now i }
    {
        let cut = 1000 * self.counted.counts[i] / self.counted.all;
        let rank = rank_of(self.remainders, i);
        if rank < self.missing {
            return cut + 1;
        }
        cut
    }
}

// The shares of counts whose total is all.
pub fn shares_of(counts: &[u64], all: u64) -> [u64; NODES]
    requires { Totalled counts.now all }
    ensures { take (length counts.now) result ≡ tabulate (length counts.now) (share_in counts.now) }
{
    let mut shares = [0u64; NODES];
    if all == 0 {
        return shares;
    }
    let counted = Counted { counts, all };
    let remainders = counted.remainders();
    let cut = Cut {
        counted,
        remainders: &remainders[..counts.len()],
        missing: counted.missing(),
    };
    for i in 0..counts.len() {
        shares[i] = cut.share(i);
    }
    shares
}
