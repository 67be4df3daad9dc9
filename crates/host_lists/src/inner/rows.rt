// Actions written one after the other, 20 bytes each.
ghost use Rattle.std.specs.Prelude.{◌≡◌, true, Some, ◌+◌, ◌-◌, ◌*◌, ◌<◌, ◌≤◌, length, drop, get_or};
ghost use Rattle.std.proofs.lemmas.List.Edits.{sets};
ghost use Rattle.trainer.specs.Settings.{settings_hold};
ghost use Rattle.trainer.specs.Candidates.{candidates_of, no_candidate};
ghost use Rattle.trainer.specs.State.{accepted_of};
ghost use Rattle.trainer.specs.Phase.{phase_of};
ghost use Rattle.wire.specs.Fields.{action_at};
ghost use Rattle.host_lists.specs.Lists.{list_bytes, list_fits, list_after, asked_in_a_row};
ghost use Rattle.host_lists.specs.Parts.{product_of, Few, own_part, row_of, candidates_with, candidates_with_after};

use refusal::Refusal;
use remy::action::Action;
use trainer::Trainer;
use trainer::inner::leaf::AtLeaf;
use trainer::inner::list::Candidates;
use trainer::phase::Phase;
use trainer::settings::Settings;
use wire::inner::{read, write};

// What each axis of a change keeps, computed once. Their product is the list of candidates, the multiplier outermost.
#[derive(Clone, Copy)]
struct Axes<'a> {
    multipliers: &'a [f64],
    increments: &'a [i32],
    delays: &'a [f64],
    ghost few: { Few multipliers.now increments.now delays.now },
}

impl<'a> Axes<'a> {
    #[tactic(auto, using(crate::proofs::Products::each_few, crate::proofs::Products::all_few))]
    fn len(self) -> usize
        ensures value { result ≡ length self.entry.multipliers.now * (length self.entry.increments.now * length self.entry.delays.now) }
        ensures few { result ≤ 4096 }
    {
        self.multipliers.len() * (self.increments.len() * self.delays.len())
    }

    // Action k of the product.
    fn at(self, k: usize) -> Action
        requires { k < length self.multipliers.now * (length self.increments.now * length self.delays.now) }
        ensures { result ≡ get_or (product_of self.entry.multipliers.now self.entry.increments.now self.entry.delays.now) k no_candidate }
    {
        let each = self.increments.len() * self.delays.len();
        let rest = k % each;
        let m = self.multipliers[k / each];
        let i = self.increments[rest / self.delays.len()];
        let d = self.delays[rest % self.delays.len()];
        Action::new(m, i, d)
    }

    // The actions of the product from number from on.
    fn put(self, out: &mut [u8], at: usize, from: usize)
        requires held { from ≤ length self.multipliers.now * (length self.increments.now * length self.delays.now) }
        requires room { at + 20 * (length self.multipliers.now * (length self.increments.now * length self.delays.now) - from) ≤ length out.old }
        ensures { out.new ≡ sets out.old at (list_bytes (drop from (product_of self.entry.multipliers.now self.entry.increments.now self.entry.delays.now))) }
    {
        for j in 0..self.len() - from {
            let a = self.at(from + j);
            write::put_action(out, at + 20 * j, a);
        }
    }

    // The action itself where it is given, then the product from number from on.
    fn put_row(self, out: &mut [u8], own: Option<Action>, from: usize) -> Result<usize, Refusal>
        requires { from ≤ length self.multipliers.now * (length self.increments.now * length self.delays.now) }
        ensures { (result ≡ list_fits (row_of own from (product_of self.entry.multipliers.now self.entry.increments.now self.entry.delays.now)) out.old)
            × (out.new ≡ list_after (row_of own from (product_of self.entry.multipliers.now self.entry.increments.now self.entry.delays.now)) out.old) }
    {
        let at = own_size(own);
        let size = at + 20 * (self.len() - from);
        if size > out.len() {
            return Err(Refusal::ShortBuffer);
        }
        put_own(out, own);
        self.put(out, at, from);
        Ok(size)
    }
}

// The size is wanted before the first byte is written, so it is no answer of put_own.
#[tactic(auto, unfolding(crate::specs::Parts::own_part))]
fn own_size(own: Option<Action>) -> usize
    ensures { result ≡ 20 * length (own_part own) }
{
    match own {
        Some(_) => 20,
        None => 0,
    }
}

#[tactic(auto, using(crate::proofs::Listing::own_put, crate::proofs::Listing::own_none), unfolding(crate::specs::Parts::own_part))]
fn put_own(out: &mut [u8], own: Option<Action>)
    requires { 20 * length (own_part own) ≤ length out.old }
    ensures { out.new ≡ sets out.old 0 (list_bytes (own_part own)) }
{
    if let Some(a) = own {
        write::put_action(out, 0, a);
    }
}

// The candidates of an action from number from on, after the action that is given.
fn put_candidates(
    list: Candidates<'_>,
    own: Option<Action>,
    from: usize,
    out: &mut [u8],
) -> Result<usize, Refusal>
    requires { from ≤ length (candidates_of list.settings.now list.action) }
    ensures { (result ≡ list_fits (row_of own from (candidates_of list.entry.settings.now list.entry.action)) out.old)
        × (out.new ≡ list_after (row_of own from (candidates_of list.entry.settings.now list.entry.action)) out.old) }
{
    let m = list.multiplier_sums();
    let i = list.increment_sums();
    let d = list.delay_sums();
    let axes = Axes {
        multipliers: m.as_slice(),
        increments: i.as_slice(),
        delays: d.as_slice(),
    };
    axes.put_row(out, own, from)
}

#[tactic(auto, using(std::proofs::lemmas::Bool::Decides::nat_tests), unfolding(crate::specs::Parts::candidates_with, crate::specs::Parts::candidates_with_after, crate::specs::Parts::own_part, refusal::specs::Guards::pass))]
pub fn candidates_with(s: &Settings, action: &[u8], out: &mut [u8]) -> Result<usize, Refusal>
    requires { settings_hold s.now ≡ true }
    ensures { (result ≡ candidates_with s.now action.now out.old) × (out.new ≡ candidates_with_after s.now action.now out.old) }
{
    if action.len() != 20 {
        return Err(Refusal::BadLength);
    }
    let a = read::action_at(action, 0);
    if !a.valid() {
        return Err(Refusal::NotAdmitted);
    }
    let list = Candidates {
        settings: s,
        action: a,
    };
    put_candidates(list, None, 0, out)
}

fn asked_in(t: &Trainer, phase: Phase, out: &mut [u8]) -> Result<usize, Refusal>
    requires accepted { accepted_of t.now ≡ true }
    requires named { phase_of t.now.phase ≡ Some phase }
    ensures { (result ≡ list_fits (asked_in_a_row t.now) out.old) × (out.new ≡ list_after (asked_in_a_row t.now) out.old) }
{
    match phase {
        Phase::Own => {
            let list = AtLeaf { trainer: t }.candidates();
            put_candidates(list, Some(list.action), 0, out)
        }
        Phase::Try => {
            let list = AtLeaf { trainer: t }.candidates();
            put_candidates(list, None, usize::from(t.k), out)
        }
        _ => Ok(0),
    }
}

// What an accepted trainer asks for in a row.
#[tactic(auto, using(crate::proofs::Rows::row_nowhere))]
pub fn asked_by(t: &Trainer, out: &mut [u8]) -> Result<usize, Refusal>
    requires { accepted_of t.now ≡ true }
    ensures { (result ≡ list_fits (asked_in_a_row t.now) out.old) × (out.new ≡ list_after (asked_in_a_row t.now) out.old) }
{
    match Phase::of(t.phase) {
        Some(phase) => asked_in(t, phase, out),
        None => Ok(0),
    }
}
