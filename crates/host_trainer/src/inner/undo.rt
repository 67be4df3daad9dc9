// The newest split of a trainer's tree, taken back.
ghost use Rattle.std.specs.Prelude.{◌≡◌};
ghost use Rattle.host_trainer.specs.Undone.{undone_trainer, undone_in};

use refusal::Refusal;
use trainer::Trainer;

// The trainer over the tree without its newest split; one whose leaf goes with it is refused.
#[tactic(auto, using(std::proofs::lemmas::Bool::Decides::nat_tests), unfolding(crate::specs::Undone::undone_trainer, rule_tree::specs::Calls::undo_of))]
fn without_newest(t: Trainer) -> Result<Trainer, Refusal>
    ensures { result ≡ undone_trainer t }
{
    let tree = t.tree.undo_split()?;
    let nodes = 1 + 8 * u32::from(t.tree.splits);
    if u32::from(t.leaf) + 8 >= nodes {
        return Err(Refusal::NoLeaf);
    }
    Ok(Trainer { tree, ..t })
}

#[tactic(auto, unfolding(crate::specs::Undone::undone_in))]
pub fn undone(held: &[u8]) -> Result<Trainer, Refusal>
    ensures { result ≡ undone_in held.now }
{
    without_newest(record::load(held)?)
}
