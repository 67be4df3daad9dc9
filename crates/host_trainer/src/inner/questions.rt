// The question of a trainer, in 31 bytes.
ghost use Rattle.std.specs.Prelude.{◌≡◌};
ghost use Rattle.refusal.specs.Guards.{and_then, lent_after};
ghost use Rattle.host_trainer.specs.Questions.{question_fields, fitted, fields_put, question_put, question_in, question_after};
ghost use Rattle.host_trainer.specs.Parts.{kind_byte};

use refusal::Refusal;
use remy::action::Action;
use trainer::{Question, Trainer};
use wire::inner::write;

// The kinds of a question, each with its byte.
#[derive(Clone, Copy)]
enum Kind {
    Counts = 1,
    Score = 2,
    Done = 3,
}

#[tactic(auto, using(std::proofs::lemmas::Bool::Decides::nat_tests, crate::proofs::QuestionWays::fields_stored), unfolding(crate::specs::Questions::fitted, crate::specs::Questions::fields_put))]
fn put_fields(
    out: &mut [u8],
    kind: Kind,
    leaf: u16,
    a: Action,
    progress: f64,
) -> Result<usize, Refusal>
    ensures { (result ≡ fitted out.old) × (out.new ≡ fields_put (question_fields (kind_byte kind) leaf a progress) out.old) }
{
    if out.len() < 31 {
        return Err(Refusal::ShortBuffer);
    }
    out[0] = kind as u8;
    write::put(out, 1, 2, u64::from(leaf));
    write::put_action(out, 3, a);
    write::put(out, 23, 8, floats::to_bits(progress));
    Ok(31)
}

#[tactic(auto, unfolding(crate::specs::Questions::question_put, crate::specs::Questions::question_bytes))]
fn put_question(q: Question, out: &mut [u8]) -> Result<usize, Refusal>
    ensures { (result ≡ fitted out.old) × (out.new ≡ question_put q out.old) }
{
    let none = Action::new(0.0, 0, 0.0);
    match q {
        Question::Counts(x) => put_fields(out, Kind::Counts, 0, none, x),
        Question::Score(i, a, x) => put_fields(out, Kind::Score, i, a, x),
        Question::Done(x) => put_fields(out, Kind::Done, 0, none, x),
    }
}

// What a trainer that was loaded asks for.
pub fn asked_by(t: Trainer, out: &mut [u8]) -> Result<usize, Refusal>
    ensures { (result ≡ question_in t out.old) × (out.new ≡ question_after t out.old) }
{
    put_question(t.question()?, out)
}

// What a load gives asks for; a refused one is refused on.
pub fn asked(a: Result<Trainer, Refusal>, out: &mut [u8]) -> Result<usize, Refusal>
    ensures { (result ≡ and_then a (λ t. question_in t out.old)) × (out.new ≡ lent_after a out.old (λ t. question_after t out.old)) }
{
    asked_by(a?, out)
}
