// The groups of a list of answers.
ghost use Rattle.std.specs.Prelude.{◌≡◌, Err, drop, MatchResult};
ghost use Rattle.trainer.specs.declared.Trainer.{Trainer};
ghost use Rattle.host_answers.specs.Answers.{group_size, group_on, answers_in};
ghost use Rattle.host_answers.specs.Parts.{kind_of, answers_on};

use crate::inner::tuning::Loaded;
use host_trainer::inner::records;
use refusal::Refusal;
use trainer::Trainer;
use wire::inner::read;

// The kinds of a group, which a byte names.
#[derive(Clone, Copy)]
enum Kind {
    Counts,
    Scores,
}

impl TryFrom<u8> for Kind {
    type Error = Refusal;

    ghost try_from_gives = { λ byte r. r ≡ kind_of byte };

    #[tactic(auto, using(std::proofs::lemmas::Bool::Decides::nat_tests), unfolding(crate::specs::Parts::kind_of))]
    fn try_from(byte: u8) -> Result<Kind, Refusal> {
        match byte {
            1 => Ok(Kind::Counts),
            2 => Ok(Kind::Scores),
            _ => Err(Refusal::BadLength),
        }
    }
}

// A group of answers: its kind, their bytes, and what follows it.
#[derive(Clone, Copy)]
struct Group<'a> {
    kind: Kind,
    body: &'a [u8],
    rest: &'a [u8],
}

impl<'a> Group<'a> {
    // The group that the bytes begin with.
    fn first(bytes: &'a [u8]) -> Result<Group<'a>, Refusal>
        ensures { MatchResult result
            (λ g. (g.rest.now ≡ drop (group_size bytes.now) bytes.now) × ((t : Trainer) → answers_on g.kind g.body.now t ≡ group_on bytes.now t))
            (λ r. (t : Trainer) → group_on bytes.now t ≡ Err r) }
    {
        let n = read::short_at(bytes, 1) as usize;
        let size = 3 + 8 * n;
        if size > bytes.len() {
            return Err(Refusal::BadLength);
        }
        Ok(Group {
            kind: Kind::try_from(read::byte_at(bytes, 0))?,
            body: &bytes[3..size],
            rest: &bytes[size..],
        })
    }

    // What its answers make of a trainer.
    #[tactic(auto, unfolding(crate::specs::Parts::answers_on))]
    fn answered_by(self, t: Loaded<'_>) -> Result<Trainer, Refusal>
        ensures { result ≡ answers_on self.entry.kind self.entry.body.now t.entry.trainer.now }
    {
        match self.kind {
            Kind::Counts => records::counted_of(t.trainer, self.body),
            Kind::Scores => t.scores_on(self.body),
        }
    }
}

// Group by group, to the end or to the first refusal. Each group has its own size, so no range or chunks stand for them.
pub fn groups_on(held: &[u8], list: &[u8]) -> Result<Trainer, Refusal>
    ensures { result ≡ answers_in held.now list.now }
{
    let mut t = record::load(held)?;
    let mut rest = list;
    while !rest.is_empty() {
        let group = Group::first(rest)?;
        t = group.answered_by(Loaded { trainer: &t })?;
        rest = group.rest;
    }
    Ok(t)
}
