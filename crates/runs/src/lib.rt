// A list of calls, made on a fresh trainer and on a sender that is fresh or handed in, and the words that are compared.
#![tactic(auto)]

ghost use Rattle.std.specs.Prelude.{◌≡◌, min, length};
ghost use Rattle.runs.specs.Script.{calls_of};
ghost use Rattle.runs.specs.Compared.{compared_of, laid};
ghost use Rattle.runs.specs.Ran.{ran_from, made_of, begun_of, ran_of};
ghost use Rattle.runs.specs.Writing.{Appends};
ghost use Rattle.runs.specs.Turn.{Makes, meant};

use crate::call::Call;
use crate::words::Writer;
use refusal::Refusal;
use sender::Sender;
use trainer::Trainer;

mod call;
mod calls;
mod script;
mod words;

// What the calls act on.
#[derive(Clone, Copy)]
struct State {
    trainer: Trainer,
    sender: Sender,
}

impl State {
    // A call, with its words.
    #[tactic(auto, unfolding(crate::specs::Turn::turn_of))]
    fn make(&mut self, call: Call, w: &mut Writer)
        ensures { Makes self.old (meant call.entry) w.old self.new w.new }
    {
        match call {
            Call::Train(c) => self.trainer = calls::train(self.trainer, c, w),
            Call::React(e) => self.sender = calls::react(self.trainer.tree, self.sender, e, w),
            Call::Look(p) => w.put_looked(self.trainer.tree.action(p).found),
        }
    }
}

// The calls of the script, one after the other, and at the end the record and the sender.
fn make_calls(start: State, script: &[u64], w: &mut Writer)
    ensures { Appends w.old (ran_from start.trainer start.sender (calls_of script.now)) w.new }
{
    let mut state = start;
    let mut rest = &script[script.len().min(46)..];
    while let Some((call, after)) = script::first_call(rest) {
        state.make(call, w);
        rest = after;
    }
    calls::finish(state.trainer, w);
    w.put_sender(state.sender);
}

// The sender of the start: a fresh one, or the one that is handed in.
#[tactic(auto, unfolding(crate::specs::Ran::made_of))]
fn first_sender(script: &[u64]) -> Result<Sender, Refusal>
    ensures { result ≡ made_of script.now }
{
    if script::word(script, 19) == 0 {
        return Sender::new(script::mode(script));
    }
    Ok(script::handed_in(script))
}

// A fresh trainer, and the sender of the start.
#[tactic(auto, unfolding(crate::specs::Ran::begun_of))]
fn begin(script: &[u64]) -> Result<State, Refusal>
    ensures { result ≡ begun_of script.now }
{
    let trainer = Trainer::start(script::settings(script))?;
    let sender = first_sender(script)?;
    Ok(State { trainer, sender })
}

// The calls by their contracts: the question of the start and all that follows it, or the number that the start is refused with.
#[tactic(auto, unfolding(crate::specs::Ran::ran_begun))]
fn run_all(script: &[u64], w: &mut Writer)
    ensures { Appends w.old (ran_of script.now) w.new }
{
    match begin(script) {
        Ok(state) => {
            w.put(0);
            w.put_question(state.trainer.question());
            make_calls(state, script, w);
        }
        Err(r) => w.put(u64::from(r.number())),
    }
}

// Makes the calls of the script on a fresh trainer and the sender of its start, and writes what is compared, as much as out has room for.
pub fn run(script: &[u64], out: &mut [u64]) -> usize
    ensures { (result ≡ min (length (compared_of script.now)) (length out.old)) × (out.new ≡ laid (compared_of script.now) out.old) }
{
    let mut w = Writer::new(out);
    run_all(script, &mut w);
    w.at
}
