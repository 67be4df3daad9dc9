// The calls, each with the lines that it prints.
ghost use Rattle.std.specs.Prelude.{◌≤◌};

use crate::input::{self, Call, Code};
use crate::lines::{Hex, Listed, Maybe, Shown};
use crate::output::Output;
use host_sender::inner::run::ack_at;
use record::inner::layout::{Layout, VERSION};
use record::inner::read::settings_at;
use refusal::Refusal;
use remy::action::Action;
use rule_tree::{AugmentedRuleTree, NODES, RuleTree};
use sender::{Event, Held, Sender};
use trainer::{Trainer, candidates};
use wire::inner::read::{action_at, byte_at, counts_at, float_at, point_at, short_at, word_at};
use xoshiro::State;

// The most counts that a script gives.
pub(crate) const MOST_COUNTS: usize = 600;

// What the calls act on: the trainer, the sender, the generator, a list of counts, one a node, and the lines.
// The counts have room for the largest tree. How many there are the trainer's tree says, and a list of that length would say it twice.
#[derive(Drop)]
pub(crate) struct Replay {
    pub(crate) trainer: Trainer,
    pub(crate) sender: Sender,
    pub(crate) generator: State,
    pub(crate) counts: [u64; NODES],
    pub(crate) out: Output,
}

// One count a node, in a tree of so many splits.
fn counts_of(splits: u16) -> usize
    ensures { result ≤ 513 }
{
    (1 + 8 * usize::from(splits)).min(NODES)
}

// New settings. A drill byte that is neither 0 nor 1 is refused with them.
fn with_settings(t: Trainer, fields: &[u8]) -> Result<Trainer, Refusal> {
    if byte_at(fields, 12) > 1 {
        return Err(Refusal::BadSettings);
    }
    t.change_settings(settings_at(fields, Layout::of_version(VERSION), 0))
}

// The record of a trainer, in lent bytes.
fn saved<'a>(t: Trainer, bytes: &'a mut [u8]) -> Result<&'a [u8], Refusal> {
    let n = record::save(t, bytes)?.min(bytes.len());
    Ok(&bytes[..n])
}

impl Replay {
    // What the trainer asks.
    pub(crate) fn ask(&mut self) {
        match self.trainer.question() {
            Ok(question) => self.out.line(Shown(question)),
            Err(why) => self.out.refused(why),
        }
    }

    // The end of the script.
    pub(crate) fn finish(&mut self) {
        let mut bytes = io::large_buffer();
        match saved(self.trainer, &mut bytes) {
            Ok(record) => self.out.line(format_args!("record {}", Hex(record))),
            Err(why) => self.out.refused(why),
        }
    }

    // The counts start anew where the tree has another number of nodes.
    fn take(&mut self, trainer: Trainer) {
        if self.trainer.tree.splits != trainer.tree.splits {
            self.counts = [0; NODES];
        }
        self.trainer = trainer;
    }

    // A trainer that is refused stays.
    fn answered(&mut self, answer: Result<Trainer, Refusal>, word: &str) -> Result<(), Refusal> {
        let trainer = answer?;
        self.out.line(word);
        self.take(trainer);
        Ok(())
    }

    fn answer_counts(&mut self, fields: &[u8]) -> Result<(), Refusal> {
        let n = (fields.len() / 8).min(MOST_COUNTS);
        let counts: [u64; MOST_COUNTS] = counts_at(fields, n);
        let answer = self.trainer.answer_counts(&counts[..n]);
        self.answered(answer, "ok")
    }

    fn answer_score(&mut self, fields: &[u8]) -> Result<(), Refusal> {
        let answer = self.trainer.answer_score(float_at(fields, 0));
        self.answered(answer, "ok")
    }

    fn change_settings(&mut self, fields: &[u8]) -> Result<(), Refusal> {
        let answer = with_settings(self.trainer, fields);
        self.answered(answer, "ok")
    }

    // A save into as many bytes as the script says, and the load of what was written.
    fn reload(&mut self, fields: &[u8]) -> Result<(), Refusal> {
        let mut bytes = io::large_buffer();
        let lent = usize::from(short_at(fields, 0)).min(bytes.len());
        let record = saved(self.trainer, &mut bytes[..lent])?;
        let trainer = record::load(record)?;
        self.out.line(format_args!("saved {}", Hex(record)));
        self.take(trainer);
        Ok(())
    }

    // A sender that is refused stays.
    pub(crate) fn replied(&mut self, reply: Result<Held, Refusal>) -> Result<(), Refusal> {
        let held = reply?;
        self.out.line(format_args!("window {}", held.window));
        self.sender = held.sender;
        Ok(())
    }

    fn event(&mut self, e: Event) -> Result<(), Refusal> {
        let reply = self.sender.event(self.trainer.tree, e);
        self.replied(reply)
    }

    fn next_tick(&mut self, fields: &[u8]) -> Result<(), Refusal> {
        let found = self.sender.next_tick(float_at(fields, 0))?;
        self.out
            .line(format_args!("wake {}", Maybe(found.map(Shown))));
        Ok(())
    }

    fn looked(&mut self, found: Result<Option<Action>, Refusal>) -> Result<(), Refusal> {
        match found? {
            Some(a) => self.out.line(format_args!("action {}", Shown(a))),
            None => self.out.line("none"),
        }
        Ok(())
    }

    fn lookup(&mut self, fields: &[u8]) -> Result<(), Refusal> {
        let opened = self.trainer.tree.action(point_at(fields, 0));
        self.looked(opened.found)
    }

    fn lookup_replaced(&mut self, fields: &[u8]) -> Result<(), Refusal> {
        let other = AugmentedRuleTree {
            tree: self.trainer.tree,
            leaf: short_at(fields, 0),
            action: action_at(fields, 2),
        };
        self.looked(other.action(point_at(fields, 22)))
    }

    // The cubes that a lookup tests.
    fn cubes_tested(&mut self, fields: &[u8]) -> Result<(), Refusal> {
        let opened = self.trainer.tree.action(point_at(fields, 0));
        opened.found?;
        self.out.line(format_args!("tested {}", opened.tested));
        Ok(())
    }

    // A tally into the counts of the tree's nodes.
    fn tally(&mut self, fields: &[u8]) -> Result<(), Refusal> {
        let tree = self.trainer.tree;
        let n = counts_of(tree.splits);
        match tree.tally(&mut self.counts[..n], point_at(fields, 0))? {
            Some(node) => {
                let count = self.counts.get(usize::from(node)).copied().unwrap_or(0);
                self.out.line(format_args!("counted {node} {count}"));
            }
            None => self.out.line("none"),
        }
        Ok(())
    }

    fn candidate(&mut self, fields: &[u8]) -> Result<(), Refusal> {
        let action = action_at(fields, 0);
        let k = word_at(fields, 20);
        let found = candidates::candidate_at(self.trainer.settings, action, k)?;
        self.out.line(Shown(found));
        Ok(())
    }

    // Each node, and its cube.
    fn print_tree(&mut self, t: RuleTree) -> Result<(), Refusal> {
        let nodes = &t.nodes[..counts_of(t.splits)];
        self.out.line(format_args!("tree {}", nodes.len()));
        for (i, node) in (0..513u16).zip(nodes) {
            let node = Shown(*node);
            let cube = t.domain(i).ok();
            self.out
                .line(format_args!("{i} {node} {}", Maybe(cube.map(Shown))));
        }
        Ok(())
    }

    // The newest split taken back, on a copy of the tree: the trainer stays.
    fn undo_split(&mut self) -> Result<(), Refusal> {
        self.print_tree(self.trainer.tree.undo_split()?)
    }

    // The leaves within ranges, into a lent list. No tree has more leaves than nodes, so a longer list is lent as one of so many.
    fn leaves(&mut self, fields: &[u8]) -> Result<(), Refusal> {
        let mut list = [0u16; NODES];
        let lent = usize::from(short_at(fields, 48)).min(NODES);
        let within = input::ranges_at(fields);
        let n = ranges::leaves_within(self.trainer.tree, within, &mut list[..lent])?;
        let k = usize::from(n).min(NODES);
        self.out
            .line(format_args!("leaves {k}{}", Listed(&list[..k])));
        Ok(())
    }

    // Whether the tree is that of a record's trainer.
    fn equal(&mut self, record: &[u8]) -> Result<(), Refusal> {
        let other = record::load(record)?.tree;
        let equal = self.trainer.tree.equals(other)?;
        self.out.line(format_args!("equal {}", u8::from(equal)));
        Ok(())
    }

    // The window rule alone, of an action and a window.
    fn apply(&mut self, fields: &[u8]) -> Result<(), Refusal> {
        let action = action_at(fields, 0);
        self.out.line(Shown(action.applied(word_at(fields, 20))));
        Ok(())
    }

    // The line of a call; a refused one prints none.
    fn answer(&mut self, call: Call<'_>) -> Result<(), Refusal> {
        let Call { code, fields, list } = call;
        match code {
            Code::AnswerCounts => self.answer_counts(list),
            Code::AnswerScore => self.answer_score(fields),
            Code::Reload => self.reload(fields),
            Code::Ack => self.event(Event::Ack(ack_at(fields, 0))),
            Code::Send => self.replied(self.sender.packet_sent(float_at(fields, 0))),
            Code::Tick => self.replied(Ok(self.sender.tick())),
            Code::NextTick => self.next_tick(fields),
            Code::Lookup => self.lookup(fields),
            Code::LookupReplaced => self.lookup_replaced(fields),
            Code::Tally => self.tally(fields),
            Code::Candidate => self.candidate(fields),
            Code::PrintTree => self.print_tree(self.trainer.tree),
            Code::Load => self.answered(record::load(list), "loaded"),
            Code::Equal => self.equal(list),
            Code::ChangeSettings => self.change_settings(fields),
            Code::Burst => self.burst(list),
            Code::UndoSplit => self.undo_split(),
            Code::Leaves => self.leaves(fields),
            Code::Seed => self.seed(fields),
            Code::DrawnAck => self.drawn_ack(fields),
            Code::CubesTested => self.cubes_tested(fields),
            Code::Apply => self.apply(fields),
            Code::Step => self.step(),
            Code::StepBack => self.step_back(),
            Code::EvenRow => self.even_row(fields),
            Code::NextList => self.next_list(fields, list),
        }
    }

    // A call: its line, or its refusal's, and then what the trainer asks, or what the sender and the generator hold.
    pub(crate) fn call(&mut self, call: Call<'_>) {
        if let Err(why) = self.answer(call) {
            self.out.refused(why);
        }
        match call.code {
            Code::AnswerCounts
            | Code::AnswerScore
            | Code::Reload
            | Code::Load
            | Code::ChangeSettings => self.ask(),
            Code::Ack | Code::Send | Code::Tick | Code::Burst => self.out.line(Shown(self.sender)),
            Code::DrawnAck => {
                self.out.line(Shown(self.sender));
                self.out.line(Shown(self.generator));
            }
            _ => {}
        }
    }
}
