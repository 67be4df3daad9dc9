// Makes the calls of a script on one trainer, one sender and one generator, and prints every answer.
#![tactic(auto)]

use crate::calls::Replay;
use crate::input::{BadScript, Script};
use crate::output::Output;
use host_sender::inner::read::mode_at;
use record::inner::layout::{Layout, VERSION};
use record::inner::read::settings_at;
use refusal::Refusal;
use rule_tree::NODES;
use sender::Sender;
use trainer::Trainer;
use wire::inner::read::byte_at;
use xoshiro::State;

mod bursts;
mod calls;
mod draws;
mod input;
mod lines;
mod output;
mod trees;

// The settings and the repeat.
const HEADER: usize = 146;

// Where the repeat stands.
const MODE_PLACE: usize = 137;

// The generator where there is none yet: four zeros, which each of its calls refuses. With an Option they would stand here all the same, for acks.
const NO_GENERATOR: State = State {
    s0: 0,
    s1: 0,
    s2: 0,
    s3: 0,
};

// A trainer and a sender by the header. A drill byte that is neither 0 nor 1, and a repeat's byte above 2, are refused as settings are.
fn begin(header: &[u8]) -> Result<(Trainer, Sender), Refusal> {
    if byte_at(header, 12) > 1 {
        return Err(Refusal::BadSettings);
    }
    let trainer = Trainer::start(settings_at(header, Layout::of_version(VERSION), 0))?;
    if byte_at(header, MODE_PLACE) > 2 {
        return Err(Refusal::BadSettings);
    }
    let sender = Sender::new(mode_at(header, MODE_PLACE))?;
    Ok((trainer, sender))
}

// A proved loop has to end, and nothing says that a script does; but no run makes so many calls.
fn run(replay: &mut Replay, script: &mut Script) -> Result<(), BadScript> {
    replay.ask();
    for _ in 0..u64::MAX {
        let Some(call) = script.next_call()? else {
            replay.finish();
            return Ok(());
        };
        replay.call(call);
    }
    Ok(())
}

// The calls behind the header, where neither the trainer nor the sender is refused.
fn start(script: &mut Script) -> Result<(), BadScript> {
    let header = script.next(HEADER)?;
    let mut out = Output::new();
    match begin(header) {
        Ok((trainer, sender)) => {
            let mut replay = Replay {
                trainer,
                sender,
                generator: NO_GENERATOR,
                counts: [0; NODES],
                out,
            };
            let ended = run(&mut replay, script);
            replay.out.flush();
            ended
        }
        Err(why) => {
            out.refused(why);
            out.flush();
            Ok(())
        }
    }
}

fn main() {
    let mut script = Script::new();
    if start(&mut script).is_err() {
        io::write_all(1, b"bad script\n");
    }
}
