// The refusals of damaged records, and of bytes around each limit of the record's length.
#![tactic(auto)]

ghost use Rattle.std.specs.Prelude.{◌≤◌};

use refusal::Refusal;
use remy::action::Action;
use remy::point::Point;
use rule_tree::NODES;
use trainer::Trainer;
use trainer::settings::Settings;

// An action with its delay in milliseconds.
fn action(multiplier: f64, increment: i32, delay: f64) -> Action {
    Action::new(multiplier, increment, quantities::milliseconds(delay).0)
}

// The settings of the Rust's `RemyTrainer::default`.
fn usual() -> Settings {
    Settings {
        rule_splits: 12,
        optimization_rounds_per_split: 2,
        action_change_multiplier: 4,
        drill_down: true,
        min_action: action(0.0, 0, 0.25),
        max_action: action(1.0, 256, 3.0),
        initial_action_change: action(0.01, 1, 0.05),
        max_action_change: action(0.5, 32, 1.0),
        default_action: action(1.0, 1, 3.0),
        ends: Point::usual_ends(),
    }
}

// A trainer that splits once a stage: no rounds, no drill.
fn splitting() -> Settings {
    Settings {
        rule_splits: 64,
        optimization_rounds_per_split: 0,
        drill_down: false,
        ..usual()
    }
}

// A trainer whose tree has 64 splits.
fn full() -> Result<Trainer, Refusal> {
    let mut t = Trainer::start(splitting())?;
    let counts = [0u64; NODES];
    for i in 0..64 {
        t = t.answer_counts(&counts[..1 + 8 * i])?;
    }
    Ok(t)
}

// Saves a trainer, if there is one.
fn saved(t: Result<Trainer, Refusal>, buf: &mut [u8]) -> Result<usize, Refusal> {
    record::save(t?, buf)
}

// Printing goes by io's bytes and digits: std's macros lean on two more of the kit's C functions, and nothing more is to be trusted.
fn say(text: &[u8]) {
    io::write_all(1, text);
}

fn number(n: u64) {
    io::print_decimal(1, n);
}

// The line of what a save answers.
fn show(saved: Result<usize, Refusal>) {
    match saved {
        Ok(size) => {
            say(b"saved ");
            number(size as u64);
        }
        Err(refusal) => {
            say(b"refused ");
            number(u64::from(refusal.number()));
        }
    }
    say(b"\n");
}

// The record of a fresh trainer, and a byte of 0 after it.
fn fresh() -> [u8; 197] {
    let mut buf = [0u8; 197];
    let answer = saved(Trainer::start(usual()), &mut buf);
    show(answer);
    buf
}

// The longest record, into a buffer of a byte less and into one of its size.
fn longest_record() {
    let t = full();
    let mut short = [0u8; 11075];
    show(saved(t, &mut short));
    let mut exact = [0u8; 11076];
    show(saved(t, &mut exact));
}

// The refusal of a load, 0 for none.
fn loaded(bytes: &[u8]) {
    say(b" ");
    match record::load(bytes) {
        Ok(_) => number(0),
        Err(refusal) => number(u64::from(refusal.number())),
    }
}

// The refusal of the record before the last byte.
fn record_in(r: &[u8; 197]) {
    loaded(&r[..196]);
}

// Each byte of the record one more, and one less.
fn each(r: &[u8; 197]) {
    for i in 0..196 {
        let mut more = *r;
        more[i] = r[i].wrapping_add(1);
        let mut less = *r;
        less[i] = r[i].wrapping_sub(1);
        say(b"byte ");
        number(i as u64);
        record_in(&more);
        record_in(&less);
        say(b"\n");
    }
}

fn cut(bytes: &[u8]) {
    say(b"first ");
    number(bytes.len() as u64);
    loaded(bytes);
    say(b"\n");
}

fn whole(r: &[u8; 197]) {
    cut(&r[..196]);
}

// The first bytes alone, and all but the last byte of the record.
fn shorter(r: &[u8; 197]) {
    for n in 0..6 {
        cut(&r[..n]);
    }
    cut(&r[..195]);
}

// A byte more than the length says, and a length of one more with all its bytes.
fn longer(r: &[u8; 197]) {
    cut(r);
    let mut longer = *r;
    longer[3] = 193;
    cut(&longer);
}

// A record of N bytes, of zeros but for its length and its version.
fn zeros<const N: usize>(version: u8) -> [u8; N]
    requires { (5 ≤ N) × (N ≤ 65536) }
{
    let mut b = [0u8; N];
    let n = (N - 4) as u32;
    b[..4].copy_from_slice(&n.to_be_bytes());
    b[4] = version;
    b
}

// The longest length that is read, and one more, each with all its bytes.
fn longest() {
    say(b"16384");
    loaded(&zeros::<16388>(0));
    loaded(&zeros::<16388>(1));
    say(b"\n16385");
    loaded(&zeros::<16389>(1));
    say(b"\n");
}

fn main() {
    let r = fresh();
    whole(&r);
    each(&r);
    shorter(&r);
    longer(&r);
    longest();
    longest_record();
}
