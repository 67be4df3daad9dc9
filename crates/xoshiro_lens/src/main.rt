// xoshiro256++ from the words 1, 2, 3, 4, printed: ten outputs, the words after them and after as many steps back, draws, and what is refused.
#![tactic(auto)]

use refusal::Refusal;
use xoshiro::State;

// What this program prints with. Each has its own: a public function of a library has a contract that gives its answer, and printing has none.
fn say(text: &[u8]) {
    io::write_all(1, text);
}

fn number(n: u64) {
    io::print_decimal(1, n);
}

fn refused(r: Refusal) {
    say(b"refused ");
    number(u64::from(r.number()));
    say(b"\n");
}

// Where there is no such state, four zeros.
fn state(answer: Result<State, Refusal>) -> State {
    match answer {
        Ok(s) => s,
        Err(r) => {
            refused(r);
            State {
                s0: 0,
                s1: 0,
                s2: 0,
                s3: 0,
            }
        }
    }
}

// No `Display`: the words would need a type of the program's own, and a buffer to be written into before they are printed.
fn words(s: State) {
    number(s.s0);
    say(b" ");
    number(s.s1);
    say(b" ");
    number(s.s2);
    say(b" ");
    number(s.s3);
    say(b"\n");
}

// A step's output; then the state after it.
fn step(s: State) -> State {
    match s.step() {
        Ok(stepped) => {
            number(stepped.output);
            say(b"\n");
            stepped.state
        }
        Err(r) => {
            refused(r);
            s
        }
    }
}

fn ten_steps(mut s: State) -> State {
    for _ in 0..10 {
        s = step(s);
    }
    s
}

fn ten_back(mut s: State) -> State {
    for _ in 0..10 {
        s = state(s.step_back());
    }
    s
}

fn draw(output: u64, lo: u32, hi: u32) {
    match xoshiro::draw(output, lo, hi) {
        Some(n) => number(u64::from(n)),
        None => say(b"none"),
    }
    say(b"\n");
}

fn main() {
    let seed = state(State::new(1, 2, 3, 4));
    let s = ten_steps(seed);
    words(s);
    words(ten_back(s));
    draw(3588806011781223, 10, 12);
    draw(3588806011781223, 0, 4294967295);
    draw(3588806011781223, 7, 7);
    draw(3588806011781223, 8, 7);
    let none = state(State::new(0, 0, 0, 0));
    let none = step(none);
    words(state(none.step_back()));
}
