// Candidates of the usual settings, and of settings at the edges of what is taken. A line for each call: the list's length with the
// candidate's multiplier bits, increment and delay bits; the length and "none" past the end; "refused" and the number.
#![tactic(auto)]

use remy::action::Action;
use remy::point::Point;
use trainer::candidates::Candidate;
use trainer::settings::Settings;

fn action(multiplier: f64, increment: i32, milliseconds: f64) -> Action {
    Action::new(
        multiplier,
        increment,
        quantities::milliseconds(milliseconds).0,
    )
}

// The settings of the Rust's default trainer, but for what is handed in: written out, so that no library promises a lens's values.
fn settings(
    action_change_multiplier: u32,
    initial_action_change: Action,
    max_action_change: Action,
) -> Settings {
    Settings {
        rule_splits: 12,
        optimization_rounds_per_split: 2,
        action_change_multiplier,
        drill_down: true,
        min_action: action(0.0, 0, 0.25),
        max_action: action(1.0, 256, 3.0),
        initial_action_change,
        max_action_change,
        default_action: action(1.0, 1, 3.0),
        ends: Point::usual_ends(),
    }
}

fn usual() -> Settings {
    settings(4, action(0.01, 1, 0.05), action(0.5, 32, 1.0))
}

// By io's functions: a Display is printed through the runtime, which each function here would have to take, with an error to hand up.
fn print_increment(increment: i32) {
    let wide = i64::from(increment);
    if wide < 0 {
        io::write_all(1, b"-");
    }
    io::print_decimal(1, wide.unsigned_abs());
}

fn print_action(a: Action) {
    io::write_all(1, b" ");
    io::print_hex(1, floats::to_bits(a.window_multiplier), 16);
    io::write_all(1, b" ");
    print_increment(a.window_increment);
    io::write_all(1, b" ");
    io::print_hex(1, floats::to_bits(a.intersend_delay.0), 16);
}

fn show(s: Settings, a: Action, k: u32) {
    match trainer::candidates::candidate_at(s, a, k) {
        Ok(Candidate { length, action }) => {
            io::print_decimal(1, u64::from(length));
            match action {
                Some(found) => print_action(found),
                None => {
                    io::write_all(1, b" none");
                }
            }
        }
        Err(refused) => {
            io::write_all(1, b"refused ");
            io::print_decimal(1, u64::from(refused.number()));
        }
    }
    io::write_all(1, b"\n");
}

// The usual settings and their default action: first, last and past the end.
fn show_usual() {
    let s = usual();
    for k in [0, 35, 36, 4294967295] {
        show(s, s.default_action, k);
    }
}

// The usual settings but for the increments of the first and the greatest change.
fn increments(multiplier: u32, first: i32, most: i32) -> Settings {
    settings(
        multiplier,
        action(0.01, first, 0.05),
        action(0.5, most, 1.0),
    )
}

// Increments 1, 2, 4, ..: up to 128 are eight, up to 256 nine. A change of 65,536 is taken, one of 65,537 is not.
fn show_increments() {
    let a = action(1.0, 1, 3.0);
    show(increments(2, 1, 128), a, 0);
    show(increments(2, 1, 256), a, 0);
    show(increments(4, 65536, 65536), a, 0);
    show(increments(4, 65537, 65536), a, 0);
    show(increments(4, 1, 65537), a, 0);
}

// 0.1 times 3 up to 0.9 is two values: 2 * 2 sums that all lie inside, with 2 * 1 on either of the other axes.
fn show_rounded() {
    let s = Settings {
        min_action: action(-2.0, 0, 0.25),
        max_action: action(2.0, 256, 3.0),
        ..settings(3, action(0.1, 1, 0.05), action(0.9, 1, 0.05))
    };
    for k in [0, 15, 16] {
        show(s, action(0.0, 1, 1.0), k);
    }
}

// No values on an axis; an initial change of 0 and of -0; a bad action, and bad settings with it.
fn show_edges() {
    let a = action(1.0, 1, 3.0);
    let bad = action(1.0 / 0.0, 1, 3.0);
    let most = action(0.5, 32, 1.0);
    show(increments(4, 1, 0), a, 0);
    show(settings(4, action(0.0, 1, 0.05), most), a, 0);
    show(settings(4, action(0.01, 1, -0.0), most), a, 0);
    show(usual(), bad, 0);
    show(settings(17, action(0.01, 1, 0.05), most), bad, 0);
}

fn main() {
    show_usual();
    show_increments();
    show_rounded();
    show_edges();
}
