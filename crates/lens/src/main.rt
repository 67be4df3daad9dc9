// The worked examples of points, cubes, windows and moments, printed.
#![tactic(auto)]

use quantities::Time;
use remy::action::Action;
use remy::cube::Cube;
use remy::point::Point;

// What this program prints with. Each has its own: a public function of a library has a contract that gives its answer, and printing has none.
fn number(n: u64) {
    io::print_decimal(1, n);
}

fn end() {
    io::write_all(1, b"\n");
}

// The window after an action.
fn window(w: u32, multiplier: f64, increment: i32) {
    io::write_all(1, b"window ");
    number(w as u64);
    io::write_all(1, b" becomes ");
    let a = Action::new(multiplier, increment, 0.0);
    let r = a.applied(w);
    number(r.window as u64);
    if r.clipped {
        io::write_all(1, b" clipped");
    }
    end();
}

// The node that a point lies in once the root is split.
fn place(ack: f64, send: f64, ratio: f64) {
    let p = Point::new(ack, send, ratio);
    let root = Cube::root(Point::usual_ends());
    if root.contains(p) {
        io::write_all(1, b"node ");
        number(root.toward(p).number as u64 + 1);
    } else {
        io::write_all(1, b"none");
    }
    end();
}

// The bits of a moment that is admitted.
fn moment(value: f64) {
    match Time::admit(value) {
        Ok(t) => {
            let bits = floats::to_bits(t.held());
            io::write_all(1, b"moment ");
            io::print_hex(1, bits, 16);
        }
        Err(r) => {
            io::write_all(1, b"refused ");
            number(r.number() as u64);
        }
    }
    end();
}

fn main() {
    window(10, 0.5, 1);
    window(3, 0.5, -5);
    window(4294967295, 1.0, 0);
    window(4294967295, 1.0, 2147483647);
    window(1, 0.0 / 0.0, 7);
    window(1, -1.0 / 0.0, 2147483647);
    place(300.0, 0.0, 0.0);
    place(0.0, 0.0, 500.0);
    place(0.0, 0.0, 1000.0);
    place(0.0 / 0.0, 0.0, 0.0);
    place(0.0, 0.0, -0.0);
    moment(0.0);
    moment(-0.0);
    moment(4294967296.0);
    moment(4294967296.000001);
    moment(-0.5);
    moment(0.0 / 0.0);
}
