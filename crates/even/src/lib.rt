// The even tree, the root split and then nodes 1 to 8 in order, as a constant: the bounds of its 64 leaves, and which of them holds a point.
#![tactic(auto)]

ghost use Rattle.std.specs.Prelude.{◌≡◌, ◌<◌};
ghost use Rattle.even.specs.Even.{even_cube, even_bounds, row_of};

use remy::cube::Cube;
use remy::point::Point;

// Row by row, nodes 9 to 72: the three lower ends, then the three upper ones, of ack_ewma, send_ewma and rtt_ratio. Flat, as `bounds` hands it out.
const BOUNDS: [f64; 384] = [
    0.0, 0.0, 0.0, 150.0, 150.0, 250.0, 0.0, 0.0, 250.0, 150.0, 150.0, 500.0, 0.0, 150.0, 0.0,
    150.0, 300.0, 250.0, 0.0, 150.0, 250.0, 150.0, 300.0, 500.0, 150.0, 0.0, 0.0, 300.0, 150.0,
    250.0, 150.0, 0.0, 250.0, 300.0, 150.0, 500.0, 150.0, 150.0, 0.0, 300.0, 300.0, 250.0, 150.0,
    150.0, 250.0, 300.0, 300.0, 500.0, 0.0, 0.0, 500.0, 150.0, 150.0, 750.0, 0.0, 0.0, 750.0,
    150.0, 150.0, 1000.0, 0.0, 150.0, 500.0, 150.0, 300.0, 750.0, 0.0, 150.0, 750.0, 150.0, 300.0,
    1000.0, 150.0, 0.0, 500.0, 300.0, 150.0, 750.0, 150.0, 0.0, 750.0, 300.0, 150.0, 1000.0, 150.0,
    150.0, 500.0, 300.0, 300.0, 750.0, 150.0, 150.0, 750.0, 300.0, 300.0, 1000.0, 0.0, 300.0, 0.0,
    150.0, 450.0, 250.0, 0.0, 300.0, 250.0, 150.0, 450.0, 500.0, 0.0, 450.0, 0.0, 150.0, 600.0,
    250.0, 0.0, 450.0, 250.0, 150.0, 600.0, 500.0, 150.0, 300.0, 0.0, 300.0, 450.0, 250.0, 150.0,
    300.0, 250.0, 300.0, 450.0, 500.0, 150.0, 450.0, 0.0, 300.0, 600.0, 250.0, 150.0, 450.0, 250.0,
    300.0, 600.0, 500.0, 0.0, 300.0, 500.0, 150.0, 450.0, 750.0, 0.0, 300.0, 750.0, 150.0, 450.0,
    1000.0, 0.0, 450.0, 500.0, 150.0, 600.0, 750.0, 0.0, 450.0, 750.0, 150.0, 600.0, 1000.0, 150.0,
    300.0, 500.0, 300.0, 450.0, 750.0, 150.0, 300.0, 750.0, 300.0, 450.0, 1000.0, 150.0, 450.0,
    500.0, 300.0, 600.0, 750.0, 150.0, 450.0, 750.0, 300.0, 600.0, 1000.0, 300.0, 0.0, 0.0, 450.0,
    150.0, 250.0, 300.0, 0.0, 250.0, 450.0, 150.0, 500.0, 300.0, 150.0, 0.0, 450.0, 300.0, 250.0,
    300.0, 150.0, 250.0, 450.0, 300.0, 500.0, 450.0, 0.0, 0.0, 600.0, 150.0, 250.0, 450.0, 0.0,
    250.0, 600.0, 150.0, 500.0, 450.0, 150.0, 0.0, 600.0, 300.0, 250.0, 450.0, 150.0, 250.0, 600.0,
    300.0, 500.0, 300.0, 0.0, 500.0, 450.0, 150.0, 750.0, 300.0, 0.0, 750.0, 450.0, 150.0, 1000.0,
    300.0, 150.0, 500.0, 450.0, 300.0, 750.0, 300.0, 150.0, 750.0, 450.0, 300.0, 1000.0, 450.0,
    0.0, 500.0, 600.0, 150.0, 750.0, 450.0, 0.0, 750.0, 600.0, 150.0, 1000.0, 450.0, 150.0, 500.0,
    600.0, 300.0, 750.0, 450.0, 150.0, 750.0, 600.0, 300.0, 1000.0, 300.0, 300.0, 0.0, 450.0,
    450.0, 250.0, 300.0, 300.0, 250.0, 450.0, 450.0, 500.0, 300.0, 450.0, 0.0, 450.0, 600.0, 250.0,
    300.0, 450.0, 250.0, 450.0, 600.0, 500.0, 450.0, 300.0, 0.0, 600.0, 450.0, 250.0, 450.0, 300.0,
    250.0, 600.0, 450.0, 500.0, 450.0, 450.0, 0.0, 600.0, 600.0, 250.0, 450.0, 450.0, 250.0, 600.0,
    600.0, 500.0, 300.0, 300.0, 500.0, 450.0, 450.0, 750.0, 300.0, 300.0, 750.0, 450.0, 450.0,
    1000.0, 300.0, 450.0, 500.0, 450.0, 600.0, 750.0, 300.0, 450.0, 750.0, 450.0, 600.0, 1000.0,
    450.0, 300.0, 500.0, 600.0, 450.0, 750.0, 450.0, 300.0, 750.0, 600.0, 450.0, 1000.0, 450.0,
    450.0, 500.0, 600.0, 600.0, 750.0, 450.0, 450.0, 750.0, 600.0, 600.0, 1000.0,
];

// The whole table.
pub fn bounds() -> [f64; 384]
    ensures { result ≡ even_bounds }
{
    BOUNDS
}

// The cube of a row of the table.
#[tactic(auto, using(crate::proofs::Rows::cube_read))]
fn cube_in(b: &[f64; 384], row: u16) -> Cube
    requires { (b.now ≡ even_bounds) × (row < 64) }
    ensures { result ≡ even_cube row }
{
    let at = row as usize * 6;
    let min = Point::new(b[at], b[at + 1], b[at + 2]);
    let max = Point::new(b[at + 3], b[at + 4], b[at + 5]);
    Cube { min, max }
}

// The row that holds the point. The table is made once, and lent at each turn.
#[tactic(auto, using(crate::proofs::Rows::search_here, crate::proofs::Rows::search_on, crate::proofs::Rows::search_over))]
pub fn row_of(p: Point) -> Option<u16>
    ensures { result ≡ row_of p }
{
    let b = bounds();
    for row in 0..64 {
        if cube_in(&b, row).contains(p) {
            return Some(row);
        }
    }
    None
}

// The same by comparisons with the middles of two cubes, for callers that ask often: no table is made.
#[tactic(auto, using(crate::proofs::Toward::small, crate::proofs::Toward::two_turns, crate::proofs::Toward::no_turn))]
pub fn row_toward(p: Point) -> Option<u16>
    ensures { result ≡ row_of p }
{
    let root = Cube::root(Point::usual_ends());
    if root.contains(p) {
        let a = root.toward(p);
        let c = a.cube;
        let b = c.toward(p);
        Some(a.number * 8 + b.number)
    } else {
        None
    }
}
