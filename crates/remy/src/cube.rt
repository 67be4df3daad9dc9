// Cubes of points, and how one is cut into eight halves.
ghost use Rattle.std.specs.Prelude.{◌≡◌, ◌<◌};
ghost use Rattle.floats.specs.Interval.{within, middle};
ghost use Rattle.remy.specs.Cube.{ack, send, ratio, interval, octant, octant_of, octant_toward, root_of, contains_of, middle_of, half_of, half_cube, number_of, child_cube, split_of, toward_of};

use crate::point::Point;

#[derive(Clone, Copy, PartialEq)]
pub struct Cube {
    pub min: Point,
    pub max: Point,
}

// One axis, from lo up to and without hi.
#[derive(Clone, Copy)]
struct Interval {
    lo: f64,
    hi: f64,
}

// One of the eight parts about a point: on each axis upper, or not.
#[derive(Clone, Copy)]
struct Octant {
    ack: bool,
    send: bool,
    ratio: bool,
}

// The child of a cube that lies toward a point, and its number.
#[derive(Clone, Copy)]
pub struct Child {
    pub number: u16,
    pub cube: Cube,
}

impl Interval {
    fn contains(self, x: f64) -> bool
        ensures { result ≡ within self.lo self.hi x }
    {
        self.lo <= x && x < self.hi
    }

    fn middle(self) -> f64
        ensures { result ≡ middle self.lo self.hi }
    {
        (self.hi + self.lo) / 2.0
    }

    // The half above mid, or the one below it.
    #[tactic(auto, unfolding(crate::specs::Cube::half_of))]
    fn half(self, mid: f64, upper: bool) -> Interval
        ensures { result ≡ half_of self.lo mid self.hi upper }
    {
        if upper {
            Interval { lo: mid, ..self }
        } else {
            Interval { hi: mid, ..self }
        }
    }
}

impl Octant {
    // Octant k, k modulo 8.
    fn of_number(k: u16) -> Octant
        ensures { result ≡ octant_of k }
    {
        Octant {
            ack: k / 4 % 2 == 1,
            send: k / 2 % 2 == 1,
            ratio: k % 2 == 1,
        }
    }

    // The octant about mid that holds p: on each axis upper where p is not below mid.
    fn toward(mid: Point, p: Point) -> Octant
        ensures { result ≡ octant_toward mid p }
    {
        Octant {
            ack: mid.ack_ewma.0 <= p.ack_ewma.0,
            send: mid.send_ewma.0 <= p.send_ewma.0,
            ratio: mid.rtt_ratio <= p.rtt_ratio,
        }
    }

    // 4 if upper in ack_ewma, plus 2 if upper in send_ewma, plus 1 if upper in rtt_ratio.
    fn number(self) -> u16
        ensures { result ≡ number_of self.ack self.send self.ratio }
    {
        4 * u16::from(self.ack) + 2 * u16::from(self.send) + u16::from(self.ratio)
    }
}

impl Cube {
    // From 0 to the upper ends on each axis.
    pub fn root(ends: Point) -> Cube
        ensures { result ≡ root_of ends }
    {
        Cube {
            min: Point::new(0.0, 0.0, 0.0),
            max: ends,
        }
    }

    fn ack(self) -> Interval
        ensures { result ≡ interval (ack self.min) (ack self.max) }
    {
        Interval {
            lo: self.min.ack_ewma.0,
            hi: self.max.ack_ewma.0,
        }
    }

    fn send(self) -> Interval
        ensures { result ≡ interval (send self.min) (send self.max) }
    {
        Interval {
            lo: self.min.send_ewma.0,
            hi: self.max.send_ewma.0,
        }
    }

    fn ratio(self) -> Interval
        ensures { result ≡ interval (ratio self.min) (ratio self.max) }
    {
        Interval {
            lo: self.min.rtt_ratio,
            hi: self.max.rtt_ratio,
        }
    }

    #[tactic(auto, unfolding(crate::specs::Cube::contains_of))]
    pub fn contains(self, p: Point) -> bool
        ensures { result ≡ contains_of self p }
    {
        self.ack().contains(p.ack_ewma.0)
            && self.send().contains(p.send_ewma.0)
            && self.ratio().contains(p.rtt_ratio)
    }

    // The point at which the cube is split: (max + min) / 2 on each axis.
    pub fn middle(self) -> Point
        ensures { result ≡ middle_of self }
    {
        Point::new(
            self.ack().middle(),
            self.send().middle(),
            self.ratio().middle(),
        )
    }

    // The half of the cube on each axis that lies in an octant about mid.
    #[tactic(auto, unfolding(crate::specs::Cube::half_cube))]
    fn half(self, mid: Point, side: Octant) -> Cube
        ensures { result ≡ half_cube self mid side.ack side.send side.ratio }
    {
        let a = self.ack().half(mid.ack_ewma.0, side.ack);
        let s = self.send().half(mid.send_ewma.0, side.send);
        let r = self.ratio().half(mid.rtt_ratio, side.ratio);
        Cube {
            min: Point::new(a.lo, s.lo, r.lo),
            max: Point::new(a.hi, s.hi, r.hi),
        }
    }

    // Child k of the split, k modulo 8.
    #[tactic(auto, unfolding(crate::specs::Cube::child_cube))]
    pub fn child(self, k: u16) -> Cube
        ensures { result ≡ child_cube self k }
    {
        self.half(self.middle(), Octant::of_number(k))
    }

    // The eight halves, by rising number of the child.
    pub fn split(self) -> [Cube; 8]
        ensures { result ≡ split_of self }
    {
        let mid = self.middle();
        let half = |k: u16| -> Cube
            ensures { result ≡ half_cube self mid (octant_of k).ack (octant_of k).send (octant_of k).ratio }
        { self.half(mid, Octant::of_number(k)) };
        // An array literal, since the proof of `std::array::from_fn` over a closure with captures didn't close.
        [
            half(0),
            half(1),
            half(2),
            half(3),
            half(4),
            half(5),
            half(6),
            half(7),
        ]
    }

    // The child that lies toward p: on each axis the upper half where p is not below the middle.
    pub fn toward(self, p: Point) -> Child
        ensures { result ≡ toward_of self p }
    {
        let mid = self.middle();
        let side = Octant::toward(mid, p);
        Child {
            number: side.number(),
            cube: self.half(mid, side),
        }
    }
}
