// A point of a sender's memory.
ghost use Rattle.std.specs.Prelude.{◌≡◌};
ghost use Rattle.remy.specs.Cube.{usual_ends, point_of, end_admitted, ends_admitted};

use quantities::TimeSpan;

// `==` is equality on each axis.
#[derive(Clone, Copy, PartialEq)]
pub struct Point {
    pub ack_ewma: TimeSpan,
    pub send_ewma: TimeSpan,
    pub rtt_ratio: f64,
}

impl Point {
    pub fn new(ack_ewma: f64, send_ewma: f64, rtt_ratio: f64) -> Point
        ensures { result ≡ point_of ack_ewma send_ewma rtt_ratio }
    {
        Point {
            ack_ewma: TimeSpan(ack_ewma),
            send_ewma: TimeSpan(send_ewma),
            rtt_ratio,
        }
    }

    // The upper ends of the usual root cube.
    pub fn usual_ends() -> Point
        ensures { result ≡ usual_ends }
    {
        Point::new(600.0, 600.0, 1000.0)
    }

    // Upper ends that a box may have.
    #[tactic(auto, unfolding(crate::specs::Cube::ends_admitted))]
    pub fn ends_admitted(self) -> bool
        ensures { result ≡ ends_admitted self }
    {
        end_admitted(self.ack_ewma.0)
            && end_admitted(self.send_ewma.0)
            && end_admitted(self.rtt_ratio)
    }
}

fn end_admitted(x: f64) -> bool
    ensures { result ≡ end_admitted x }
{
    1.0 <= x && x <= 1000000.0
}
