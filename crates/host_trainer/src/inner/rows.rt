// What is written of many points, one row after the other.
ghost use Rattle.std.specs.Prelude.{◌≡◌, ℕ, List, ◌+◌, ◌*◌, ◌≤◌, length};
ghost use Rattle.std.proofs.lemmas.List.Edits.{sets};
ghost use Rattle.remy.specs.declared.point.Point.{Point};
ghost use Rattle.host_trainer.specs.Lookups.{point_count, rows_bytes, rows_in, rows_after};

use refusal::Refusal;
use remy::point::Point;
use wire::inner::read;

// The bytes of a point as it is read: ack, send, ratio.
const POINT_SIZE: usize = 24;

// What is written of a point, in as many bytes for each.
pub trait Row {
    ghost width: { ℕ };

    ghost bytes: { Self → Point → List ℕ };

    fn size(&self) -> usize
        ensures value { result ≡ width }
        ensures few { result ≤ 24 };

    fn put(&self, out: &mut [u8], at: usize, p: Point)
        requires { at + width ≤ length out.old }
        ensures stored { out.new ≡ sets out.old at (bytes self.now p) }
        ensures filled { length (bytes self.now p) ≡ width };
}

// The rows of the points that are whole.
fn put_rows<R: Row>(rows: &R, points: &[u8], out: &mut [u8])
    requires room { R.width * point_count points.now ≤ length out.old }
    requires few { R.width ≤ 24 }
    ensures { out.new ≡ sets out.old 0 (rows_bytes (R.bytes rows.now) points.now (point_count points.now)) }
{
    let size = rows.size();
    for i in 0..points.len() / POINT_SIZE {
        let from = POINT_SIZE * i;
        let p = read::point_at(&points[from..from + POINT_SIZE], 0);
        rows.put(out, size * i, p);
    }
}

// The row of each point, where the points are whole and the buffer is long enough. A refused call writes nothing.
pub fn put_all<R: Row>(rows: &R, points: &[u8], out: &mut [u8]) -> Result<usize, Refusal>
    ensures { (result ≡ rows_in R.width points.now out.old) × (out.new ≡ rows_after R.width (R.bytes rows.now) points.now out.old) }
{
    if points.len() % POINT_SIZE != 0 {
        return Err(Refusal::BadLength);
    }
    let size = rows.size() * (points.len() / POINT_SIZE);
    if size > out.len() {
        return Err(Refusal::ShortBuffer);
    }
    put_rows(rows, points, out);
    Ok(size)
}
