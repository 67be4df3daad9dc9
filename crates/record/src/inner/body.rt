// What follows the version: it is read, tested, and written again to be compared.
ghost use Rattle.std.specs.Prelude.{◌≡◌, true};
ghost use Rattle.rule_tree.specs.Grown.{grown_of};
ghost use Rattle.wire.specs.Bytes.{same_bytes};
ghost use Rattle.record.specs.Write.{record_in};
ghost use Rattle.record.specs.Parts.{body_taken};

use crate::inner::fields::Fields;
use crate::inner::layout::{LENGTH_SIZE, Layout, MOST_SIZE};
use crate::inner::write;
use refusal::Refusal;
use trainer::Trainer;
use wire::inner::read;

// The bytes are those of the record of t in this layout and version. The project's fixed memory: a buffer that has room for any.
#[tactic(auto, using(rule_tree::proofs::Links::grown_splits))]
fn same_record(t: &Trainer, l: Layout, version: u8, bytes: &[u8]) -> bool
    requires { grown_of t.now.tree ≡ true }
    ensures { result ≡ same_bytes (record_in l version t.now) bytes.now }
{
    let size = l.size(t.tree.splits);
    let mut buf = [0u8; MOST_SIZE];
    write::write(&mut buf, l, version, t);
    &buf[..size] == bytes
}

pub fn read_body(bytes: &[u8]) -> Result<Trainer, Refusal>
    ensures { result ≡ body_taken bytes.now }
{
    let version = read::byte_at(bytes, LENGTH_SIZE);
    let l = Layout::of_version(version);
    let t = Fields::of(bytes, l)?.trainer();
    if !t.accepted() {
        return Err(Refusal::BadField);
    }
    if !same_record(&t, l, version, bytes) {
        return Err(Refusal::BadField);
    }
    Ok(t)
}
