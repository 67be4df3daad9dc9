// The script, read in pieces. Numbers are big-endian, floats stand by their bits.
ghost use Rattle.std.specs.Prelude.{◌+◌, ◌≤◌, IfOk};

use crate::bursts::{ACK_SIZE, MOST_ACKS};
use crate::calls::MOST_COUNTS;
use ranges::{Range, Ranges};
use wire::inner::read::{byte_at, float_at, short_at, word_at};

// The most bytes of a record.
const MOST_RECORD: usize = 16500;

// What a script calls, by the codes of its format.
#[derive(Clone, Copy)]
pub(crate) enum Code {
    AnswerCounts,
    AnswerScore,
    Reload,
    Ack,
    Send,
    Tick,
    NextTick,
    Lookup,
    LookupReplaced,
    Tally,
    Candidate,
    PrintTree,
    Load,
    Equal,
    ChangeSettings,
    Burst,
    UndoSplit,
    Leaves,
    Seed,
    DrawnAck,
    CubesTested,
    Apply,
    Step,
    StepBack,
    EvenRow,
    NextList,
}

impl TryFrom<u8> for Code {
    type Error = BadScript;

    fn try_from(byte: u8) -> Result<Code, BadScript> {
        Ok(match byte {
            1 => Code::AnswerCounts,
            2 => Code::AnswerScore,
            3 => Code::Reload,
            4 => Code::Ack,
            5 => Code::Send,
            6 => Code::Tick,
            7 => Code::NextTick,
            8 => Code::Lookup,
            9 => Code::LookupReplaced,
            10 => Code::Tally,
            11 => Code::Candidate,
            12 => Code::PrintTree,
            13 => Code::Load,
            14 => Code::Equal,
            15 => Code::ChangeSettings,
            16 => Code::Burst,
            17 => Code::UndoSplit,
            18 => Code::Leaves,
            19 => Code::Seed,
            20 => Code::DrawnAck,
            21 => Code::CubesTested,
            22 => Code::Apply,
            23 => Code::Step,
            24 => Code::StepBack,
            25 => Code::EvenRow,
            26 => Code::NextList,
            _ => return Err(BadScript),
        })
    }
}

impl Code {
    // How many bytes of fields each call of this kind has.
    fn field_bytes(self) -> usize
        ensures { result ≤ 137 }
    {
        match self {
            Code::Tick | Code::PrintTree | Code::UndoSplit | Code::Step | Code::StepBack => 0,
            Code::AnswerCounts | Code::Reload | Code::Burst | Code::NextList => 2,
            Code::Load | Code::Equal => 4,
            Code::AnswerScore | Code::Send | Code::NextTick => 8,
            Code::DrawnAck => 16,
            Code::Ack => ACK_SIZE,
            Code::Lookup | Code::Tally | Code::CubesTested | Code::EvenRow => 24,
            Code::Candidate | Code::Apply => 24,
            Code::Seed => 32,
            Code::LookupReplaced => 46,
            Code::Leaves => 50,
            Code::ChangeSettings => 137,
        }
    }

    // How many bytes the list has that such fields announce, if a script may have so many.
    fn list_bytes(self, fields: &[u8]) -> Result<usize, BadScript>
        ensures { IfOk result (λ n. n ≤ 16500) }
    {
        let n = usize::from(short_at(fields, 0));
        match self {
            Code::AnswerCounts if n <= MOST_COUNTS => Ok(8 * n),
            Code::Burst if n <= MOST_ACKS => Ok(ACK_SIZE * n + 2),
            Code::Load | Code::Equal => {
                let n = word_at(fields, 0) as usize;
                if n <= MOST_RECORD {
                    Ok(n)
                } else {
                    Err(BadScript)
                }
            }
            Code::NextList => Ok(2 * usize::from(byte_at(fields, 1))),
            Code::AnswerCounts | Code::Burst => Err(BadScript),
            _ => Ok(0),
        }
    }
}

// A call: its fields, and the list that they announce.
#[derive(Clone, Copy)]
pub(crate) struct Call<'a> {
    pub(crate) code: Code,
    pub(crate) fields: &'a [u8],
    pub(crate) list: &'a [u8],
}

// A script that is cut, or no script.
#[derive(Clone, Copy)]
pub(crate) struct BadScript;

// A script on standard input. What is read of it stands at the start of a buffer until the next is read.
#[derive(Drop)]
pub(crate) struct Script {
    bytes: [u8; 65536],
}

impl Script {
    pub(crate) fn new() -> Script {
        Script {
            bytes: io::large_buffer(),
        }
    }

    // The next n bytes, to a place in the buffer.
    fn read(&mut self, at: usize, n: usize) -> Result<(), BadScript>
        requires { at + n ≤ 65536 }
    {
        if io::read_full(0, &mut self.bytes[at..at + n]) == n {
            Ok(())
        } else {
            Err(BadScript)
        }
    }

    // The next n bytes.
    pub(crate) fn next(&mut self, n: usize) -> Result<&[u8], BadScript>
        requires { n ≤ 65536 }
    {
        self.read(0, n)?;
        Ok(&self.bytes[..n])
    }

    // The next call, none at the end of the script.
    pub(crate) fn next_call(&mut self) -> Result<Option<Call<'_>>, BadScript> {
        if self.read(0, 1).is_err() {
            return Ok(None);
        }
        let code = Code::try_from(self.bytes[0])?;
        let k = code.field_bytes();
        self.read(0, k)?;
        let n = code.list_bytes(&self.bytes[..k])?;
        self.read(k, n)?;
        Ok(Some(Call {
            code,
            fields: &self.bytes[..k],
            list: &self.bytes[k..k + n],
        }))
    }
}

// host_memory reads ranges the same way: for these two functions the program would stand on it and on host_trainer.
fn range_at(bytes: &[u8], at: usize) -> Range
    requires { at ≤ 65000 }
{
    Range {
        lowest: float_at(bytes, at),
        highest: float_at(bytes, at + 8),
    }
}

pub(crate) fn ranges_at(bytes: &[u8]) -> Ranges {
    Ranges {
        ack_ewma: range_at(bytes, 0),
        send_ewma: range_at(bytes, 16),
        rtt_ratio: range_at(bytes, 32),
    }
}
