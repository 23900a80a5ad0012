// The stored form of a log of transfers: its check, and the record at an offset.
#![tactic(auto)]

ghost use Rattle.std.specs.Prelude.{◌≡◌, ◌+◌, ◌≤◌, ◌<◌, ◌^◌, length, take, drop};
ghost use Rattle.logs.specs.Log.{value_of, record_length, head_at, log_refusal, bad_offset};
ghost use Rattle.logs.specs.Refused.{refusal_of, offset_of};

use status::Refusal;

pub const MAX_LOG: usize = 65536;

// Why a log is refused, and the offset of its first bad record; 0 for LOG_LONG, as `bad_offset` says, so no Option.
#[derive(Clone, Copy, Debug, PartialEq, Eq)]
pub struct Refused {
    pub refusal: Refusal,
    pub offset: usize,
}

// A record of the log: its time, where its bytes start and end, and what its tag says.
#[derive(Clone, Copy, Debug, PartialEq, Eq)]
pub struct Head {
    pub t: u64,
    pub start: usize,
    pub end: usize,
    pub dc: bool,
    pub release: bool,
}

// A number of at most 8 bytes, the high byte first.
fn value(bytes: &[u8]) -> u64
    requires { length bytes.now ≤ 8 }
    ensures value { result ≡ value_of bytes.now }
    ensures upper_bound { result < 256 ^ length bytes.now }
{
    let mut v: u64 = 0;
    for byte in bytes {
        v = v * 256 + u64::from(*byte);
    }
    v
}

// The n bytes from a place on, or as many as there are.
fn part(bytes: &[u8], from: usize, n: usize) -> &[u8]
    ensures result_value { result.now ≡ take n (drop from bytes.now) }
    ensures result_len_bound { length result.now ≤ n }
{
    let rest = &bytes[from.min(bytes.len())..];
    &rest[..n.min(rest.len())]
}

// How many bytes the first record of `rest` takes, by what it says itself.
fn size(rest: &[u8]) -> usize
    ensures value { result ≡ record_length rest.now }
    ensures upper_bound { result < 11 + 65536 }
{
    11 + value(part(rest, 9, 2)) as usize
}

// The refusal of a log, and for BAD_LOG the offset of its first bad record.
#[tactic(auto, using(crate::proofs::Checking::checking), unfolding(crate::specs::Log::log_refusal, crate::specs::Log::bad_offset))]
pub fn check(log: &[u8]) -> Result<(), Refused>
    ensures refusal { refusal_of result ≡ log_refusal log.now }
    ensures answer { offset_of result ≡ bad_offset log.now }
{
    if MAX_LOG < log.len() {
        return Err(Refused {
            refusal: Refusal::LogLong,
            offset: 0,
        });
    }
    let mut at = 0;
    // No `for`: a record says itself where it ends.
    while at < log.len() {
        let rest = &log[at..];
        let taken = size(rest);
        let end = at + taken;
        if rest[0] > 3 || rest.len() < taken {
            return Err(Refused {
                refusal: Refusal::BadLog,
                offset: at,
            });
        }
        at = end;
    }
    Ok(())
}

// The record that begins at an offset; cut at the log's end, and empty past it.
#[tactic(auto, using(crate::proofs::Heads::heads))]
pub fn head_at(log: &[u8], at: usize) -> Head
    ensures answer { result ≡ head_at log.now at }
{
    if log.len() <= at {
        let end = log.len();
        return Head {
            t: 0,
            start: end,
            end,
            dc: false,
            release: false,
        };
    }
    let rest = &log[at..];
    let tag = rest[0];
    let t = value(part(rest, 1, 8));
    let start = at + rest.len().min(11);
    let end = at + size(rest).min(rest.len());
    Head {
        t,
        start,
        end,
        dc: tag & 1 != 0,
        release: tag & 2 != 0,
    }
}
