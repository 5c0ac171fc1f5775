// GOOSE streams, carried over from industrial/iec61850-monitor/src/lib.rs of craton-shield a31d888527 (Apache-2.0) and changed: a
// table by name; no flag for a stream without numbers, since there is none.
#![tactic(auto, unfolding(crate::specs::GooseSeq::replays, crate::specs::GooseSeq::outside_tolerance))]

ghost use Rattle.std.specs.Prelude.{◌≡◌, min, ◌-◌, ◌^◌, ◌<◌, cond, option_map, length};
ghost use Rattle.tables.specs.Place.{known_of};
ghost use Rattle.checks.specs.GooseSeq.{numbers_of, numbers_at, replays, goose_replay, outside_tolerance, retx_checked, goose_checked};

use records::schedule::RetxSchedule;
use tables::named::VALUES;
use tables::place::{enter, find};

// Where the last stored frame's numbers and time stand.
const STATES: usize = VALUES;

const SEQUENCES: usize = VALUES + 16;

const TIMES: usize = VALUES + 32;

// A stream's numbers and time: numbers of 32 bits in a frame, words in a table.
#[derive(Clone, Copy)]
pub struct StreamNumbers<T> {
    pub st_num: T,
    pub sq_num: T,
    pub timestamp_us: u64,
}

// Whether a frame's numbers are not above the last ones of its stream.
fn replays(last: StreamNumbers<u64>, new: StreamNumbers<u32>) -> bool
    ensures { result ≡ replays (last.st_num, last.sq_num) (new.st_num, new.sq_num) }
{
    let state = new.st_num as u64;
    if state < last.st_num {
        return true;
    }
    if state != last.st_num {
        return false;
    }
    (new.sq_num as u64) <= last.sq_num
}

// The same if the stream is known.
fn goose_replay(last: Option<StreamNumbers<u64>>, new: StreamNumbers<u32>) -> bool
    ensures { result ≡ goose_replay (known_of (option_map numbers_of last)) (new.st_num, new.sq_num) }
{
    match last {
        Some(last) => replays(last, new),
        None => false,
    }
}

// The numbers to keep: a replay keeps the last ones.
fn numbers_or(replay: bool, last: StreamNumbers<u64>, new: StreamNumbers<u32>) -> StreamNumbers<u64>
    ensures { numbers_of result ≡ cond replay (numbers_of last) (numbers_of new) }
{
    if replay {
        return last;
    }
    StreamNumbers {
        st_num: new.st_num as u64,
        sq_num: new.sq_num as u64,
        timestamp_us: new.timestamp_us,
    }
}

// An observed interval, the most that 32 bits hold if it is larger.
fn observed_us(elapsed_us: u64) -> u32
    ensures { result ≡ min elapsed_us (2 ^ 32 - 1) }
{
    u32::try_from(elapsed_us).unwrap_or(u32::MAX)
}

// Whether a repetition of the last state came too early or too late.
fn outside_tolerance(
    schedule: RetxSchedule,
    last: StreamNumbers<u64>,
    new: StreamNumbers<u32>,
) -> bool
    ensures { result ≡ outside_tolerance schedule (numbers_of last) (numbers_of new) }
{
    if (new.st_num as u64) != last.st_num {
        return false;
    }
    if (new.sq_num as u64) <= last.sq_num {
        return false;
    }
    if new.timestamp_us < last.timestamp_us {
        return false;
    }
    let observed = observed_us(new.timestamp_us - last.timestamp_us);
    let expected = schedule.expected_interval_us(new.sq_num);
    !schedule.within_tolerance(observed, expected)
}

// The numbers of a slot.
fn numbers_at(t: &[u64], slot: usize) -> StreamNumbers<u64>
    requires { (length t.now ≡ 210) × (slot < 16) }
    ensures { numbers_of result ≡ numbers_at t.now slot }
{
    StreamNumbers {
        st_num: t[STATES + slot],
        sq_num: t[SEQUENCES + slot],
        timestamp_us: t[TIMES + slot],
    }
}

// Whether a frame of a known stream misses the schedule. The look-up is no use of the stream.
pub fn retx_anomaly(
    t: &[u64],
    key: &[u64; 10],
    schedule: RetxSchedule,
    new: StreamNumbers<u32>,
) -> bool
    requires { length t.now ≡ 210 }
    ensures { result ≡ retx_checked schedule t.now key.now (numbers_of new) }
{
    match find(t, key) {
        Some(slot) => outside_tolerance(schedule, numbers_at(t, slot), new),
        None => false,
    }
}

// Checks a frame's numbers in the table of streams, and answers whether it is a replay.
pub fn check_goose_seq_in(t: &mut [u64], key: &[u64; 10], new: StreamNumbers<u32>) -> bool
    requires { length t.old ≡ 210 }
    ensures { record { table = t.new; replay = result } ≡ goose_checked t.old key.now (numbers_of new) }
{
    let place = enter(t, key);
    let slot = place.slot;
    let last = numbers_at(t, slot);
    let replay = goose_replay(place.known.then_some(last), new);
    let kept = numbers_or(replay, last, new);
    t[STATES + slot] = kept.st_num;
    t[SEQUENCES + slot] = kept.sq_num;
    t[TIMES + slot] = kept.timestamp_us;
    replay
}
