// SV streams, carried over from industrial/iec61850-monitor/src/lib.rs of craton-shield a31d888527 (Apache-2.0) and changed: a table by
// name; no flag for a stream without a count, since there is none, and no time, which nothing reads.
#![tactic(auto, unfolding(crate::specs::SvSeq::count_outcome, crate::specs::SvSeq::is_replay))]

ghost use Rattle.std.specs.Prelude.{◌≡◌, length};
ghost use Rattle.tables.specs.Place.{known_of};
ghost use Rattle.checks.specs.SvSeq.{count_outcome, sv_outcome, outcome_number, is_replay, count_or, sv_checked};

use tables::named::VALUES;
use tables::place::enter;

// What a count says of its stream. A gap is how many counts it went forward.
#[derive(Clone, Copy)]
pub enum SvSeqOutcome {
    FirstSeen,
    Replay,
    ForwardGap(u16),
    CycleWrap,
    SuspiciousSmpGap(u16),
}

impl SvSeqOutcome {
    // The outcome's number in the order above. An enum with values has no cast.
    pub fn number(self) -> u8
        ensures { result ≡ outcome_number self }
    {
        match self {
            SvSeqOutcome::FirstSeen => 0,
            SvSeqOutcome::Replay => 1,
            SvSeqOutcome::ForwardGap(_) => 2,
            SvSeqOutcome::CycleWrap => 3,
            SvSeqOutcome::SuspiciousSmpGap(_) => 4,
        }
    }

    // Whether the count is a replay.
    pub fn is_replay(self) -> bool
        ensures { result ≡ is_replay self }
    {
        matches!(self, SvSeqOutcome::Replay)
    }
}

// What a count says after the last one of its stream.
fn count_outcome(last: u64, smp_cnt: u16) -> SvSeqOutcome
    ensures { result ≡ count_outcome last smp_cnt }
{
    let count = smp_cnt as u64;
    if count == last {
        return SvSeqOutcome::Replay;
    }
    if last < count {
        return SvSeqOutcome::ForwardGap((count - last) as u16);
    }
    let backward = last - count;
    if backward <= 32766 {
        return SvSeqOutcome::Replay;
    }
    if 65280 <= backward {
        return SvSeqOutcome::CycleWrap;
    }
    SvSeqOutcome::SuspiciousSmpGap((65536 - backward) as u16)
}

// What a count says after the last one of its stream, if the stream is known.
fn sv_outcome(last: Option<u64>, smp_cnt: u16) -> SvSeqOutcome
    ensures { result ≡ sv_outcome (known_of last) smp_cnt }
{
    match last {
        Some(last) => count_outcome(last, smp_cnt),
        None => SvSeqOutcome::FirstSeen,
    }
}

// The count to keep: a replay keeps the last one.
fn count_or(replay: bool, last: u64, smp_cnt: u16) -> u64
    ensures { result ≡ count_or replay last smp_cnt }
{
    if replay { last } else { smp_cnt as u64 }
}

// Checks a frame's count in the table of streams, and answers what it says.
pub fn check_sv_seq_in(t: &mut [u64], svid: &[u64; 10], smp_cnt: u16) -> SvSeqOutcome
    requires { length t.old ≡ 178 }
    ensures { record { table = t.new; outcome = result } ≡ sv_checked t.old svid.now smp_cnt }
{
    let place = enter(t, svid);
    let slot = place.slot;
    let last = t[VALUES + slot];
    let outcome = sv_outcome(place.known.then_some(last), smp_cnt);
    t[VALUES + slot] = count_or(outcome.is_replay(), last, smp_cnt);
    outcome
}
