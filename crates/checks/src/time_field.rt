// Clocks, carried over from industrial/iec61850-monitor/src/lib.rs of craton-shield a31d888527 (Apache-2.0) and changed: a table by
// number; no flag for a clock without a pair, since there is none.
#![tactic(auto, unfolding(crate::specs::TimeField::has_clock, crate::specs::TimeField::earlier))]

ghost use Rattle.std.specs.Prelude.{◌≡◌, option_map, length};
ghost use Rattle.tables.specs.Place.{known_of};
ghost use Rattle.checks.specs.TimeField.{pair_of, has_clock, clock_alert, time_checked};

use tables::numbered::VALUES;
use tables::place::enter;

// Where the last pairs stand.
const SECONDS: usize = VALUES;

const FRACTIONS: usize = VALUES + 16;

// A clock's pair: numbers of 32 bits in a frame, words in a table.
#[derive(Clone, Copy)]
pub struct ClockPair<T> {
    pub seconds: T,
    pub fraction: T,
}

impl ClockPair<u32> {
    // Whether the pair is checked and kept.
    pub fn has_clock(self) -> bool
        ensures { result ≡ has_clock (pair_of self) }
    {
        self.seconds != 0 || self.fraction != 0
    }
}

// Whether a pair alerts: earlier than the kept one, or further ahead in seconds than a nonzero limit.
fn clock_alerts(kept: Option<ClockPair<u64>>, limit: u32, pair: ClockPair<u32>) -> bool
    ensures { result ≡ clock_alert limit (known_of (option_map pair_of kept)) (pair_of pair) }
{
    let Some(kept) = kept else {
        return false;
    };
    let now = pair.seconds as u64;
    if now < kept.seconds {
        return true;
    }
    if now == kept.seconds {
        return (pair.fraction as u64) < kept.fraction;
    }
    if limit == 0 {
        return false;
    }
    (limit as u64) < now - kept.seconds
}

// Checks a frame's time in the table of clocks, keeps its pair, and answers whether it alerts.
pub fn check_time_field_in(t: &mut [u64], limit: u32, address: u64, pair: ClockPair<u32>) -> bool
    requires { length t.old ≡ 50 }
    ensures { record { table = t.new; alert = result } ≡ time_checked t.old limit address (pair_of pair) }
{
    if !pair.has_clock() {
        return false;
    }
    let place = enter(t, &address);
    let slot = place.slot;
    let kept = ClockPair {
        seconds: t[SECONDS + slot],
        fraction: t[FRACTIONS + slot],
    };
    t[SECONDS + slot] = pair.seconds as u64;
    t[FRACTIONS + slot] = pair.fraction as u64;
    clock_alerts(place.known.then_some(kept), limit, pair)
}
