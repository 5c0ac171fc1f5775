// The time of a GOOSE or SV frame, carried over from industrial/iec61850-monitor/src/lib.rs of craton-shield a31d888527 (Apache-2.0) and changed: the
// limit is read only for a frame that has a time.
ghost use Rattle.std.specs.Prelude.{◌≡◌};
ghost use Rattle.monitor.specs.Monitor.{monitor_of};
ghost use Rattle.monitor.specs.Parts.{time_field_on};
ghost use Rattle.monitor.specs.Settings.{time_max_forward_jump};

use checks::time_field::ClockPair;
use monitor::parts::{WORDS, check_time_field_on};
use monitor::settings::time_max_forward_jump_s_on;

// Checks a frame's time by the monitor's limit, and answers whether it alerts.
pub fn clock_checked(m: &mut [u64; WORDS], address: u64, seconds: u32, fraction: u32) -> bool
    ensures { record { monitor = monitor_of m.new; answer = result }
        ≡ time_field_on (monitor_of m.old) (time_max_forward_jump (monitor_of m.old)) address (seconds, fraction) }
{
    let pair = ClockPair { seconds, fraction };
    if pair.has_clock() {
        let limit = time_max_forward_jump_s_on(m);
        return check_time_field_on(m, limit, address, pair);
    }
    false
}
