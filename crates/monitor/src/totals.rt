// Totals, carried over from industrial/iec61850-monitor/src/lib.rs of craton-shield a31d888527 (Apache-2.0) and changed: five words, counted in place.
ghost use Rattle.std.specs.Prelude.{◌≡◌, ◌<◌};
ghost use Rattle.monitor.specs.Monitor.{monitor_of};
ghost use Rattle.monitor.specs.Totals.{total, alert_counters, frame_counted, with_alerts};

use crate::parts::{TOTALS, WORDS};
use records::counter::saturating_increment;
use records::result::AlertCounters;

// Where each total stands among the totals.
pub const MMS_TOTAL_INSPECTED: usize = 0;

pub const GOOSE_TOTAL_INSPECTED: usize = 1;

pub const SV_TOTAL_INSPECTED: usize = 2;

pub const NEXT_ALERT_ID: usize = 3;

pub const TOTAL_ALERTS: usize = 4;

// One of the totals.
pub fn total_on(m: &[u64; WORDS], place: usize) -> u64
    requires { place < 5 }
    ensures { result ≡ total (monitor_of m.now) place }
{
    m[TOTALS + place]
}

// The alerts' counters.
pub fn alert_counters_on(m: &[u64; WORDS]) -> AlertCounters
    ensures { result ≡ alert_counters (monitor_of m.now) }
{
    AlertCounters {
        next_alert_id: total_on(m, NEXT_ALERT_ID),
        total_alerts: total_on(m, TOTAL_ALERTS),
    }
}

// Counts a frame.
pub fn count_frame_on(m: &mut [u64; WORDS], place: usize)
    requires { place < 5 }
    ensures { monitor_of m.new ≡ frame_counted (monitor_of m.old) place }
{
    m[TOTALS + place] = saturating_increment(m[TOTALS + place]);
}

// Stores the alerts' counters.
pub fn set_alert_counters_on(m: &mut [u64; WORDS], counters: AlertCounters)
    ensures { monitor_of m.new ≡ with_alerts (monitor_of m.old) counters }
{
    m[TOTALS + NEXT_ALERT_ID] = counters.next_alert_id;
    m[TOTALS + TOTAL_ALERTS] = counters.total_alerts;
}
