// A new monitor and reset, carried over from industrial/iec61850-monitor/src/lib.rs of craton-shield a31d888527 (Apache-2.0) and changed: each part
// made as new in place.
ghost use Rattle.std.specs.Prelude.{◌≡◌, ◌≤◌, ◌-◌, length};
ghost use borrow.Rule.Slice.PartMut.{put_mid};
ghost use Rattle.tables.specs.Column.{zero_words};
ghost use Rattle.tables.specs.Order.{no_entries};
ghost use Rattle.monitor.specs.Monitor.{monitor_of, with_totals};
ghost use Rattle.monitor.specs.Reset.{new_totals, new_monitor, reset_monitor};

use crate::parts::{
    CB_RESERVATIONS, GOOSE_PUBLISHERS, GOOSE_SEQ, MMS_RULES, RATE_BUCKETS, SV_PUBLISHERS, SV_SEQ,
    TIME_TRACKERS, TOTALS, WORDS,
};
use crate::settings::{STRICT_MODE, set_retx_schedule_on, set_setting};
use crate::totals::NEXT_ALERT_ID;
use records::schedule::RetxSchedule;
use tables::column::zero_words;
use tables::order::clear;

// Nothing inspected, and the first alert gets number 1.
fn new_totals(m: &mut [u64; WORDS])
    ensures { monitor_of m.new ≡ with_totals (monitor_of m.old) new_totals }
{
    zero_words(&mut m[TOTALS..MMS_RULES]);
    m[TOTALS + NEXT_ALERT_ID] = 1;
}

// Sets the words of a part to 0. The contract says the length too, which a reference to an array does not tell a caller's proof.
fn zero_part(m: &mut [u64; WORDS], start: usize, end: usize)
    requires { (start ≤ end) × (end ≤ 1148) }
    ensures { (length m.old ≡ 1148)
        × (m.new ≡ put_mid start (end - start) m.old (zero_words (end - start))) }
{
    zero_words(&mut m[start..end]);
}

// Makes a part a table without entries.
fn clear_part(m: &mut [u64; WORDS], start: usize, end: usize)
    requires { (start ≤ end) × (end ≤ 1148) }
    ensures { (length m.old ≡ 1148)
        × (m.new ≡ put_mid start (end - start) m.old (no_entries (end - start))) }
{
    clear(&mut m[start..end]);
}

// As new but for the settings: rules, tables, reservations and totals are gone.
pub fn reset_on(m: &mut [u64; WORDS])
    ensures { monitor_of m.new ≡ reset_monitor (monitor_of m.old) }
{
    new_totals(m);
    zero_part(m, MMS_RULES, GOOSE_PUBLISHERS);
    zero_part(m, GOOSE_PUBLISHERS, SV_PUBLISHERS);
    zero_part(m, SV_PUBLISHERS, RATE_BUCKETS);
    clear_part(m, RATE_BUCKETS, GOOSE_SEQ);
    clear_part(m, GOOSE_SEQ, SV_SEQ);
    clear_part(m, SV_SEQ, TIME_TRACKERS);
    clear_part(m, TIME_TRACKERS, CB_RESERVATIONS);
    clear_part(m, CB_RESERVATIONS, WORDS);
}

// A new monitor, strict or not, whatever stood there: nothing limited and nothing blocked; a schedule that is not enforced.
pub fn new_on(m: &mut [u64; WORDS], strict: bool)
    ensures { monitor_of m.new ≡ new_monitor strict }
{
    zero_part(m, 0, TOTALS);
    set_setting(m, STRICT_MODE, u64::from(strict));
    let schedule = RetxSchedule::default_8_1();
    set_retx_schedule_on(m, schedule, false);
    reset_on(m);
}
