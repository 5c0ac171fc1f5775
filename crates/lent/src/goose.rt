// A GOOSE frame as the 104 octets of its struct.
ghost use Rattle.std.specs.Prelude.{◌≡◌, length};
ghost use Rattle.monitor.specs.Monitor.{monitor_of};
ghost use Rattle.inspection.specs.InspectGoose.{goose_read, checked_goose, inspect_goose};
ghost use Rattle.inspection.specs.Report.{alerts_of, with_verdict};
ghost use Rattle.lent.specs.Goose.{goose_frame_of};

use crate::octets::{octets_at, u32_at, u64_at};
use inspection::address::address_of;
use inspection::inspect_goose::{GooseNumbers, goose_checks_on, name_hash};
use inspection::report::{CheckAlerts, verdict_on};
use monitor::parts::WORDS;
use monitor::totals::{GOOSE_TOTAL_INSPECTED, count_frame_on};
use records::name::Name;

// What the checks read of a frame beside its control block's name.
fn goose_numbers(o: &[u8]) -> GooseNumbers
    requires { length o.now ≡ 104 }
    ensures { result ≡ (goose_read (goose_frame_of o.now)).numbers }
{
    GooseNumbers {
        address: address_of(octets_at(o, 0)),
        hash: name_hash(&o[6..70], o[70]),
        st_num: u32_at(o, 72),
        sq_num: u32_at(o, 76),
        test: o[80] != 0,
        timestamp_us: u64_at(o, 88),
        seconds: u32_at(o, 96),
        fraction: u32_at(o, 100),
    }
}

// Counts and checks a frame.
fn check_goose_lent(m: &mut [u64; WORDS], o: &[u8]) -> CheckAlerts
    requires { length o.now ≡ 104 }
    ensures { record { monitor = monitor_of m.new; answer = alerts_of result }
        ≡ checked_goose (monitor_of m.old) (goose_frame_of o.now) }
{
    let n = goose_numbers(o);
    count_frame_on(m, GOOSE_TOTAL_INSPECTED);
    goose_checks_on(
        m,
        Name {
            octets: &octets_at(o, 6),
            len: o[70],
        },
        n,
    )
}

// Inspects a frame, and answers the verdict.
pub fn goose_verdict_lent(m: &mut [u64; WORDS], octets: &[u8; 104]) -> [u8; 8]
    ensures { record { monitor = monitor_of m.new; answer = result }
        ≡ with_verdict (inspect_goose (monitor_of m.old) (goose_frame_of octets.now)) }
{
    let alerts = check_goose_lent(m, octets);
    verdict_on(m, alerts)
}
