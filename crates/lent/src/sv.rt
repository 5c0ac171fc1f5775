// An SV frame as the 160 octets of its struct.
ghost use Rattle.std.specs.Prelude.{◌≡◌, length};
ghost use Rattle.monitor.specs.Monitor.{monitor_of};
ghost use Rattle.inspection.specs.InspectSv.{sv_read, checked_sv, inspect_sv};
ghost use Rattle.inspection.specs.Report.{alerts_of, with_verdict};
ghost use Rattle.lent.specs.Sv.{sv_frame_of};

use crate::octets::{octets_at, u16_at, u32_at};
use checks::keys::plain_key;
use inspection::address::address_of;
use inspection::inspect_sv::{SvNumbers, sv_checks_on};
use inspection::report::{CheckAlerts, verdict_on};
use monitor::parts::WORDS;
use monitor::totals::{SV_TOTAL_INSPECTED, count_frame_on};
use records::name::Name;

// What the checks read of a frame beside its names.
fn sv_numbers(o: &[u8]) -> SvNumbers
    requires { length o.now ≡ 160 }
    ensures { result ≡ (sv_read (sv_frame_of o.now)).numbers }
{
    SvNumbers {
        address: address_of(octets_at(o, 0)),
        seconds: u32_at(o, 152),
        fraction: u32_at(o, 156),
        smp_cnt: u16_at(o, 72),
        smp_rate: u16_at(o, 74),
    }
}

// Counts and checks a frame. A key or name that is made where it is lent is not copied once more.
pub fn check_sv_lent(m: &mut [u64; WORDS], o: &[u8]) -> CheckAlerts
    requires { length o.now ≡ 160 }
    ensures { record { monitor = monitor_of m.new; answer = alerts_of result }
        ≡ checked_sv (monitor_of m.old) (sv_frame_of o.now) }
{
    let n = sv_numbers(o);
    count_frame_on(m, SV_TOTAL_INSPECTED);
    sv_checks_on(
        m,
        &plain_key(Name {
            octets: &octets_at(o, 7),
            len: o[6],
        }),
        Name {
            octets: &octets_at(o, 77),
            len: o[76],
        },
        n,
    )
}

// Inspects a frame, and answers the verdict.
pub fn sv_verdict_lent(m: &mut [u64; WORDS], octets: &[u8; 160]) -> [u8; 8]
    ensures { record { monitor = monitor_of m.new; answer = result }
        ≡ with_verdict (inspect_sv (monitor_of m.old) (sv_frame_of octets.now)) }
{
    let alerts = check_sv_lent(m, octets);
    verdict_on(m, alerts)
}
