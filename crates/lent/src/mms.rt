// An MMS frame as the 88 octets of its struct.
ghost use Rattle.std.specs.Prelude.{◌≡◌, length};
ghost use Rattle.monitor.specs.Monitor.{monitor_of};
ghost use Rattle.inspection.specs.InspectMms.{mms_read, checked_mms, inspect_mms};
ghost use Rattle.inspection.specs.Report.{findings_in, with_verdict};
ghost use Rattle.lent.specs.Mms.{mms_frame_of};

use crate::octets::{octets_at, u32_at, u64_at};
use inspection::inspect_mms::{MmsNumbers, mms_checks_on};
use inspection::report::{CheckAlert, one_alert, verdict_on};
use monitor::parts::WORDS;
use monitor::totals::{MMS_TOTAL_INSPECTED, count_frame_on};
use records::service::MmsServiceType;

// What the checks read of a frame beside the name that a control action states.
fn mms_numbers(o: &[u8]) -> MmsNumbers
    requires { length o.now ≡ 88 }
    ensures { result ≡ (mms_read (mms_frame_of o.now)).numbers }
{
    let service = MmsServiceType::from_u8(o[0]);
    MmsNumbers {
        service: service.number(),
        write: service.is_write(),
        raw_service_type: o[1],
        domain_len: o[66],
        invoke_id: u32_at(o, 68),
        timestamp_us: u64_at(o, 72),
        client_id: u32_at(o, 80),
        control_block_is_goose: o[84] != 0,
    }
}

// Counts and checks a frame.
fn check_mms_lent(m: &mut [u64; WORDS], o: &[u8]) -> Option<CheckAlert>
    requires { length o.now ≡ 88 }
    ensures { record { monitor = monitor_of m.new; answer = findings_in result }
        ≡ checked_mms (monitor_of m.old) (mms_frame_of o.now) }
{
    let domain = octets_at(o, 2);
    let n = mms_numbers(o);
    count_frame_on(m, MMS_TOTAL_INSPECTED);
    mms_checks_on(m, &domain, n)
}

// Inspects a frame, and answers the verdict.
pub fn mms_verdict_lent(m: &mut [u64; WORDS], octets: &[u8; 88]) -> [u8; 8]
    ensures { record { monitor = monitor_of m.new; answer = result }
        ≡ with_verdict (inspect_mms (monitor_of m.old) (mms_frame_of octets.now)) }
{
    let alert = check_mms_lent(m, octets);
    verdict_on(m, one_alert(alert))
}
