// The inspection of an MMS frame, carried over from industrial/iec61850-monitor/src/lib.rs of craton-shield a31d888527 (Apache-2.0) and changed: a
// chain of stages on the monitor's words, each of which ends the checking or calls the next; the alerts added at the end.
ghost use Rattle.std.specs.Prelude.{◌≡◌};
ghost use Rattle.monitor.specs.Monitor.{monitor_of};
ghost use Rattle.monitor.specs.Settings.{strict_mode};
ghost use Rattle.inspection.specs.InspectMms.{control_key, full_findings, mms_control, over_rate, mms_rate, mms_applying, masked};
ghost use Rattle.inspection.specs.InspectMms.{mms_rule, mms_checks, checked_mms, inspect_mms};
ghost use Rattle.inspection.specs.Report.{findings_in};

use crate::report::{AlertSource, CheckAlert, one_alert, report_on};
use checks::keys::reservation_key;
use checks::mms_rule::has_bit;
use monitor::parts::{
    WORDS, first_rule_on, mms_rule_count_on, rate_check_on, release_cb_on, reserve_cb_on,
    rule_rate_on, rule_read_only_on,
};
use monitor::settings::{MMS_READ_ONLY, MMS_SERVICE_MASK, STRICT_MODE, flag_on, setting_on};
use monitor::totals::{MMS_TOTAL_INSPECTED, count_frame_on};
use records::alert::SOURCE_IEC61850_MMS;
use records::frame::MmsFrame;
use records::name::Name;
use records::result::InspectResult;
use records::service::MmsServiceType;

// What the checks read of a frame beside the name that a control action states. The service stands by its number: `mms_checks_on` takes any, so that
// an enum would ask more of its callers.
#[derive(Clone, Copy)]
pub struct MmsNumbers {
    pub service: u8,
    pub write: bool,
    pub raw_service_type: u8,
    pub domain_len: u8,
    pub invoke_id: u32,
    pub timestamp_us: u64,
    pub client_id: u32,
    pub control_block_is_goose: bool,
}

// Whether a mask refuses a raw number; a mask of 0 refuses none.
fn masked(mask: u64, raw: u8) -> bool
    ensures { result ≡ masked mask raw }
{
    if mask == 0 {
        return false;
    }
    !has_bit(mask, raw)
}

// What the rule that applies says of a frame, or the lack of one.
fn mms_applying(m: &[u64; WORDS], found: Option<usize>, write: bool) -> Result<u16, CheckAlert>
    ensures { result ≡ mms_applying (strict_mode (monitor_of m.now)) (monitor_of m.now).mms_rules write found }
{
    match found {
        Some(i) => {
            if rule_read_only_on(m, i) && write {
                return Err(CheckAlert::WriteRefused);
            }
            Ok(rule_rate_on(m, i))
        }
        None => {
            let count = mms_rule_count_on(m);
            if flag_on(m, STRICT_MODE) && count > 0 {
                return Err(CheckAlert::NoRule);
            }
            Ok(0)
        }
    }
}

// 4 to 6 and 8: the mask, read-only mode, and the first rule that applies. Masks use the raw number.
fn mms_rule(m: &[u64; WORDS], raw: u8, write: bool) -> Result<u16, CheckAlert>
    ensures { result ≡ mms_rule (monitor_of m.now) raw write }
{
    if masked(setting_on(m, MMS_SERVICE_MASK), raw) {
        return Err(CheckAlert::ServiceMasked);
    }
    if flag_on(m, MMS_READ_ONLY) && write {
        return Err(CheckAlert::WriteRefused);
    }
    let found = first_rule_on(m, raw);
    mms_applying(m, found, write)
}

// A full reservation table gives an alert that does not refuse.
fn full_alert(taken: bool) -> Option<CheckAlert>
    ensures { findings_in result ≡ full_findings taken }
{
    if taken {
        None
    } else {
        Some(CheckAlert::ReservationsFull)
    }
}

// The control block that a control action names.
fn control_key(domain: &[u8; 64], n: MmsNumbers) -> [u64; 10]
    ensures { result ≡ control_key (record { domain = domain.entry.now; numbers = n }) }
{
    reservation_key(
        n.control_block_is_goose,
        Name {
            octets: domain,
            len: n.domain_len,
        },
    )
}

// The control action of a frame, by the service and not its raw number: SelectControl reserves the control block that it names, CancelControl and
// Conclude give it up.
fn mms_control(m: &mut [u64; WORDS], domain: &[u8; 64], n: MmsNumbers) -> Option<CheckAlert>
    ensures { record { monitor = monitor_of m.new; answer = findings_in result }
        ≡ mms_control (record { domain = domain.entry.now; numbers = n }) (monitor_of m.old) }
{
    match MmsServiceType::from_u8(n.service) {
        MmsServiceType::SelectControl => {
            let key = control_key(domain, n);
            full_alert(reserve_cb_on(m, &key, n.client_id))
        }
        MmsServiceType::CancelControl | MmsServiceType::Conclude => {
            let key = control_key(domain, n);
            release_cb_on(m, &key, n.client_id);
            None
        }
        _ => None,
    }
}

// Whether a request is over the rate of its rule; a rate of 0 is no limit.
fn over_rate(m: &mut [u64; WORDS], invoke_id: u32, rate: u16, now_us: u64) -> bool
    ensures { record { monitor = monitor_of m.new; answer = result } ≡ over_rate (monitor_of m.old) invoke_id rate now_us }
{
    if rate == 0 {
        return false;
    }
    !rate_check_on(m, invoke_id, rate, now_us)
}

// 7: the bucket of a rule with a rate, then the control action.
fn mms_rate(m: &mut [u64; WORDS], domain: &[u8; 64], n: MmsNumbers, rate: u16) -> Option<CheckAlert>
    ensures { record { monitor = monitor_of m.new; answer = findings_in result }
        ≡ mms_rate (record { domain = domain.entry.now; numbers = n }) rate (monitor_of m.old) }
{
    if over_rate(m, n.invoke_id, rate, n.timestamp_us) {
        return Some(CheckAlert::OverRate);
    }
    mms_control(m, domain, n)
}

// The checks of an MMS frame.
pub fn mms_checks_on(m: &mut [u64; WORDS], domain: &[u8; 64], n: MmsNumbers) -> Option<CheckAlert>
    ensures { record { monitor = monitor_of m.new; answer = findings_in result }
        ≡ mms_checks (monitor_of m.old) (record { domain = domain.entry.now; numbers = n }) }
{
    match mms_rule(m, n.raw_service_type, n.write) {
        Err(alert) => Some(alert),
        Ok(rate) => mms_rate(m, domain, n, rate),
    }
}

// Counts and checks an MMS frame.
fn check_mms_on(m: &mut [u64; WORDS], frame: MmsFrame) -> Option<CheckAlert>
    ensures { record { monitor = monitor_of m.new; answer = findings_in result } ≡ checked_mms (monitor_of m.old) frame }
{
    let service = frame.service_type;
    let n = MmsNumbers {
        service: service.number(),
        write: service.is_write(),
        raw_service_type: frame.raw_service_type,
        domain_len: frame.domain_len,
        invoke_id: frame.invoke_id,
        timestamp_us: frame.timestamp_us,
        client_id: frame.client_id,
        control_block_is_goose: frame.control_block_is_goose,
    };
    count_frame_on(m, MMS_TOTAL_INSPECTED);
    mms_checks_on(m, &frame.domain, n)
}

// Inspects an MMS frame.
pub fn inspect_mms_on(m: &mut [u64; WORDS], frame: MmsFrame) -> InspectResult
    ensures { record { monitor = monitor_of m.new; answer = result } ≡ inspect_mms (monitor_of m.old) frame }
{
    let alert = check_mms_on(m, frame);
    report_on(
        m,
        one_alert(alert),
        AlertSource {
            source_type: SOURCE_IEC61850_MMS,
            source_id: frame.invoke_id,
            timestamp_us: frame.timestamp_us,
        },
    )
}
