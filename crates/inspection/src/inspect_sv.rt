// The inspection of a sampled-values frame, carried over from industrial/iec61850-monitor/src/lib.rs of craton-shield
// a31d888527 (Apache-2.0) and changed: a chain of stages on the monitor's words, each of which ends the checking or calls the next; the alerts
// added at the end.
ghost use Rattle.std.specs.Prelude.{◌≡◌, false, cond, [], ◌++◌};
ghost use Rattle.records.specs.Name.{stated_name};
ghost use Rattle.checks.specs.Keys.{reservation_key};
ghost use Rattle.monitor.specs.Monitor.{monitor_of};
ghost use Rattle.monitor.specs.Parts.{cb_on};
ghost use Rattle.inspection.specs.InspectSv.{rate_findings, count_findings, sv_rule, sv_time_field, sv_reservation, sv_binding};
ghost use Rattle.inspection.specs.InspectSv.{sv_read_by, checked_sv, inspect_sv, inspect_raw_sv};
ghost use Rattle.inspection.specs.Report.{clock_findings, findings_in, alerts_of};

use crate::address::address_of;
use crate::clock::clock_checked;
use crate::hijack::hijacked;
use crate::report::{AlertSource, CheckAlert, CheckAlerts, clock_alert, one_alert, report_on};
use checks::keys::plain_key;
use checks::sv_publisher::PublisherMismatch;
use checks::sv_seq::SvSeqOutcome;
use monitor::parts::{
    WORDS, check_sv_seq_on, publisher_rate_on, sv_publisher_count_on, sv_publisher_on,
};
use monitor::settings::{STRICT_MODE, SV_MAX_SMP_CNT_GAP, flag_on, setting_on};
use monitor::totals::{SV_TOTAL_INSPECTED, count_frame_on};
use records::alert::SOURCE_IEC61850_SV;
use records::error::VsError;
use records::frame::SvFrame;
use records::name::Name;
use records::result::InspectResult;
use sv_frame::sv::parse_sv;

// What the checks read of a frame beside its names.
#[derive(Clone, Copy)]
pub struct SvNumbers {
    pub address: u64,
    pub seconds: u32,
    pub fraction: u32,
    pub smp_cnt: u16,
    pub smp_rate: u16,
}

// The result of a raw frame's inspection, with the error where it could not be read: there is a result in both cases.
#[derive(Clone, Copy)]
pub struct RawSv {
    pub answer: Result<(), VsError>,
    pub result: InspectResult,
}

// A replay refuses, and so does a gap above a nonzero limit; a suspicious count does not.
fn count_alert(outcome: SvSeqOutcome, limit: u64) -> Option<CheckAlert>
    ensures { findings_in result ≡ count_findings limit [] outcome }
{
    match outcome {
        SvSeqOutcome::FirstSeen => None,
        SvSeqOutcome::Replay => Some(CheckAlert::CountReplay),
        SvSeqOutcome::ForwardGap(gap) => {
            if limit > 0 && (gap as u64) > limit {
                return Some(CheckAlert::CountGap);
            }
            None
        }
        SvSeqOutcome::CycleWrap => None,
        SvSeqOutcome::SuspiciousSmpGap(_) => Some(CheckAlert::SuspiciousCount),
    }
}

// The rate is not compared after a replay, nor where the frame or the rule has none.
fn rate_alert(replay: bool, frame_rate: u16, rate: u16) -> Option<CheckAlert>
    ensures { findings_in result ≡ cond replay [] (rate_findings frame_rate rate) }
{
    if replay || frame_rate == 0 || rate == 0 || frame_rate == rate {
        return None;
    }
    Some(CheckAlert::RateMismatch)
}

// The alerts of the clock, the count and the rate.
fn sv_alerts(
    clock: bool,
    outcome: SvSeqOutcome,
    limit: u64,
    frame_rate: u16,
    rate: u16,
) -> CheckAlerts
    ensures { alerts_of result ≡ clock_findings clock ++ count_findings limit (rate_findings frame_rate rate) outcome }
{
    [
        clock_alert(clock),
        count_alert(outcome, limit),
        rate_alert(outcome.is_replay(), frame_rate, rate),
    ]
}

// 17 to 20: the clock; the count, also after a clock alert; the rate.
fn sv_time_field(m: &mut [u64; WORDS], svid: &[u64; 10], n: SvNumbers, rate: u16) -> CheckAlerts
    ensures { record { monitor = monitor_of m.new; answer = alerts_of result }
        ≡ sv_time_field svid.now n rate (monitor_of m.old) }
{
    let clock = clock_checked(m, n.address, n.seconds, n.fraction);
    let outcome = check_sv_seq_on(m, svid, n.smp_cnt);
    let max_gap = setting_on(m, SV_MAX_SMP_CNT_GAP);
    sv_alerts(clock, outcome, max_gap, n.smp_rate, rate)
}

// The use of a data set by an address, and whether it is bound to another. Most frames name none: no key is made of it.
#[tactic(auto, using(crate::proofs::HijackLaws::unnamed_passed))]
fn dataset_hijacked<'a>(m: &mut [u64; WORDS], dataset: Name<'a>, address: u64) -> bool
    ensures { record { monitor = monitor_of m.new; answer = result }
        ≡ cb_on (monitor_of m.old) (reservation_key false (stated_name dataset.entry)) address }
{
    if dataset.len == 0 {
        return false;
    }
    hijacked(m, false, dataset, address)
}

// 16: the data set's reservation.
fn sv_reservation<'a>(
    m: &mut [u64; WORDS],
    svid: &[u64; 10],
    dataset: Name<'a>,
    n: SvNumbers,
    rate: u16,
) -> CheckAlerts
    ensures { record { monitor = monitor_of m.new; answer = alerts_of result }
        ≡ sv_reservation (sv_read_by svid.now (stated_name dataset.entry) n) rate (monitor_of m.old) }
{
    if dataset_hijacked(m, dataset, n.address) {
        return one_alert(Some(CheckAlert::BoundElsewhere));
    }
    sv_time_field(m, svid, n, rate)
}

// 14, 15: what the publishers say of a frame. Where there are none, none is searched for.
fn sv_rule(m: &[u64; WORDS], address: u64, svid: &[u64; 10]) -> Result<u16, CheckAlert>
    ensures { result ≡ sv_rule (monitor_of m.now) address svid.now }
{
    let count = sv_publisher_count_on(m);
    if count == 0 {
        return Ok(0);
    }
    match sv_publisher_on(m, address, svid) {
        Err(PublisherMismatch::WrongAddress) => Err(CheckAlert::WrongIed),
        Err(PublisherMismatch::NotRegistered) => {
            if flag_on(m, STRICT_MODE) {
                return Err(CheckAlert::UnknownSvid);
            }
            Ok(0)
        }
        Ok(i) => Ok(publisher_rate_on(m, i)),
    }
}

// The checks of an SV frame, by the key of its svID and the octets of its data set's name.
pub fn sv_checks_on<'a>(
    m: &mut [u64; WORDS],
    svid: &[u64; 10],
    dataset: Name<'a>,
    n: SvNumbers,
) -> CheckAlerts
    ensures { record { monitor = monitor_of m.new; answer = alerts_of result }
        ≡ sv_binding (monitor_of m.old) (sv_read_by svid.now (stated_name dataset.entry) n) }
{
    match sv_rule(m, n.address, svid) {
        Err(alert) => one_alert(Some(alert)),
        Ok(rate) => sv_reservation(m, svid, dataset, n, rate),
    }
}

// Counts and checks an SV frame.
pub fn check_sv_on(m: &mut [u64; WORDS], frame: SvFrame) -> CheckAlerts
    ensures { record { monitor = monitor_of m.new; answer = alerts_of result } ≡ checked_sv (monitor_of m.old) frame }
{
    let src_mac = frame.src_mac;
    let n = SvNumbers {
        address: address_of(src_mac),
        seconds: frame.t_seconds_since_epoch,
        fraction: frame.t_fraction_of_second,
        smp_cnt: frame.smp_cnt,
        smp_rate: frame.smp_rate,
    };
    count_frame_on(m, SV_TOTAL_INSPECTED);
    sv_checks_on(
        m,
        &plain_key(Name {
            octets: &frame.svid,
            len: frame.svid_len,
        }),
        Name {
            octets: &frame.dataset_ref,
            len: frame.dataset_ref_len,
        },
        n,
    )
}

// Inspects an SV frame.
pub fn inspect_sv_on(m: &mut [u64; WORDS], frame: SvFrame) -> InspectResult
    ensures { record { monitor = monitor_of m.new; answer = result } ≡ inspect_sv (monitor_of m.old) frame }
{
    let alerts = check_sv_on(m, frame);
    report_on(
        m,
        alerts,
        AlertSource {
            source_type: SOURCE_IEC61850_SV,
            source_id: frame.smp_cnt as u32,
            timestamp_us: frame.timestamp_us,
        },
    )
}

// Inspects a raw SV frame. One that cannot be read leaves the monitor, and is not allowed.
pub fn inspect_raw_sv_on(m: &mut [u64; WORDS], bytes: &[u8], timestamp_us: u64) -> RawSv
    ensures { record { monitor = monitor_of m.new; answer = result }
        ≡ inspect_raw_sv (monitor_of m.old) bytes.now timestamp_us }
{
    match parse_sv(bytes, timestamp_us) {
        Ok(frame) => RawSv {
            answer: Ok(()),
            result: inspect_sv_on(m, frame),
        },
        Err(error) => RawSv {
            answer: Err(error),
            result: InspectResult {
                allowed: false,
                ..InspectResult::clean(SOURCE_IEC61850_SV)
            },
        },
    }
}
