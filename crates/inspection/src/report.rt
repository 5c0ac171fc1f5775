// What the checks of an inspection found, and the result that reports it, carried over from
// industrial/iec61850-monitor/src/lib.rs of craton-shield a31d888527 (Apache-2.0) and changed: alerts are added once, at the end.
ghost use Rattle.std.specs.Prelude.{ℕ, ◌≡◌};
ghost use mathlib.Core.List.{foldl};
ghost use Rattle.monitor.specs.Monitor.{monitor_of};
ghost use Rattle.inspection.specs.Report.{refusal, notice, finding_of, findings_in, alerts_of, clock_findings, reported_next, alerts_pushed, ended};
ghost use Rattle.inspection.specs.Report.{reported, none_found, clean_verdict, allowed_octet, alert_noted, with_verdict};

use monitor::parts::WORDS;
use monitor::totals::{alert_counters_on, set_alert_counters_on};
use records::alert::{AlertCode, AlertSeverity};
use records::counter::{saturating_increment, wrapping_increment};
use records::result::{AlertCounters, InspectResult, Pushed};

// An alert that a check gives.
#[derive(Clone, Copy, PartialEq, Eq)]
pub enum CheckAlert {
    ServiceMasked,
    WriteRefused,
    OverRate,
    NoRule,
    ReservationsFull,
    TestBlocked,
    UnknownPublisher,
    BoundElsewhere,
    ClockAlert,
    GooseReplay,
    Retransmission,
    WrongIed,
    UnknownSvid,
    CountReplay,
    CountGap,
    SuspiciousCount,
    RateMismatch,
}

// What the checks of an inspection found, in their order: no inspection has more than three alerts.
pub type CheckAlerts = [Option<CheckAlert>; 3];

// An alert as it is reported, and whether it refuses the frame.
#[derive(Clone, Copy)]
pub struct Finding {
    pub severity: AlertSeverity,
    pub code: AlertCode,
    pub refuses: bool,
}

// The frame that a result is about: the protocol, the invoke id, stNum or smpCnt, and the time.
#[derive(Clone, Copy)]
pub struct AlertSource {
    pub source_type: u8,
    pub source_id: u32,
    pub timestamp_us: u64,
}

// What one check found, as what all checks of the frame found.
pub fn one_alert(alert: Option<CheckAlert>) -> CheckAlerts
    ensures { alerts_of result ≡ findings_in alert }
{
    [alert, None, None]
}

// A clock alert refuses, and checking goes on.
pub fn clock_alert(alert: bool) -> Option<CheckAlert>
    ensures { findings_in result ≡ clock_findings alert }
{
    if alert {
        Some(CheckAlert::ClockAlert)
    } else {
        None
    }
}

// An alert that refuses the frame.
fn refusal(severity: AlertSeverity, code: AlertCode) -> Finding
    ensures { result ≡ refusal severity code }
{
    Finding {
        severity,
        code,
        refuses: true,
    }
}

// An alert that alone does not.
fn notice(severity: AlertSeverity, code: AlertCode) -> Finding
    ensures { result ≡ notice severity code }
{
    Finding {
        severity,
        code,
        refuses: false,
    }
}

impl CheckAlert {
    // How it is reported.
    fn finding(self) -> Finding
        ensures { result ≡ finding_of self }
    {
        match self {
            CheckAlert::ServiceMasked => {
                refusal(AlertSeverity::Medium, AlertCode::UnknownFunctionCode)
            }
            CheckAlert::WriteRefused => refusal(AlertSeverity::High, AlertCode::WriteProtection),
            CheckAlert::OverRate => refusal(AlertSeverity::Medium, AlertCode::RateExceeded),
            CheckAlert::NoRule => refusal(AlertSeverity::Medium, AlertCode::NoMatchingRule),
            CheckAlert::ReservationsFull => {
                notice(AlertSeverity::Low, AlertCode::ResourceExhausted)
            }
            CheckAlert::TestBlocked => refusal(AlertSeverity::Medium, AlertCode::PolicyViolation),
            CheckAlert::UnknownPublisher => {
                refusal(AlertSeverity::High, AlertCode::PolicyViolation)
            }
            CheckAlert::BoundElsewhere => refusal(AlertSeverity::High, AlertCode::CbHijack),
            CheckAlert::ClockAlert => refusal(AlertSeverity::High, AlertCode::TimeSyncSpoofing),
            CheckAlert::GooseReplay => refusal(AlertSeverity::High, AlertCode::ReplayDetected),
            CheckAlert::Retransmission => {
                notice(AlertSeverity::Medium, AlertCode::RetransmissionAnomaly)
            }
            CheckAlert::WrongIed => refusal(AlertSeverity::High, AlertCode::IedMismatch),
            CheckAlert::UnknownSvid => refusal(AlertSeverity::Medium, AlertCode::PolicyViolation),
            CheckAlert::CountReplay => refusal(AlertSeverity::High, AlertCode::SvReplay),
            CheckAlert::CountGap => refusal(AlertSeverity::Medium, AlertCode::SvRateAnomaly),
            CheckAlert::SuspiciousCount => {
                notice(AlertSeverity::Medium, AlertCode::SvRateAnomaly)
            }
            CheckAlert::RateMismatch => refusal(AlertSeverity::Medium, AlertCode::SvRateAnomaly),
        }
    }
}

// A result and the counters with one more alert.
fn push_alert(p: Pushed, alert: CheckAlert, source: AlertSource) -> Pushed
    ensures { result
        ≡ reported_next source.source_type source.source_id source.timestamp_us p (finding_of alert) }
{
    let found = alert.finding();
    let mut out = p.result;
    out.allowed = out.allowed && !found.refuses;
    out.push_alert_with_code(
        p.counters,
        found.severity,
        source.source_type,
        source.source_id,
        source.timestamp_us,
        found.code,
    )
}

// Whether the checks found nothing.
pub fn none_found(alerts: CheckAlerts) -> bool
    ensures { result ≡ none_found alerts }
{
    alerts[0].is_none() && alerts[1].is_none() && alerts[2].is_none()
}

// The result that reports what the checks found, and the counters after its alerts.
fn push_alerts(counters: AlertCounters, alerts: CheckAlerts, source: AlertSource) -> Pushed
    ensures { result
        ≡ alerts_pushed source.source_type source.source_id source.timestamp_us counters (alerts_of alerts) }
{
    let mut out = Pushed {
        result: InspectResult::clean(source.source_type),
        counters,
    };
    for found in alerts {
        if let Some(alert) = found {
            out = push_alert(out, alert, source);
        }
    }
    out
}

// The result that reports what the checks found, in a monitor. Most frames have no alert: the counters are left, and a clean result is answered at once.
pub fn report_on(m: &mut [u64; WORDS], alerts: CheckAlerts, source: AlertSource) -> InspectResult
    ensures { record { monitor = monitor_of m.new; answer = result }
        ≡ reported source.source_type source.source_id source.timestamp_us (ended (monitor_of m.old) (alerts_of alerts)) }
{
    if none_found(alerts) {
        return InspectResult::clean(source.source_type);
    }
    let counters = alert_counters_on(m);
    let pushed = push_alerts(counters, alerts, source);
    set_alert_counters_on(m, pushed.counters);
    pushed.result
}

// The verdict on a frame without alerts.
pub const CLEAN_VERDICT: [u8; 8] = [1, 0, 0, 0, 0, 0, 0, 0];

// The verdict on a frame, and the counters after its alerts.
#[derive(Clone, Copy)]
pub struct Noted {
    pub verdict: [u8; 8],
    pub counters: AlertCounters,
}

// The octet that says whether a frame is allowed, after an alert.
fn allowed_octet(octet: u8, found: Finding) -> u8
    ensures { result ≡ allowed_octet octet found.severity found.refuses }
{
    if found.refuses || found.severity.denies() {
        0
    } else {
        octet
    }
}

impl Noted {
    // Notes one more alert in the next of the verdict's three places, and counts it. A verdict with three alerts is left: no inspection has a
    // fourth.
    fn note_alert(&mut self, alert: CheckAlert)
        ensures { self.new ≡ alert_noted self.old (finding_of alert) }
    {
        let alert_count = self.verdict[1];
        let count = alert_count as usize;
        if count >= 3 {
            return;
        }
        let found = alert.finding();
        let at = 2 + 2 * count;
        self.verdict[0] = allowed_octet(self.verdict[0], found);
        self.verdict[1] = alert_count + 1;
        self.verdict[at] = found.code.code();
        self.verdict[at + 1] = found.severity.number();
        self.counters.next_alert_id = wrapping_increment(self.counters.next_alert_id);
        self.counters.total_alerts = saturating_increment(self.counters.total_alerts);
    }
}

// The verdict that reports what the checks found, and the counters after it.
fn verdict_of(counters: AlertCounters, alerts: CheckAlerts) -> Noted
    ensures { result ≡ foldl alert_noted (record { verdict = clean_verdict; counters = counters }) (alerts_of alerts) }
{
    let mut out = Noted {
        verdict: CLEAN_VERDICT,
        counters,
    };
    for found in alerts {
        if let Some(alert) = found {
            out.note_alert(alert);
        }
    }
    out
}

// The verdict that reports what the checks found, in a monitor. No result is made.
pub fn noted_on(m: &mut [u64; WORDS], alerts: CheckAlerts) -> [u8; 8]
    ensures { (source source_number time : ℕ) → record { monitor = monitor_of m.new; answer = result }
        ≡ with_verdict (reported source source_number time (ended (monitor_of m.old) (alerts_of alerts))) }
{
    let counters = alert_counters_on(m);
    let noted = verdict_of(counters, alerts);
    set_alert_counters_on(m, noted.counters);
    noted.verdict
}

// The same. Most frames have no alert and get a constant; the other verdict is bound first, so that the constant is not built in its place.
pub fn verdict_on(m: &mut [u64; WORDS], alerts: CheckAlerts) -> [u8; 8]
    ensures { (source source_number time : ℕ) → record { monitor = monitor_of m.new; answer = result }
        ≡ with_verdict (reported source source_number time (ended (monitor_of m.old) (alerts_of alerts))) }
{
    if none_found(alerts) {
        return CLEAN_VERDICT;
    }
    let verdict = noted_on(m, alerts);
    verdict
}
