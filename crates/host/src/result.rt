// Answers as structs of numbers: alerts, results, verdicts, and the monitor beside them.
ghost use Rattle.std.specs.Prelude.{◌≡◌};
ghost use Rattle.records.specs.Result.{clean_result};
ghost use Rattle.monitor.specs.Monitor.{monitor_of};
ghost use Rattle.inspection.specs.Report.{alerts_of, ended, reported};
ghost use Rattle.host.specs.Flag.{answer_error};
ghost use Rattle.host.specs.Result.{host_alert, host_result, answered};

use crate::flag::answer_error;
use entries::iec61850_monitor::{Answered, Iec61850Monitor};
use inspection::report::{AlertSource, CheckAlerts, none_found, report_on};
use monitor::parts::WORDS;
use records::alert::CodedAlert;
use records::error::VsError;
use records::frame::SvFrame;
use records::result::InspectResult;

// An alert, with its severity, 0 to 4, and its code, 0 to 42, by number.
#[repr(C)]
#[derive(Clone, Copy)]
pub struct HostAlert {
    pub id: u64,
    pub timestamp_us: u64,
    pub payload_hash: [u8; 32],
    pub source_id: u32,
    pub severity: u8,
    pub source_type: u8,
    pub code: u8,
}

// A result, with its flags as numbers, 1 for true.
#[repr(C)]
#[derive(Clone, Copy)]
pub struct HostResult {
    pub allowed: u8,
    pub alert_count: u8,
    pub source_type: u8,
    pub alerts_truncated: u8,
    pub alerts: [HostAlert; 4],
}

// The monitor after an add call, and the error's number, 255 where the rule was added.
#[repr(C)]
#[derive(Clone, Copy)]
pub struct HostConfigured {
    pub monitor: Iec61850Monitor,
    pub error: u8,
}

// The monitor after an inspection, and the result.
#[repr(C)]
#[derive(Clone, Copy)]
pub struct HostInspected {
    pub monitor: Iec61850Monitor,
    pub result: HostResult,
}

// The monitor after a raw SV frame, the result, and the error's number, 255 where the frame was read.
#[repr(C)]
#[derive(Clone, Copy)]
pub struct HostRawInspected {
    pub monitor: Iec61850Monitor,
    pub result: HostResult,
    pub error: u8,
}

// A verdict as eight octets: allowed, the number of alerts, and the code and the severity of each of up to three.
#[repr(C)]
#[derive(Clone, Copy)]
pub struct HostVerdict {
    pub octets: [u8; 8],
}

// The verdict on a raw SV frame, and the error's number, 255 where the frame was read.
#[repr(C)]
#[derive(Clone, Copy)]
pub struct HostRawVerdict {
    pub verdict: HostVerdict,
    pub error: u8,
}

// The frame read from octets, and the error's number, 255 where it was read.
#[repr(C)]
#[derive(Clone, Copy)]
pub struct HostParsed {
    pub frame: SvFrame,
    pub error: u8,
}

// An alert in numbers.
impl From<CodedAlert> for HostAlert {
    ghost from_gives = { λ a r. r ≡ host_alert a };

    fn from(a: CodedAlert) -> HostAlert {
        let alert = a.alert;
        let payload_hash = alert.payload_hash;
        HostAlert {
            id: alert.id,
            timestamp_us: alert.timestamp_us,
            payload_hash,
            source_id: alert.source_id,
            severity: alert.severity.number(),
            source_type: alert.source_type,
            code: a.code.code(),
        }
    }
}

// A result in numbers.
impl From<InspectResult> for HostResult {
    ghost from_gives = { λ found r. r ≡ host_result found };

    fn from(found: InspectResult) -> HostResult {
        let alerts = found.alerts.map(HostAlert::from);
        HostResult {
            allowed: u8::from(found.allowed),
            alert_count: found.alert_count,
            source_type: found.source_type,
            alerts_truncated: u8::from(found.alerts_truncated),
            alerts,
        }
    }
}

// A result without alerts, in numbers.
fn clean_result(source_type: u8) -> HostResult
    ensures { result ≡ host_result (clean_result source_type) }
{
    let none = HostAlert {
        id: 0,
        timestamp_us: 0,
        payload_hash: [0; 32],
        source_id: 0,
        severity: 0,
        source_type,
        code: 0,
    };
    HostResult {
        allowed: 1,
        alert_count: 0,
        source_type,
        alerts_truncated: 0,
        alerts: [none; 4],
    }
}

// The result in numbers that reports what the checks found, in a monitor. Most frames have no alert: their result is made in numbers at once.
pub fn host_report(m: &mut [u64; WORDS], alerts: CheckAlerts, source: AlertSource) -> HostResult
    ensures { record { monitor = monitor_of m.new; answer = result }
        ≡ answered host_result
        (reported source.source_type source.source_id source.timestamp_us (ended (monitor_of m.old) (alerts_of alerts))) }
{
    if none_found(alerts) {
        return clean_result(source.source_type);
    }
    let found = report_on(m, alerts, source);
    HostResult::from(found)
}

// The answer of an add call in numbers.
pub fn host_configured(c: Answered<Result<(), VsError>>) -> HostConfigured
    ensures { record { monitor = monitor_of result.monitor.words; answer = result.error }
        ≡ answered answer_error (record { monitor = monitor_of c.monitor.words; answer = c.answer }) }
{
    HostConfigured {
        monitor: c.monitor,
        error: answer_error(c.answer),
    }
}
