// The inspections by value as C exports: a frame of numbers, or the octets of an SV frame, and the result in numbers. Each inspects on the monitor that
// it was handed, and gives it back changed.
ghost use Rattle.std.specs.Prelude.{◌≡◌};
ghost use Rattle.sv_frame.specs.Sv.{sv_frame};
ghost use Rattle.monitor.specs.Monitor.{monitor_of};
ghost use Rattle.inspection.specs.InspectMms.{inspect_mms};
ghost use Rattle.inspection.specs.InspectGoose.{inspect_goose};
ghost use Rattle.inspection.specs.InspectSv.{inspect_sv, inspect_raw_sv};
ghost use Rattle.host.specs.Frame.{mms_frame_of, goose_frame_of};
ghost use Rattle.host.specs.Result.{host_result, raw_result, host_parsed, answered};

use crate::flag::{NO_ERROR, answer_error};
use crate::frame::{HostGooseFrame, HostMmsFrame};
use crate::result::{HostInspected, HostParsed, HostRawInspected, HostResult, host_report};
use entries::iec61850_monitor::Iec61850Monitor;
use inspection::inspect_goose::inspect_goose_on;
use inspection::inspect_mms::inspect_mms_on;
use inspection::inspect_sv::{check_sv_on, inspect_raw_sv_on};
use inspection::report::AlertSource;
use records::alert::SOURCE_IEC61850_SV;
use records::frame::{GooseFrame, MmsFrame, SvFrame};
use sv_frame::sv::parse_sv;

// The monitor after an MMS frame, and the result.
#[unsafe(no_mangle)]
pub extern "C" fn mokyndu_inspect_mms(
    mut monitor: Iec61850Monitor,
    frame: HostMmsFrame,
) -> HostInspected
    ensures { record { monitor = monitor_of result.monitor.words; answer = result.result }
        ≡ answered host_result (inspect_mms (monitor_of monitor.words) (mms_frame_of frame)) }
{
    let result = inspect_mms_on(&mut monitor.words, MmsFrame::from(frame));
    HostInspected {
        monitor,
        result: HostResult::from(result),
    }
}

// The monitor after a GOOSE frame, and the result.
#[unsafe(no_mangle)]
pub extern "C" fn mokyndu_inspect_goose(
    mut monitor: Iec61850Monitor,
    frame: HostGooseFrame,
) -> HostInspected
    ensures { record { monitor = monitor_of result.monitor.words; answer = result.result }
        ≡ answered host_result (inspect_goose (monitor_of monitor.words) (goose_frame_of frame)) }
{
    let result = inspect_goose_on(&mut monitor.words, GooseFrame::from(frame));
    HostInspected {
        monitor,
        result: HostResult::from(result),
    }
}

// The monitor after an SV frame, and the result.
#[unsafe(no_mangle)]
pub extern "C" fn mokyndu_inspect_sv(mut monitor: Iec61850Monitor, frame: SvFrame) -> HostInspected
    ensures { record { monitor = monitor_of result.monitor.words; answer = result.result }
        ≡ answered host_result (inspect_sv (monitor_of monitor.words) frame) }
{
    let alerts = check_sv_on(&mut monitor.words, frame);
    let result = host_report(
        &mut monitor.words,
        alerts,
        AlertSource {
            source_type: SOURCE_IEC61850_SV,
            source_id: frame.smp_cnt as u32,
            timestamp_us: frame.timestamp_us,
        },
    );
    HostInspected { monitor, result }
}

// The monitor after the octets of an SV frame, and the result; octets that cannot be read leave the monitor, and are not allowed.
#[unsafe(no_mangle)]
pub extern "C" fn mokyndu_inspect_raw_sv(
    mut monitor: Iec61850Monitor,
    octets: &[u8],
    timestamp_us: u64,
) -> HostRawInspected
    ensures { record { monitor = monitor_of result.monitor.words; answer = (result.result, result.error) }
        ≡ answered raw_result (inspect_raw_sv (monitor_of monitor.words) octets.now timestamp_us) }
{
    let raw = inspect_raw_sv_on(&mut monitor.words, octets, timestamp_us);
    let answer = raw.answer;
    let result = raw.result;
    HostRawInspected {
        monitor,
        result: HostResult::from(result),
        error: answer_error(answer),
    }
}

// The frame in the octets of an SV frame on the wire, and the error's number, 255 where it was read; the default frame beside an error.
#[unsafe(no_mangle)]
pub extern "C" fn mokyndu_parse_sv(octets: &[u8], timestamp_us: u64) -> HostParsed
    ensures { result ≡ host_parsed (sv_frame octets.now timestamp_us) }
{
    match parse_sv(octets, timestamp_us) {
        Ok(frame) => HostParsed {
            frame,
            error: NO_ERROR,
        },
        Err(error) => HostParsed {
            frame: SvFrame::default(),
            error: error.number(),
        },
    }
}
