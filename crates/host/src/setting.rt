// A new monitor, the set and add calls, reset and the readers by value as C exports.
ghost use Rattle.std.specs.Prelude.{◌≡◌, true, false};
ghost use Rattle.monitor.specs.Monitor.{monitor_of};
ghost use Rattle.monitor.specs.Parts.{mms_added_on, goose_added_on, sv_added_on};
ghost use Rattle.monitor.specs.Reset.{new_monitor, reset_monitor};
ghost use Rattle.monitor.specs.Settings.{set_mms_service_mask, set_mms_read_only, set_block_test_frames, set_sv_max_smp_cnt_gap, set_retx_schedule};
ghost use Rattle.monitor.specs.Settings.{set_time_max_forward_jump, strict_mode};
ghost use Rattle.monitor.specs.Totals.{mms_total_inspected, goose_total_inspected, sv_total_inspected, total_alerts};
ghost use Rattle.inspection.specs.Address.{address_of};
ghost use Rattle.host.specs.Flag.{flag_of, flag_number, answer_error};
ghost use Rattle.host.specs.Result.{answered};

use crate::flag::flag_number;
use crate::result::{HostConfigured, host_configured};
use entries::iec61850_monitor::Iec61850Monitor;
use records::schedule::RetxSchedule;

// A monitor that is not strict.
#[unsafe(no_mangle)]
pub extern "C" fn mokyndu_new() -> Iec61850Monitor
    ensures { monitor_of result.words ≡ new_monitor false }
{
    Iec61850Monitor::new()
}

// A strict monitor.
#[unsafe(no_mangle)]
pub extern "C" fn mokyndu_new_strict() -> Iec61850Monitor
    ensures { monitor_of result.words ≡ new_monitor true }
{
    Iec61850Monitor::new_strict()
}

// As new but for the settings.
#[unsafe(no_mangle)]
pub extern "C" fn mokyndu_reset(monitor: Iec61850Monitor) -> Iec61850Monitor
    ensures { monitor_of result.words ≡ reset_monitor (monitor_of monitor.words) }
{
    monitor.reset()
}

// Bit n of the mask allows the service of raw number n; 0 filters none.
#[unsafe(no_mangle)]
pub extern "C" fn mokyndu_set_mms_service_mask(
    monitor: Iec61850Monitor,
    mask: u16,
) -> Iec61850Monitor
    ensures { monitor_of result.words ≡ set_mms_service_mask (monitor_of monitor.words) mask }
{
    monitor.set_mms_service_mask(mask)
}

// Whether all writes are refused.
#[unsafe(no_mangle)]
pub extern "C" fn mokyndu_set_mms_read_only(
    monitor: Iec61850Monitor,
    read_only: u8,
) -> Iec61850Monitor
    ensures { monitor_of result.words ≡ set_mms_read_only (monitor_of monitor.words) (flag_of read_only) }
{
    monitor.set_mms_read_only(read_only != 0)
}

// Whether GOOSE test frames are refused.
#[unsafe(no_mangle)]
pub extern "C" fn mokyndu_set_block_test_frames(
    monitor: Iec61850Monitor,
    block: u8,
) -> Iec61850Monitor
    ensures { monitor_of result.words ≡ set_block_test_frames (monitor_of monitor.words) (flag_of block) }
{
    monitor.set_block_test_frames(block != 0)
}

// The largest gap of smpCnt that is accepted; 0 accepts any.
#[unsafe(no_mangle)]
pub extern "C" fn mokyndu_set_sv_max_smp_cnt_gap(
    monitor: Iec61850Monitor,
    gap: u16,
) -> Iec61850Monitor
    ensures { monitor_of result.words ≡ set_sv_max_smp_cnt_gap (monitor_of monitor.words) gap }
{
    monitor.set_sv_max_smp_cnt_gap(gap)
}

// The schedule of retransmissions, and whether it is enforced.
#[unsafe(no_mangle)]
pub extern "C" fn mokyndu_set_retx_schedule(
    monitor: Iec61850Monitor,
    schedule: RetxSchedule,
    enforce: u8,
) -> Iec61850Monitor
    ensures { monitor_of result.words ≡ set_retx_schedule (monitor_of monitor.words) schedule (flag_of enforce) }
{
    monitor.set_retx_schedule(schedule, enforce != 0)
}

// How many seconds a clock may go ahead from one frame to the next; 0 for any.
#[unsafe(no_mangle)]
pub extern "C" fn mokyndu_set_time_max_forward_jump_s(
    monitor: Iec61850Monitor,
    seconds: u32,
) -> Iec61850Monitor
    ensures { monitor_of result.words ≡ set_time_max_forward_jump (monitor_of monitor.words) seconds }
{
    monitor.set_time_max_forward_jump_s(seconds)
}

// Adds an MMS rule of a mask, write protection and a rate, 0 for no limit.
#[unsafe(no_mangle)]
pub extern "C" fn mokyndu_add_mms_rule(
    monitor: Iec61850Monitor,
    service_mask: u16,
    read_only: u8,
    max_rate_per_sec: u16,
) -> HostConfigured
    ensures { record { monitor = monitor_of result.monitor.words; answer = result.error }
        ≡ answered answer_error (mms_added_on (monitor_of monitor.words) service_mask (flag_of read_only) max_rate_per_sec) }
{
    let added = monitor.add_mms_rule(service_mask, read_only != 0, max_rate_per_sec);
    host_configured(added)
}

// Adds a GOOSE publisher; an empty name fits any control block of the address.
#[unsafe(no_mangle)]
pub extern "C" fn mokyndu_add_goose_publisher(
    monitor: Iec61850Monitor,
    src_mac: &[u8; 6],
    go_cb_ref: &[u8],
) -> HostConfigured
    ensures { record { monitor = monitor_of result.monitor.words; answer = result.error }
        ≡ answered answer_error (goose_added_on (monitor_of monitor.words) (address_of src_mac.now) go_cb_ref.now) }
{
    let address = *src_mac;
    let added = monitor.add_goose_publisher(address, go_cb_ref);
    host_configured(added)
}

// Binds an svID to an address; a rate of 0 is not compared.
#[unsafe(no_mangle)]
pub extern "C" fn mokyndu_add_sv_publisher(
    monitor: Iec61850Monitor,
    src_mac: &[u8; 6],
    svid: &[u8],
    expected_smp_rate: u16,
) -> HostConfigured
    ensures { record { monitor = monitor_of result.monitor.words; answer = result.error }
        ≡ answered answer_error (sv_added_on (monitor_of monitor.words) (address_of src_mac.now) svid.now expected_smp_rate) }
{
    let address = *src_mac;
    let added = monitor.add_sv_publisher(address, svid, expected_smp_rate);
    host_configured(added)
}

// How many MMS frames were inspected.
#[unsafe(no_mangle)]
pub extern "C" fn mokyndu_mms_total_inspected(monitor: Iec61850Monitor) -> u64
    ensures { result ≡ mms_total_inspected (monitor_of monitor.words) }
{
    monitor.mms_total_inspected()
}

// How many GOOSE frames were inspected.
#[unsafe(no_mangle)]
pub extern "C" fn mokyndu_goose_total_inspected(monitor: Iec61850Monitor) -> u64
    ensures { result ≡ goose_total_inspected (monitor_of monitor.words) }
{
    monitor.goose_total_inspected()
}

// How many SV frames were inspected.
#[unsafe(no_mangle)]
pub extern "C" fn mokyndu_sv_total_inspected(monitor: Iec61850Monitor) -> u64
    ensures { result ≡ sv_total_inspected (monitor_of monitor.words) }
{
    monitor.sv_total_inspected()
}

// How many alerts there were.
#[unsafe(no_mangle)]
pub extern "C" fn mokyndu_total_alerts(monitor: Iec61850Monitor) -> u64
    ensures { result ≡ total_alerts (monitor_of monitor.words) }
{
    monitor.total_alerts()
}

// 1 for a strict monitor.
#[unsafe(no_mangle)]
pub extern "C" fn mokyndu_strict_mode(monitor: Iec61850Monitor) -> u8
    ensures { result ≡ flag_number (strict_mode (monitor_of monitor.words)) }
{
    flag_number(monitor.strict_mode())
}
