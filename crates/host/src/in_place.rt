// Every call in place as a C export: one pointer to a monitor, which is changed where it stands.
ghost use Rattle.std.specs.Prelude.{◌≡◌, true, false};
ghost use Rattle.monitor.specs.Monitor.{monitor_of};
ghost use Rattle.monitor.specs.Parts.{mms_added_on, goose_added_on, sv_added_on};
ghost use Rattle.monitor.specs.Reset.{new_monitor, reset_monitor};
ghost use Rattle.monitor.specs.Settings.{set_mms_service_mask, set_mms_read_only, set_block_test_frames, set_sv_max_smp_cnt_gap, set_retx_schedule};
ghost use Rattle.monitor.specs.Settings.{set_time_max_forward_jump, strict_mode};
ghost use Rattle.monitor.specs.Totals.{mms_total_inspected, goose_total_inspected, sv_total_inspected, total_alerts};
ghost use Rattle.inspection.specs.Address.{address_of};
ghost use Rattle.inspection.specs.InspectGoose.{inspect_goose};
ghost use Rattle.inspection.specs.InspectMms.{inspect_mms};
ghost use Rattle.inspection.specs.InspectSv.{inspect_sv, inspect_raw_sv};
ghost use Rattle.inspection.specs.Report.{with_verdict};
ghost use Rattle.lent.specs.Goose.{goose_frame_of};
ghost use Rattle.lent.specs.Mms.{mms_frame_of};
ghost use Rattle.lent.specs.Sv.{sv_frame_of};
ghost use Rattle.batch.specs.Batch.{sv_batch};
ghost use Rattle.host.specs.Flag.{flag_of, flag_number, answer_error};
ghost use Rattle.host.specs.Result.{raw_verdict, answered};

use crate::flag::{answer_error, flag_number};
use crate::result::{HostRawVerdict, HostVerdict};
use batch::inspect_sv_batch;
use inspection::address::address_of;
use lent::goose::goose_verdict_lent;
use lent::mms::mms_verdict_lent;
use lent::raw::raw_sv_verdict_lent;
use lent::sv::sv_verdict_lent;
use monitor::parts::{WORDS, add_goose_publisher_on, add_mms_rule_on, add_sv_publisher_on};
use monitor::reset::{new_on, reset_on};
use monitor::settings::{
    STRICT_MODE, flag_on, set_block_test_frames_on, set_mms_read_only_on, set_mms_service_mask_on,
    set_retx_schedule_on, set_sv_max_smp_cnt_gap_on, set_time_max_forward_jump_s_on,
};
use monitor::totals::{
    GOOSE_TOTAL_INSPECTED, MMS_TOTAL_INSPECTED, SV_TOTAL_INSPECTED, TOTAL_ALERTS, total_on,
};
use records::schedule::RetxSchedule;

// Makes a monitor that is not strict, whatever stood there.
#[unsafe(no_mangle)]
pub extern "C" fn mokyndu_new_in_place(m: &mut [u64; WORDS])
    ensures { monitor_of m.new ≡ new_monitor false }
{
    new_on(m, false);
}

// Makes a strict monitor, whatever stood there.
#[unsafe(no_mangle)]
pub extern "C" fn mokyndu_new_strict_in_place(m: &mut [u64; WORDS])
    ensures { monitor_of m.new ≡ new_monitor true }
{
    new_on(m, true);
}

// As new but for the settings.
#[unsafe(no_mangle)]
pub extern "C" fn mokyndu_reset_in_place(m: &mut [u64; WORDS])
    ensures { monitor_of m.new ≡ reset_monitor (monitor_of m.old) }
{
    reset_on(m);
}

// Bit n of the mask allows the service of raw number n; 0 filters none.
#[unsafe(no_mangle)]
pub extern "C" fn mokyndu_set_mms_service_mask_in_place(m: &mut [u64; WORDS], mask: u16)
    ensures { monitor_of m.new ≡ set_mms_service_mask (monitor_of m.old) mask }
{
    set_mms_service_mask_on(m, mask);
}

// Whether all writes are refused.
#[unsafe(no_mangle)]
pub extern "C" fn mokyndu_set_mms_read_only_in_place(m: &mut [u64; WORDS], read_only: u8)
    ensures { monitor_of m.new ≡ set_mms_read_only (monitor_of m.old) (flag_of read_only) }
{
    set_mms_read_only_on(m, read_only != 0);
}

// Whether GOOSE test frames are refused.
#[unsafe(no_mangle)]
pub extern "C" fn mokyndu_set_block_test_frames_in_place(m: &mut [u64; WORDS], block: u8)
    ensures { monitor_of m.new ≡ set_block_test_frames (monitor_of m.old) (flag_of block) }
{
    set_block_test_frames_on(m, block != 0);
}

// The largest gap of smpCnt that is accepted; 0 accepts any.
#[unsafe(no_mangle)]
pub extern "C" fn mokyndu_set_sv_max_smp_cnt_gap_in_place(m: &mut [u64; WORDS], gap: u16)
    ensures { monitor_of m.new ≡ set_sv_max_smp_cnt_gap (monitor_of m.old) gap }
{
    set_sv_max_smp_cnt_gap_on(m, gap);
}

// The schedule of retransmissions, and whether it is enforced.
#[unsafe(no_mangle)]
pub extern "C" fn mokyndu_set_retx_schedule_in_place(
    m: &mut [u64; WORDS],
    schedule: RetxSchedule,
    enforce: u8,
)
    ensures { monitor_of m.new ≡ set_retx_schedule (monitor_of m.old) schedule (flag_of enforce) }
{
    set_retx_schedule_on(m, schedule, enforce != 0);
}

// How many seconds a clock may go ahead from one frame to the next; 0 for any.
#[unsafe(no_mangle)]
pub extern "C" fn mokyndu_set_time_max_forward_jump_s_in_place(m: &mut [u64; WORDS], seconds: u32)
    ensures { monitor_of m.new ≡ set_time_max_forward_jump (monitor_of m.old) seconds }
{
    set_time_max_forward_jump_s_on(m, seconds);
}

// Adds an MMS rule of a mask, write protection and a rate, 0 for no limit.
#[unsafe(no_mangle)]
pub extern "C" fn mokyndu_add_mms_rule_in_place(
    m: &mut [u64; WORDS],
    service_mask: u16,
    read_only: u8,
    max_rate_per_sec: u16,
) -> u8
    ensures { record { monitor = monitor_of m.new; answer = result }
        ≡ answered answer_error (mms_added_on (monitor_of m.old) service_mask (flag_of read_only) max_rate_per_sec) }
{
    let answer = add_mms_rule_on(m, service_mask, read_only != 0, max_rate_per_sec);
    answer_error(answer)
}

// Adds a GOOSE publisher; an empty name fits any control block of the address.
#[unsafe(no_mangle)]
pub extern "C" fn mokyndu_add_goose_publisher_in_place(
    m: &mut [u64; WORDS],
    src_mac: &[u8; 6],
    go_cb_ref: &[u8],
) -> u8
    ensures { record { monitor = monitor_of m.new; answer = result }
        ≡ answered answer_error
        (goose_added_on (monitor_of m.old) (address_of src_mac.now) go_cb_ref.now) }
{
    let address = *src_mac;
    let answer = add_goose_publisher_on(m, address_of(address), go_cb_ref);
    answer_error(answer)
}

// Binds an svID to an address; a rate of 0 is not compared.
#[unsafe(no_mangle)]
pub extern "C" fn mokyndu_add_sv_publisher_in_place(
    m: &mut [u64; WORDS],
    src_mac: &[u8; 6],
    svid: &[u8],
    expected_smp_rate: u16,
) -> u8
    ensures { record { monitor = monitor_of m.new; answer = result }
        ≡ answered answer_error
        (sv_added_on (monitor_of m.old) (address_of src_mac.now) svid.now expected_smp_rate) }
{
    let address = *src_mac;
    let answer = add_sv_publisher_on(m, address_of(address), svid, expected_smp_rate);
    answer_error(answer)
}

// Inspects an MMS frame, lent as the octets of its struct.
#[unsafe(no_mangle)]
pub extern "C" fn mokyndu_mms_in_place(m: &mut [u64; WORDS], frame: &[u8; 88]) -> HostVerdict
    ensures { record { monitor = monitor_of m.new; answer = result.octets }
        ≡ with_verdict (inspect_mms (monitor_of m.old) (mms_frame_of frame.now)) }
{
    let verdict = mms_verdict_lent(m, frame);
    HostVerdict { octets: verdict }
}

// Inspects a GOOSE frame.
#[unsafe(no_mangle)]
pub extern "C" fn mokyndu_goose_in_place(m: &mut [u64; WORDS], frame: &[u8; 104]) -> HostVerdict
    ensures { record { monitor = monitor_of m.new; answer = result.octets }
        ≡ with_verdict (inspect_goose (monitor_of m.old) (goose_frame_of frame.now)) }
{
    let verdict = goose_verdict_lent(m, frame);
    HostVerdict { octets: verdict }
}

// Inspects an SV frame.
#[unsafe(no_mangle)]
pub extern "C" fn mokyndu_sv_in_place(m: &mut [u64; WORDS], frame: &[u8; 160]) -> HostVerdict
    ensures { record { monitor = monitor_of m.new; answer = result.octets }
        ≡ with_verdict (inspect_sv (monitor_of m.old) (sv_frame_of frame.now)) }
{
    let verdict = sv_verdict_lent(m, frame);
    HostVerdict { octets: verdict }
}

// Inspects a raw SV frame: the verdict, and the error's number. One that cannot be read leaves the monitor, and is not allowed.
#[unsafe(no_mangle)]
pub extern "C" fn mokyndu_raw_sv_in_place(
    m: &mut [u64; WORDS],
    octets: &[u8],
    timestamp_us: u64,
) -> HostRawVerdict
    ensures { record { monitor = monitor_of m.new; answer = (result.verdict.octets, result.error) }
        ≡ answered raw_verdict (inspect_raw_sv (monitor_of m.old) octets.now timestamp_us) }
{
    let raw = raw_sv_verdict_lent(m, octets);
    let answer = raw.answer;
    let verdict = raw.verdict;
    HostRawVerdict {
        verdict: HostVerdict { octets: verdict },
        error: answer_error(answer),
    }
}

// Inspects many SV frames, writes a verdict for each, and answers how many there were: the frames as records of 160 octets, which is their C
// layout, and the verdicts as 8 octets each. Whole records are inspected, as long as there is room for their verdicts.
#[unsafe(no_mangle)]
pub extern "C" fn mokyndu_sv_batch_in_place(
    m: &mut [u64; WORDS],
    frames: &[u8],
    verdicts: &mut [u8],
) -> u64
    ensures { record { monitor = monitor_of m.new; verdicts = verdicts.new; count = result }
        ≡ sv_batch (monitor_of m.old) frames.now verdicts.old }
{
    inspect_sv_batch(m, frames, verdicts) as u64
}

// How many MMS frames were inspected.
#[unsafe(no_mangle)]
pub extern "C" fn mokyndu_mms_total_inspected_in_place(m: &[u64; WORDS]) -> u64
    ensures { result ≡ mms_total_inspected (monitor_of m.now) }
{
    total_on(m, MMS_TOTAL_INSPECTED)
}

// How many GOOSE frames were inspected.
#[unsafe(no_mangle)]
pub extern "C" fn mokyndu_goose_total_inspected_in_place(m: &[u64; WORDS]) -> u64
    ensures { result ≡ goose_total_inspected (monitor_of m.now) }
{
    total_on(m, GOOSE_TOTAL_INSPECTED)
}

// How many SV frames were inspected.
#[unsafe(no_mangle)]
pub extern "C" fn mokyndu_sv_total_inspected_in_place(m: &[u64; WORDS]) -> u64
    ensures { result ≡ sv_total_inspected (monitor_of m.now) }
{
    total_on(m, SV_TOTAL_INSPECTED)
}

// How many alerts there were.
#[unsafe(no_mangle)]
pub extern "C" fn mokyndu_total_alerts_in_place(m: &[u64; WORDS]) -> u64
    ensures { result ≡ total_alerts (monitor_of m.now) }
{
    total_on(m, TOTAL_ALERTS)
}

// 1 for a strict monitor.
#[unsafe(no_mangle)]
pub extern "C" fn mokyndu_strict_mode_in_place(m: &[u64; WORDS]) -> u8
    ensures { result ≡ flag_number (strict_mode (monitor_of m.now)) }
{
    flag_number(flag_on(m, STRICT_MODE))
}
