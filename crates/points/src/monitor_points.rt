// The monitor on reference points of document 01: counts of a stream, raw frames, GOOSE and MMS. A line has the verdict on a
// frame, and the codes of its alerts in order.
use crate::frame_points::good_frame;
use crate::{write_decimal, write_number, write_text};
use checks::sv_seq::SvSeqOutcome;
use entries::iec61850_monitor::Iec61850Monitor;
use entries::sv_seq::{SvChecked, SvSeqTable, check_sv_seq};
use records::alert::CodedAlert;
use records::frame::{GooseFrame, MmsFrame, SvFrame};
use records::name::padded_octets;
use records::result::InspectResult;
use records::service::MmsServiceType;
use std::io::Stdout;

// A label and a number, within a line.
pub fn write_part(stdout: Stdout, label: &[u8], n: u64) {
    write_text(stdout, label);
    write_decimal(stdout, n);
}

// The code of an alert.
fn write_code(stdout: Stdout, alert: CodedAlert) {
    write_part(stdout, b" ", u64::from(alert.code.code()));
}

// The codes of the alerts, in order.
fn write_codes(stdout: Stdout, res: InspectResult) {
    for alert in res.alerts.iter().take(res.alert_count as usize) {
        write_code(stdout, *alert);
    }
}

// The verdict, which ends a line.
pub fn write_verdict(stdout: Stdout, res: InspectResult) {
    if res.allowed {
        write_text(stdout, b": allowed");
    } else {
        write_text(stdout, b": refused");
    }
    write_codes(stdout, res);
    write_text(stdout, b"\n");
}

// A frame of the stream M1.
pub fn sv_frame(count: u16) -> SvFrame {
    SvFrame {
        svid: padded_octets(b"M1"),
        svid_len: 2,
        smp_cnt: count,
        ..SvFrame::default()
    }
}

// The monitor after a count of the stream.
fn inspect_count(stdout: Stdout, m: Iec61850Monitor, label: &[u8], count: u16) -> Iec61850Monitor {
    let inspected = m.inspect_sv(sv_frame(count));
    write_part(stdout, label, u64::from(count));
    write_verdict(stdout, inspected.answer);
    inspected.monitor
}

// The streams after a count of the stream, and its outcome.
fn check_count(table: SvSeqTable, count: u16) -> SvChecked {
    let f = sv_frame(count);
    check_sv_seq(table, f.svid, f.svid_len, f.smp_cnt)
}

fn gap_of(outcome: SvSeqOutcome) -> u16 {
    match outcome {
        SvSeqOutcome::ForwardGap(gap) | SvSeqOutcome::SuspiciousSmpGap(gap) => gap,
        _ => 0,
    }
}

// The outcome of a count after another, on a line, unless it is the one of this number and gap.
fn expect_outcome(stdout: Stdout, first: u16, second: u16, number: u8, gap: u16) {
    let once = check_count(SvSeqTable::new(), first);
    let outcome = check_count(once.table, second).outcome;
    if outcome.number() == number && gap_of(outcome) == gap {
        return;
    }
    write_part(stdout, b"outcome ", u64::from(outcome.number()));
    write_number(stdout, b" gap ", u64::from(gap_of(outcome)));
}

// One count and then another, whose outcome has this number and gap, on a new monitor.
fn write_counts(stdout: Stdout, first: u16, second: u16, number: u8, gap: u16) {
    let m = inspect_count(stdout, Iec61850Monitor::new(), b"count ", first);
    inspect_count(stdout, m, b"then ", second);
    expect_outcome(stdout, first, second, number, gap);
}

// The rows of `count_points` (crate inspection, specs/Points.antt): replay is 1, wrap 3, suspicious 4.
fn count_points(stdout: Stdout) {
    write_counts(stdout, 40_000, 7234, 1, 0);
    write_counts(stdout, 40_000, 7233, 4, 32_769);
    write_counts(stdout, 65_535, 255, 3, 0);
    write_counts(stdout, 65_535, 256, 4, 257);
}

// The monitor after a raw frame.
fn inspect_raw(
    stdout: Stdout,
    m: Iec61850Monitor,
    label: &[u8],
    octets: &[u8; 39],
) -> Iec61850Monitor {
    let inspected = m.inspect_raw_sv(octets, 7);
    write_text(stdout, label);
    let raw = inspected.answer;
    let answer = raw.answer;
    let result = raw.result;
    match answer {
        Ok(()) => write_verdict(stdout, result),
        Err(e) => write_number(stdout, b": error ", u64::from(e.number())),
    }
    inspected.monitor
}

fn write_totals(stdout: Stdout, m: Iec61850Monitor) {
    write_number(stdout, b"SV frames inspected: ", m.sv_total_inspected());
    write_number(stdout, b"alerts: ", m.total_alerts());
}

// Document 01's frame twice, and then with a length that it does not have, which is no inspection.
fn raw_points(stdout: Stdout) {
    let good = good_frame();
    let once = inspect_raw(stdout, Iec61850Monitor::new(), b"raw frame", &good);
    let twice = inspect_raw(stdout, once, b"raw frame again", &good);
    write_totals(stdout, twice);
    let mut long = good;
    long[17] = 0x1a;
    let after = inspect_raw(stdout, twice, b"raw frame, header length 1A", &long);
    write_totals(stdout, after);
}

// A frame of the control block g.
pub fn goose_frame(st_num: u32, sq_num: u32, seconds: u32) -> GooseFrame {
    GooseFrame {
        go_cb_ref: padded_octets(b"g"),
        go_cb_ref_len: 1,
        st_num,
        sq_num,
        t_seconds_since_epoch: seconds,
        ..GooseFrame::default()
    }
}

// The monitor after a frame of the control block.
fn inspect_state(
    stdout: Stdout,
    m: Iec61850Monitor,
    st_num: u32,
    sq_num: u32,
    seconds: u32,
) -> Iec61850Monitor {
    let inspected = m.inspect_goose(goose_frame(st_num, sq_num, seconds));
    write_part(stdout, b"stNum ", u64::from(st_num));
    write_part(stdout, b" sqNum ", u64::from(sq_num));
    write_part(stdout, b" clock ", u64::from(seconds));
    write_verdict(stdout, inspected.answer);
    inspected.monitor
}

// A frame, its replay, and a clock that goes back, the last time on a replay too. A clock of 0 is absent.
fn state_points(stdout: Stdout) {
    let first = inspect_state(stdout, Iec61850Monitor::new(), 1, 0, 0);
    let again = inspect_state(stdout, first, 1, 0, 0);
    let set = inspect_state(stdout, again, 1, 1, 5);
    let back = inspect_state(stdout, set, 1, 2, 4);
    inspect_state(stdout, back, 1, 2, 3);
}

// A request of a raw number about a name of one octet.
fn mms_frame(raw: u8, name: u8) -> MmsFrame {
    MmsFrame {
        service_type: MmsServiceType::from_u8(raw),
        raw_service_type: raw,
        domain: padded_octets(&[name]),
        domain_len: 1,
        ..MmsFrame::default()
    }
}

// The monitor after a write.
fn inspect_write(stdout: Stdout, m: Iec61850Monitor, label: &[u8]) -> Iec61850Monitor {
    let inspected = m.inspect_mms(mms_frame(2, 1));
    write_text(stdout, label);
    write_verdict(stdout, inspected.answer);
    inspected.monitor
}

// A write, before and in read-only mode.
fn write_points(stdout: Stdout) {
    let m = inspect_write(stdout, Iec61850Monitor::new(), b"write");
    let read_only = m.set_mms_read_only(true);
    inspect_write(stdout, read_only, b"write in read-only mode");
}

// The monitor after SelectControl of a name.
fn inspect_select(stdout: Stdout, m: Iec61850Monitor, name: u8) -> Iec61850Monitor {
    let inspected = m.inspect_mms(mms_frame(11, name));
    write_part(stdout, b"SelectControl of name ", u64::from(name));
    write_verdict(stdout, inspected.answer);
    inspected.monitor
}

// Seventeen names: the table has room for sixteen.
fn select_points(stdout: Stdout) {
    let mut m = Iec61850Monitor::new();
    for name in 1..18 {
        m = inspect_select(stdout, m, name);
    }
}

pub fn write_inspections(stdout: Stdout) {
    count_points(stdout);
    raw_points(stdout);
    state_points(stdout);
    write_points(stdout);
    select_points(stdout);
}
