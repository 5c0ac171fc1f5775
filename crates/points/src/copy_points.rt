// Frames heard twice (request 1): one of each kind, whose second copy comes a little later. A line has the time, and the verdict with its codes.
use crate::frame_points::good_frame;
use crate::monitor_points::{goose_frame, sv_frame, write_part, write_verdict};
use crate::write_text;
use entries::iec61850_monitor::Iec61850Monitor;
use records::frame::{GooseFrame, SvFrame};
use records::schedule::RetxSchedule;
use std::io::Stdout;

// The monitor after an SV frame of the stream M1 with a clock, heard at a time.
fn hear_sv(
    stdout: Stdout,
    m: Iec61850Monitor,
    count: u16,
    seconds: u32,
    time_us: u64,
) -> Iec61850Monitor {
    let f = SvFrame {
        t_seconds_since_epoch: seconds,
        timestamp_us: time_us,
        ..sv_frame(count)
    };
    let inspected = m.inspect_sv(f);
    write_part(stdout, b"SV count ", u64::from(count));
    write_part(stdout, b" clock ", u64::from(seconds));
    write_part(stdout, b" heard at ", time_us);
    write_verdict(stdout, inspected.answer);
    inspected.monitor
}

// The monitor after a GOOSE frame of stNum 1 with a clock, heard at a time.
fn hear_goose(
    stdout: Stdout,
    m: Iec61850Monitor,
    sq_num: u32,
    seconds: u32,
    time_us: u64,
) -> Iec61850Monitor {
    let f = GooseFrame {
        timestamp_us: time_us,
        ..goose_frame(1, sq_num, seconds)
    };
    let inspected = m.inspect_goose(f);
    write_part(stdout, b"GOOSE sqNum ", u64::from(sq_num));
    write_part(stdout, b" clock ", u64::from(seconds));
    write_part(stdout, b" heard at ", time_us);
    write_verdict(stdout, inspected.answer);
    inspected.monitor
}

// The monitor after document 01's frame, heard at a time.
fn hear_raw(stdout: Stdout, m: Iec61850Monitor, time_us: u64) -> Iec61850Monitor {
    let octets = good_frame();
    let inspected = m.inspect_raw_sv(&octets, time_us);
    write_text(stdout, b"raw frame");
    write_part(stdout, b" heard at ", time_us);
    write_verdict(stdout, inspected.answer.result);
    inspected.monitor
}

// A clock that goes back and a gap above the limit the first time, replay alone the second.
fn sv_copies(stdout: Stdout) {
    let limited = Iec61850Monitor::new().set_sv_max_smp_cnt_gap(10);
    let before = hear_sv(stdout, limited, 500, 100, 1000);
    let first = hear_sv(stdout, before, 520, 90, 1250);
    hear_sv(stdout, first, 520, 90, 1259);
}

// A clock that goes back and a repetition too early the first time, replay alone the second.
fn goose_copies(stdout: Stdout) {
    let enforced = Iec61850Monitor::new().set_retx_schedule(RetxSchedule::default_8_1(), true);
    let before = hear_goose(stdout, enforced, 0, 100, 1000);
    let first = hear_goose(stdout, before, 1, 90, 1250);
    hear_goose(stdout, first, 1, 90, 1259);
}

// Allowed the first time.
fn raw_copies(stdout: Stdout) {
    let first = hear_raw(stdout, Iec61850Monitor::new(), 1250);
    hear_raw(stdout, first, 1259);
}

pub fn write_copies(stdout: Stdout) {
    sv_copies(stdout);
    goose_copies(stdout);
    raw_copies(stdout);
}
