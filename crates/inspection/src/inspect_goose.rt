// The inspection of a GOOSE frame, carried over from industrial/iec61850-monitor/src/lib.rs of craton-shield a31d888527 (Apache-2.0) and changed: a
// chain of stages on the monitor's words, each of which ends the checking or calls the next; the alerts added at the end.
ghost use Rattle.std.specs.Prelude.{◌≡◌, true, ◌++◌, length};
ghost use Rattle.records.specs.Hash.{fnv1a};
ghost use Rattle.records.specs.Name.{name_of, stated_name};
ghost use Rattle.checks.specs.GooseSeq.{numbers_of};
ghost use Rattle.checks.specs.Keys.{plain_key, reservation_key};
ghost use Rattle.monitor.specs.Monitor.{monitor_of};
ghost use Rattle.inspection.specs.InspectGoose.{timed_numbers, stream_findings, retransmitted, goose_time_field, goose_reservation, goose_unknown};
ghost use Rattle.inspection.specs.InspectGoose.{goose_read_by, goose_test, blocked, checked_goose, inspect_goose};
ghost use Rattle.inspection.specs.Report.{clock_findings, findings_in, alerts_of};

use crate::address::address_of;
use crate::clock::clock_checked;
use crate::hijack::hijacked;
use crate::report::{AlertSource, CheckAlert, CheckAlerts, clock_alert, one_alert, report_on};
use checks::goose_seq::StreamNumbers;
use checks::keys::{goose_key, plain_key};
use monitor::parts::{
    WORDS, check_goose_seq_on, goose_publisher_count_on, goose_publisher_on, retx_anomaly_on,
};
use monitor::settings::{BLOCK_TEST_FRAMES, RETX_ENFORCE, flag_on, retx_schedule_on};
use monitor::totals::{GOOSE_TOTAL_INSPECTED, count_frame_on};
use records::alert::SOURCE_IEC61850_GOOSE;
use records::frame::GooseFrame;
use records::hash::fnv1a_32;
use records::name::{Name, valid_len};
use records::result::InspectResult;

// What the checks read of a frame beside its control block's name.
#[derive(Clone, Copy)]
pub struct GooseNumbers {
    pub address: u64,
    pub hash: u32,
    pub st_num: u32,
    pub sq_num: u32,
    pub test: bool,
    pub timestamp_us: u64,
    pub seconds: u32,
    pub fraction: u32,
}

// A replay refuses; otherwise a retransmission outside tolerance is told.
fn stream_alert(replay: bool, outside: bool) -> Option<CheckAlert>
    ensures { findings_in result ≡ stream_findings replay outside }
{
    if replay {
        return Some(CheckAlert::GooseReplay);
    }
    if outside {
        return Some(CheckAlert::Retransmission);
    }
    None
}

// The alerts of the clock and the stream.
fn goose_alerts(clock: bool, replay: bool, outside: bool) -> CheckAlerts
    ensures { alerts_of result ≡ clock_findings clock ++ stream_findings replay outside }
{
    [clock_alert(clock), stream_alert(replay, outside), None]
}

// The numbers of its stream.
fn stream_numbers(n: GooseNumbers) -> StreamNumbers<u32>
    ensures { numbers_of result ≡ timed_numbers n }
{
    StreamNumbers {
        st_num: n.st_num,
        sq_num: n.sq_num,
        timestamp_us: n.timestamp_us,
    }
}

// Whether a retransmission is outside tolerance; asked only with enforcement on.
fn retransmitted(m: &[u64; WORDS], n: GooseNumbers) -> bool
    ensures { result ≡ retransmitted (monitor_of m.now) n }
{
    if flag_on(m, RETX_ENFORCE) {
        let schedule = retx_schedule_on(m);
        let key = goose_key(n.address, n.hash);
        return retx_anomaly_on(m, &key, schedule, stream_numbers(n));
    }
    false
}

// 12, 13: the clock; the stream, also after a clock alert, with the retransmission looked up before anything of it is stored.
fn goose_time_field(m: &mut [u64; WORDS], n: GooseNumbers) -> CheckAlerts
    ensures { record { monitor = monitor_of m.new; answer = alerts_of result } ≡ goose_time_field n (monitor_of m.old) }
{
    let clock = clock_checked(m, n.address, n.seconds, n.fraction);
    let outside = retransmitted(m, n);
    let key = goose_key(n.address, n.hash);
    let replay = check_goose_seq_on(m, &key, stream_numbers(n));
    goose_alerts(clock, replay, outside)
}

// 11: the control block's reservation.
fn goose_reservation<'a>(m: &mut [u64; WORDS], name: Name<'a>, n: GooseNumbers) -> CheckAlerts
    ensures { record { monitor = monitor_of m.new; answer = alerts_of result }
        ≡ goose_reservation n (reservation_key true (stated_name name.entry)) (monitor_of m.old) }
{
    if hijacked(m, true, name, n.address) {
        return one_alert(Some(CheckAlert::BoundElsewhere));
    }
    goose_time_field(m, n)
}

// 10: whether publishers exist and none fits.
fn goose_unknown<'a>(m: &[u64; WORDS], address: u64, name: Name<'a>) -> bool
    ensures { result ≡ goose_unknown (monitor_of m.now) address (plain_key (stated_name name.entry)) }
{
    if goose_publisher_count_on(m) == 0 {
        return false;
    }
    goose_publisher_on(m, address, &plain_key(name)).is_none()
}

// 9: whether a frame is a test frame while blocked.
fn goose_blocked(m: &[u64; WORDS], test: bool) -> bool
    ensures { result ≡ blocked (monitor_of m.now) test }
{
    if test {
        return flag_on(m, BLOCK_TEST_FRAMES);
    }
    false
}

// The checks of a GOOSE frame, by the octets of its control block's name: keys are made of them only where there are publishers or reservations.
pub fn goose_checks_on<'a>(m: &mut [u64; WORDS], name: Name<'a>, n: GooseNumbers) -> CheckAlerts
    ensures { record { monitor = monitor_of m.new; answer = alerts_of result }
        ≡ goose_test (monitor_of m.old) (goose_read_by (stated_name name.entry) n) }
{
    if goose_blocked(m, n.test) {
        return one_alert(Some(CheckAlert::TestBlocked));
    }
    if goose_unknown(m, n.address, name) {
        return one_alert(Some(CheckAlert::UnknownPublisher));
    }
    goose_reservation(m, name, n)
}

// The hash of a frame's control block. No `Name`: the octets of a lent frame are hashed where they stand.
pub fn name_hash(name: &[u8], len: u8) -> u32
    requires { length name.now ≡ 64 }
    ensures { result ≡ fnv1a (name_of name.now len) }
{
    let n = valid_len(len) as usize;
    fnv1a_32(&name[..n])
}

// Counts and checks a GOOSE frame.
fn check_goose_on(m: &mut [u64; WORDS], frame: GooseFrame) -> CheckAlerts
    ensures { record { monitor = monitor_of m.new; answer = alerts_of result } ≡ checked_goose (monitor_of m.old) frame }
{
    let src_mac = frame.src_mac;
    let go_cb_ref = frame.go_cb_ref;
    let n = GooseNumbers {
        address: address_of(src_mac),
        hash: name_hash(&go_cb_ref, frame.go_cb_ref_len),
        st_num: frame.st_num,
        sq_num: frame.sq_num,
        test: frame.test,
        timestamp_us: frame.timestamp_us,
        seconds: frame.t_seconds_since_epoch,
        fraction: frame.t_fraction_of_second,
    };
    count_frame_on(m, GOOSE_TOTAL_INSPECTED);
    goose_checks_on(
        m,
        Name {
            octets: &frame.go_cb_ref,
            len: frame.go_cb_ref_len,
        },
        n,
    )
}

// Inspects a GOOSE frame.
pub fn inspect_goose_on(m: &mut [u64; WORDS], frame: GooseFrame) -> InspectResult
    ensures { record { monitor = monitor_of m.new; answer = result } ≡ inspect_goose (monitor_of m.old) frame }
{
    let alerts = check_goose_on(m, frame);
    report_on(
        m,
        alerts,
        AlertSource {
            source_type: SOURCE_IEC61850_GOOSE,
            source_id: frame.st_num,
            timestamp_us: frame.timestamp_us,
        },
    )
}
