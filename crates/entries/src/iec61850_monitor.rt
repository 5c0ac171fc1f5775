// The monitor, carried over from industrial/iec61850-monitor/src/lib.rs of craton-shield a31d888527 (Apache-2.0) and changed: one array of words, by
// value in and out. Each call is made on the words where they stand.
ghost use Rattle.std.specs.Prelude.{◌≡◌, true, false, length};
ghost use Rattle.records.specs.Row.{ValuesOr, answer_row};
ghost use Rattle.checks.specs.GoosePublisher.{goose_publisher_count};
ghost use Rattle.checks.specs.MmsRule.{mms_rule_count};
ghost use Rattle.checks.specs.Rules.{AddNumbers};
ghost use Rattle.checks.specs.SvPublisher.{sv_publisher_count};
ghost use Rattle.monitor.specs.Monitor.{monitor_of};
ghost use Rattle.monitor.specs.Parts.{mms_added_on, goose_added_on, sv_added_on};
ghost use Rattle.monitor.specs.Reset.{new_monitor, reset_monitor};
ghost use Rattle.monitor.specs.Settings.{set_mms_service_mask, set_mms_read_only, set_block_test_frames, set_sv_max_smp_cnt_gap, set_retx_schedule};
ghost use Rattle.monitor.specs.Settings.{set_time_max_forward_jump, strict_mode};
ghost use Rattle.monitor.specs.Totals.{mms_total_inspected, goose_total_inspected, sv_total_inspected, total_alerts};
ghost use Rattle.inspection.specs.Address.{address_of};
ghost use Rattle.inspection.specs.InspectGoose.{inspect_goose};
ghost use Rattle.inspection.specs.InspectMms.{inspect_mms};
ghost use Rattle.inspection.specs.InspectSv.{inspect_sv, inspect_raw_sv};

use inspection::address::address_of;
use inspection::inspect_goose::inspect_goose_on;
use inspection::inspect_mms::inspect_mms_on;
use inspection::inspect_sv::{RawSv, inspect_raw_sv_on, inspect_sv_on};
use monitor::parts::{WORDS, add_goose_publisher_on, add_mms_rule_on, add_sv_publisher_on};
use monitor::reset::{new_on, reset_on};
use monitor::settings::{
    STRICT_MODE, flag_on, set_block_test_frames_on, set_mms_read_only_on, set_mms_service_mask_on,
    set_retx_schedule_on, set_sv_max_smp_cnt_gap_on, set_time_max_forward_jump_s_on,
};
use monitor::totals::{
    GOOSE_TOTAL_INSPECTED, MMS_TOTAL_INSPECTED, SV_TOTAL_INSPECTED, TOTAL_ALERTS, total_on,
};
use records::error::VsError;
use records::frame::{GooseFrame, MmsFrame, SvFrame};
use records::result::InspectResult;
use records::schedule::RetxSchedule;

// The whole state: what an entry takes and gives back.
#[repr(C)]
#[derive(Clone, Copy)]
pub struct Iec61850Monitor {
    pub words: [u64; WORDS],
}

// The monitor after a call, with what it answers.
#[derive(Clone, Copy)]
pub struct Answered<A> {
    pub monitor: Iec61850Monitor,
    pub answer: A,
}

// A monitor without rules, strict or not.
fn fresh(strict_mode: bool) -> Iec61850Monitor
    ensures { monitor_of result.words ≡ new_monitor strict_mode }
{
    let mut out = Iec61850Monitor { words: [0; WORDS] };
    new_on(&mut out.words, strict_mode);
    out
}

impl Iec61850Monitor {
    // Not strict.
    pub fn new() -> Self
        ensures { monitor_of result.words ≡ new_monitor false }
    {
        fresh(false)
    }

    // Strict: where MMS rules exist, a request that none applies to is refused; where SV publishers exist, an svID not among them.
    pub fn new_strict() -> Self
        ensures { monitor_of result.words ≡ new_monitor true }
    {
        fresh(true)
    }

    // Bit n of the mask allows the service of raw number n; 0 filters none.
    pub fn set_mms_service_mask(mut self, mask: u16) -> Self
        ensures { monitor_of result.words ≡ set_mms_service_mask (monitor_of self.words) mask }
    {
        set_mms_service_mask_on(&mut self.words, mask);
        self
    }

    // Whether all writes are refused.
    pub fn set_mms_read_only(mut self, read_only: bool) -> Self
        ensures { monitor_of result.words ≡ set_mms_read_only (monitor_of self.words) read_only }
    {
        set_mms_read_only_on(&mut self.words, read_only);
        self
    }

    // Adds an MMS rule of a mask, write protection and a rate, 0 for no limit.
    pub fn add_mms_rule(
        mut self,
        service_mask: u16,
        read_only: bool,
        max_rate_per_sec: u16,
    ) -> Answered<Result<(), VsError>>
        ensures value { record { monitor = monitor_of result.monitor.words; answer = result.answer }
            ≡ mms_added_on (monitor_of self.words) service_mask read_only max_rate_per_sec }
        ensures numbers { AddNumbers (mms_rule_count (monitor_of self.words).mms_rules) 0 result.answer }
    {
        let answer = add_mms_rule_on(&mut self.words, service_mask, read_only, max_rate_per_sec);
        Answered {
            monitor: self,
            answer,
        }
    }

    // Adds a GOOSE publisher; an empty name fits any control block of the address.
    pub fn add_goose_publisher(
        mut self,
        src_mac: [u8; 6],
        go_cb_ref: &[u8],
    ) -> Answered<Result<(), VsError>>
        ensures value { record { monitor = monitor_of result.monitor.words; answer = result.answer }
            ≡ goose_added_on (monitor_of self.words) (address_of src_mac) go_cb_ref.now }
        ensures numbers { AddNumbers (goose_publisher_count (monitor_of self.words).goose_publishers) (length go_cb_ref.now)
            result.answer }
    {
        let answer = add_goose_publisher_on(&mut self.words, address_of(src_mac), go_cb_ref);
        Answered {
            monitor: self,
            answer,
        }
    }

    // Binds an svID to an address; a rate of 0 is not compared.
    pub fn add_sv_publisher(
        mut self,
        src_mac: [u8; 6],
        svid: &[u8],
        expected_smp_rate: u16,
    ) -> Answered<Result<(), VsError>>
        ensures value { record { monitor = monitor_of result.monitor.words; answer = result.answer }
            ≡ sv_added_on (monitor_of self.words) (address_of src_mac) svid.now expected_smp_rate }
        ensures numbers { AddNumbers (sv_publisher_count (monitor_of self.words).sv_publishers) (length svid.now) result.answer }
    {
        let answer = add_sv_publisher_on(
            &mut self.words,
            address_of(src_mac),
            svid,
            expected_smp_rate,
        );
        Answered {
            monitor: self,
            answer,
        }
    }

    // Whether GOOSE test frames are refused.
    pub fn set_block_test_frames(mut self, block: bool) -> Self
        ensures { monitor_of result.words ≡ set_block_test_frames (monitor_of self.words) block }
    {
        set_block_test_frames_on(&mut self.words, block);
        self
    }

    // The largest gap of smpCnt that is accepted; 0 accepts any.
    pub fn set_sv_max_smp_cnt_gap(mut self, gap: u16) -> Self
        ensures { monitor_of result.words ≡ set_sv_max_smp_cnt_gap (monitor_of self.words) gap }
    {
        set_sv_max_smp_cnt_gap_on(&mut self.words, gap);
        self
    }

    // The schedule of retransmissions, and whether it is enforced.
    pub fn set_retx_schedule(mut self, schedule: RetxSchedule, enforce: bool) -> Self
        ensures { monitor_of result.words ≡ set_retx_schedule (monitor_of self.words) schedule enforce }
    {
        set_retx_schedule_on(&mut self.words, schedule, enforce);
        self
    }

    // How many seconds a clock may go ahead from one frame to the next; 0 for any. Going back always alerts.
    pub fn set_time_max_forward_jump_s(mut self, seconds: u32) -> Self
        ensures { monitor_of result.words ≡ set_time_max_forward_jump (monitor_of self.words) seconds }
    {
        set_time_max_forward_jump_s_on(&mut self.words, seconds);
        self
    }

    pub fn mms_total_inspected(self) -> u64
        ensures { result ≡ mms_total_inspected (monitor_of self.words) }
    {
        total_on(&self.words, MMS_TOTAL_INSPECTED)
    }

    pub fn goose_total_inspected(self) -> u64
        ensures { result ≡ goose_total_inspected (monitor_of self.words) }
    {
        total_on(&self.words, GOOSE_TOTAL_INSPECTED)
    }

    pub fn sv_total_inspected(self) -> u64
        ensures { result ≡ sv_total_inspected (monitor_of self.words) }
    {
        total_on(&self.words, SV_TOTAL_INSPECTED)
    }

    pub fn total_alerts(self) -> u64
        ensures { result ≡ total_alerts (monitor_of self.words) }
    {
        total_on(&self.words, TOTAL_ALERTS)
    }

    pub fn strict_mode(self) -> bool
        ensures { result ≡ strict_mode (monitor_of self.words) }
    {
        flag_on(&self.words, STRICT_MODE)
    }

    // As new but for the settings: rules, tables, reservations and totals are gone.
    pub fn reset(mut self) -> Self
        ensures { monitor_of result.words ≡ reset_monitor (monitor_of self.words) }
    {
        reset_on(&mut self.words);
        self
    }

    // The monitor after an MMS frame, and the result.
    pub fn inspect_mms(mut self, frame: MmsFrame) -> Answered<InspectResult>
        ensures { record { monitor = monitor_of result.monitor.words; answer = result.answer } ≡ inspect_mms (monitor_of self.words) frame }
    {
        let answer = inspect_mms_on(&mut self.words, frame);
        Answered {
            monitor: self,
            answer,
        }
    }

    // The monitor after a GOOSE frame, and the result.
    pub fn inspect_goose(mut self, frame: GooseFrame) -> Answered<InspectResult>
        ensures { record { monitor = monitor_of result.monitor.words; answer = result.answer } ≡ inspect_goose (monitor_of self.words) frame }
    {
        let answer = inspect_goose_on(&mut self.words, frame);
        Answered {
            monitor: self,
            answer,
        }
    }

    // The monitor after an SV frame, and the result.
    pub fn inspect_sv(mut self, frame: SvFrame) -> Answered<InspectResult>
        ensures { record { monitor = monitor_of result.monitor.words; answer = result.answer } ≡ inspect_sv (monitor_of self.words) frame }
    {
        let answer = inspect_sv_on(&mut self.words, frame);
        Answered {
            monitor: self,
            answer,
        }
    }

    // The monitor after a raw SV frame, and the result.
    pub fn inspect_raw_sv(mut self, bytes: &[u8], timestamp_us: u64) -> Answered<RawSv>
        ensures value { record { monitor = monitor_of result.monitor.words; answer = result.answer }
            ≡ inspect_raw_sv (monitor_of self.words) bytes.now timestamp_us }
        ensures numbers { ValuesOr 9 (answer_row result.answer.answer) }
    {
        let answer = inspect_raw_sv_on(&mut self.words, bytes, timestamp_us);
        Answered {
            monitor: self,
            answer,
        }
    }
}
