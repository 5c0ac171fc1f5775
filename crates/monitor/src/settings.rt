// Settings, carried over from industrial/iec61850-monitor/src/lib.rs of craton-shield a31d888527 (Apache-2.0) and changed: ten words, which the set
// calls store in place.
ghost use Rattle.std.specs.Prelude.{◌≡◌, ◌<◌, min, ◌-◌, ◌^◌};
ghost use Rattle.monitor.specs.Monitor.{monitor_of};
ghost use Rattle.monitor.specs.Settings.{setting_set, set_mms_service_mask, set_mms_read_only, set_block_test_frames};
ghost use Rattle.monitor.specs.Settings.{set_sv_max_smp_cnt_gap, set_retx_schedule, set_time_max_forward_jump};
ghost use Rattle.monitor.specs.Settings.{setting, setting_flag, retx_schedule, time_max_forward_jump};

use crate::parts::WORDS;
use records::schedule::RetxSchedule;

// Where each setting stands.
pub const STRICT_MODE: usize = 0;

pub const BLOCK_TEST_FRAMES: usize = 1;

pub const MMS_SERVICE_MASK: usize = 2;

pub const MMS_READ_ONLY: usize = 3;

pub const RETX_INITIAL_US: usize = 4;

pub const RETX_T_MAX_US: usize = 5;

pub const RETX_TOLERANCE_PCT: usize = 6;

pub const RETX_ENFORCE: usize = 7;

pub const TIME_MAX_FORWARD_JUMP_S: usize = 8;

pub const SV_MAX_SMP_CNT_GAP: usize = 9;

// Sets one of the settings.
pub fn set_setting(m: &mut [u64; WORDS], place: usize, v: u64)
    requires { place < 10 }
    ensures { monitor_of m.new ≡ setting_set (monitor_of m.old) place v }
{
    m[place] = v;
}

// Bit n of the mask allows the service of raw number n; 0 filters none.
#[tactic(auto, unfolding(crate::specs::Settings::setting_set, crate::specs::Settings::set_mms_service_mask))]
pub fn set_mms_service_mask_on(m: &mut [u64; WORDS], mask: u16)
    ensures { monitor_of m.new ≡ set_mms_service_mask (monitor_of m.old) mask }
{
    set_setting(m, MMS_SERVICE_MASK, mask as u64);
}

// Whether all writes are refused.
#[tactic(auto, unfolding(crate::specs::Settings::setting_set, crate::specs::Settings::set_mms_read_only))]
pub fn set_mms_read_only_on(m: &mut [u64; WORDS], read_only: bool)
    ensures { monitor_of m.new ≡ set_mms_read_only (monitor_of m.old) read_only }
{
    set_setting(m, MMS_READ_ONLY, u64::from(read_only));
}

// Whether GOOSE test frames are refused.
#[tactic(auto, unfolding(crate::specs::Settings::setting_set, crate::specs::Settings::set_block_test_frames))]
pub fn set_block_test_frames_on(m: &mut [u64; WORDS], block: bool)
    ensures { monitor_of m.new ≡ set_block_test_frames (monitor_of m.old) block }
{
    set_setting(m, BLOCK_TEST_FRAMES, u64::from(block));
}

// The largest gap of smpCnt that is accepted; 0 accepts any.
#[tactic(auto, unfolding(crate::specs::Settings::setting_set, crate::specs::Settings::set_sv_max_smp_cnt_gap))]
pub fn set_sv_max_smp_cnt_gap_on(m: &mut [u64; WORDS], gap: u16)
    ensures { monitor_of m.new ≡ set_sv_max_smp_cnt_gap (monitor_of m.old) gap }
{
    set_setting(m, SV_MAX_SMP_CNT_GAP, gap as u64);
}

// The schedule of retransmissions, and whether it is enforced.
pub fn set_retx_schedule_on(m: &mut [u64; WORDS], schedule: RetxSchedule, enforce: bool)
    ensures { monitor_of m.new ≡ set_retx_schedule (monitor_of m.old) schedule enforce }
{
    set_setting(m, RETX_INITIAL_US, schedule.initial_us as u64);
    set_setting(m, RETX_T_MAX_US, schedule.t_max_us as u64);
    set_setting(m, RETX_TOLERANCE_PCT, schedule.tolerance_pct as u64);
    set_setting(m, RETX_ENFORCE, u64::from(enforce));
}

// How many seconds a clock may go ahead from one frame to the next; 0 for any. Going back always alerts.
#[tactic(auto, unfolding(crate::specs::Settings::setting_set, crate::specs::Settings::set_time_max_forward_jump))]
pub fn set_time_max_forward_jump_s_on(m: &mut [u64; WORDS], seconds: u32)
    ensures { monitor_of m.new ≡ set_time_max_forward_jump (monitor_of m.old) seconds }
{
    set_setting(m, TIME_MAX_FORWARD_JUMP_S, seconds as u64);
}

// What a setting's word says.
pub fn setting_on(m: &[u64; WORDS], place: usize) -> u64
    requires { place < 10 }
    ensures { result ≡ setting (monitor_of m.now) place }
{
    m[place]
}

// Whether a flag is set.
pub fn flag_on(m: &[u64; WORDS], place: usize) -> bool
    requires { place < 10 }
    ensures { result ≡ setting_flag (monitor_of m.now) place }
{
    setting_on(m, place) != 0
}

// The most that 32 bits hold if a word has more. This, `word8` and `narrowed` of tables are each one call of their type.
fn word32(word: u64) -> u32
    ensures { result ≡ min word (2 ^ 32 - 1) }
{
    u32::try_from(word).unwrap_or(u32::MAX)
}

// The most that 8 bits hold if a word has more.
fn word8(word: u64) -> u8
    ensures { result ≡ min word 255 }
{
    u8::try_from(word).unwrap_or(u8::MAX)
}

// The schedule of retransmissions.
pub fn retx_schedule_on(m: &[u64; WORDS]) -> RetxSchedule
    ensures { result ≡ retx_schedule (monitor_of m.now) }
{
    RetxSchedule {
        initial_us: word32(setting_on(m, RETX_INITIAL_US)),
        t_max_us: word32(setting_on(m, RETX_T_MAX_US)),
        tolerance_pct: word8(setting_on(m, RETX_TOLERANCE_PCT)),
    }
}

// How many seconds a clock may go ahead.
pub fn time_max_forward_jump_s_on(m: &[u64; WORDS]) -> u32
    ensures { result ≡ time_max_forward_jump (monitor_of m.now) }
{
    word32(setting_on(m, TIME_MAX_FORWARD_JUMP_S))
}
