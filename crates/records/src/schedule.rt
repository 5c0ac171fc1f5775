// Carried over from industrial/iec61850-monitor/src/lib.rs of craton-shield a31d888527 (Apache-2.0) and changed: no operation
// that could saturate is left.
ghost use Rattle.std.specs.Prelude.{◌≡◌};
ghost use Rattle.records.specs.Schedule.{default_schedule, expected_interval, within_tolerance};

// The schedule by which a GOOSE publisher repeats an unchanged state (IEC 61850-8-1).
#[repr(C)]
#[derive(Clone, Copy)]
pub struct RetxSchedule {
    pub initial_us: u32,
    pub t_max_us: u32,
    pub tolerance_pct: u8,
}

impl RetxSchedule {
    // 4 ms at first, 1 s at most, 25 percent.
    pub fn default_8_1() -> Self
        ensures { result ≡ default_schedule }
    {
        RetxSchedule {
            initial_us: 4_000,
            t_max_us: 1_000_000,
            tolerance_pct: 25,
        }
    }

    // The interval before the frame of sqNum n.
    #[tactic(auto, unfolding(crate::specs::Schedule::expected_interval))]
    pub fn expected_interval_us(self, n: u32) -> u32
        ensures { result ≡ expected_interval self n }
    {
        let scaled = u64::from(self.initial_us) << n.min(31);
        scaled.min(u64::from(self.t_max_us)) as u32
    }

    // Whether an observed interval is near enough to the expected one.
    #[tactic(auto, unfolding(crate::specs::Schedule::within_tolerance))]
    pub fn within_tolerance(self, observed_us: u32, expected_us: u32) -> bool
        ensures { result ≡ within_tolerance self observed_us expected_us }
    {
        let tolerance = u64::from(expected_us) * u64::from(self.tolerance_pct) / 100;
        u64::from(observed_us.abs_diff(expected_us)) <= tolerance
    }
}
