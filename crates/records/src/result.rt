// Carried over from industrial/types-ind/src/lib.rs of craton-shield a31d888527 (Apache-2.0) and changed: the result and the
// counters go in by value and come back; a slot holds an alert with its code.
ghost use Rattle.std.specs.Prelude.{◌≡◌};
ghost use Rattle.records.specs.Result.{clean_result, allowed_with, pushed};

use crate::alert::{AlertCode, AlertSeverity, CodedAlert};

// The verdict on one frame, with up to four alerts. The fields are the source's, and its flags say something in every case.
#[derive(Clone, Copy)]
pub struct InspectResult {
    pub allowed: bool,
    pub alert_count: u8,
    pub source_type: u8,
    pub alerts: [CodedAlert; 4],
    pub alerts_truncated: bool,
}

// The number that the next alert gets, and how many there were.
#[repr(C)]
#[derive(Clone, Copy)]
pub struct AlertCounters {
    pub next_alert_id: u64,
    pub total_alerts: u64,
}

// A result and the counters after an alert: both are always there, so an Option would not be plainer.
#[derive(Clone, Copy)]
pub struct Pushed {
    pub result: InspectResult,
    pub counters: AlertCounters,
}

// Whether a frame is still allowed after an alert.
#[tactic(auto, unfolding(crate::specs::Result::allowed_with))]
pub fn allowed_with(allowed: bool, severity: AlertSeverity) -> bool
    ensures { result ≡ allowed_with allowed severity }
{
    allowed && !severity.denies()
}

impl InspectResult {
    // Allowed, with no alert.
    #[tactic(auto, unfolding(crate::specs::Result::clean_result))]
    pub fn clean(source_type: u8) -> Self
        ensures { result ≡ clean_result source_type }
    {
        InspectResult {
            allowed: true,
            alert_count: 0,
            source_type,
            alerts: [CodedAlert::none(source_type); 4],
            alerts_truncated: false,
        }
    }

    // Adds an alert under the next number. High and Critical deny, also where the four slots are taken and the alert is dropped.
    // The parameters are the source's.
    #[tactic(auto, unfolding(crate::specs::Result::pushed, crate::specs::Result::with_alert, crate::specs::Result::truncated, crate::specs::Result::counted))]
    pub fn push_alert_with_code(
        self,
        counters: AlertCounters,
        severity: AlertSeverity,
        source_type: u8,
        source_id: u32,
        ts_us: u64,
        code: AlertCode,
    ) -> Pushed
        ensures { result ≡ pushed self counters severity source_type source_id ts_us code }
    {
        let mut out = self;
        out.allowed = allowed_with(self.allowed, severity);
        let slot = self.alert_count as usize;
        if slot >= 4 {
            out.alerts_truncated = true;
            return Pushed {
                result: out,
                counters,
            };
        }
        let id = counters.next_alert_id;
        out.alerts[slot] = CodedAlert::new(id, severity, source_type, source_id, ts_us, code);
        out.alert_count += 1;
        Pushed {
            result: out,
            counters: AlertCounters {
                next_alert_id: id.wrapping_add(1),
                total_alerts: counters.total_alerts.saturating_add(1),
            },
        }
    }
}
