// The text of a result: every field of it. docs/SCRIPT.md says how they are written.
ghost use Rattle.std.specs.Prelude.{◌≡◌, length};

use crate::names::{Names, put_name};
use records::alert::CodedAlert;
use records::result::InspectResult;
use text::put::OctetWriter;

// Whether each slot behind the alerts of a result is as a clean result has it.
fn rest_is_unused(res: &InspectResult) -> bool {
    let unused = CodedAlert::none(res.source_type);
    res.alerts
        .iter()
        .skip(usize::from(res.alert_count))
        .all(|slot| *slot == unused)
}

// Puts an alert with its code, and whether its hash has an octet other than 0.
fn put_alert(out: &mut OctetWriter, names: Names, slot: &CodedAlert)
    ensures { length out.new.octets.now ≡ length out.old.octets.now }
{
    let alert = &slot.alert;
    let code = slot.code.code();
    out.put_number(b" [", u64::from(code));
    put_name(out, names.codes, usize::from(code));
    put_name(out, names.severities, usize::from(alert.severity.number()));
    out.put_number(b" number ", alert.id);
    out.put_number(b" time ", alert.timestamp_us);
    out.put_number(b" from ", u64::from(alert.source_type));
    out.put_number(b" ", u64::from(alert.source_id));
    out.put_flag(b" hash ", alert.payload_hash != [0; 32]);
    out.append(b"]");
}

// Puts the alerts of a result.
fn put_alerts(out: &mut OctetWriter, names: Names, res: &InspectResult)
    ensures { length out.new.octets.now ≡ length out.old.octets.now }
{
    for slot in res.alerts.iter().take(usize::from(res.alert_count)) {
        put_alert(out, names, slot);
    }
}

// Puts a result: the verdict, the source type, the alerts, and the marks.
pub fn put_result(out: &mut OctetWriter, names: Names, res: &InspectResult)
    ensures { length out.new.octets.now ≡ length out.old.octets.now }
{
    out.append(if res.allowed { b"allowed" } else { b"refused" });
    out.put_number(b" source ", u64::from(res.source_type));
    out.put_number(b" alerts ", u64::from(res.alert_count));
    put_alerts(out, names, res);
    out.put_flag(b" unused ", rest_is_unused(res));
    out.put_flag(b" truncated ", res.alerts_truncated);
}
