// The use of a control block or data set by a frame, carried over from industrial/iec61850-monitor/src/lib.rs of craton-shield a31d888527 (Apache-2.0)
// and changed: by the octets of its name.
ghost use Rattle.std.specs.Prelude.{◌≡◌};
ghost use Rattle.records.specs.Name.{stated_name};
ghost use Rattle.checks.specs.Keys.{reservation_key};
ghost use Rattle.monitor.specs.Monitor.{monitor_of};
ghost use Rattle.monitor.specs.Parts.{cb_on};

use checks::keys::reservation_key;
use monitor::parts::{WORDS, check_cb_on, no_reservations_on};
use records::name::Name;

// Whether a control block or data set of this name is bound to another address; its first use binds it. Without reservations no key is made.
pub fn hijacked<'a>(m: &mut [u64; WORDS], is_goose: bool, name: Name<'a>, address: u64) -> bool
    ensures { record { monitor = monitor_of m.new; answer = result }
        ≡ cb_on (monitor_of m.old) (reservation_key is_goose (stated_name name.entry)) address }
{
    if no_reservations_on(m) {
        return false;
    }
    check_cb_on(m, &reservation_key(is_goose, name), address)
}
