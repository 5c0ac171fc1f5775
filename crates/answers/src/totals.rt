// The totals of a monitor and its strict mode, which end every line.
ghost use Rattle.std.specs.Prelude.{◌≡◌, length};

use monitor::parts::WORDS;
use monitor::settings::{STRICT_MODE, flag_on};
use monitor::totals::{
    GOOSE_TOTAL_INSPECTED, MMS_TOTAL_INSPECTED, SV_TOTAL_INSPECTED, TOTAL_ALERTS, total_on,
};
use text::put::OctetWriter;

// Puts what ends a line: the totals and strict mode.
pub fn put_line_end(out: &mut OctetWriter, m: &[u64; WORDS])
    ensures { length out.new.octets.now ≡ length out.old.octets.now }
{
    out.put_number(b" totals ", total_on(m, MMS_TOTAL_INSPECTED));
    out.put_number(b" ", total_on(m, GOOSE_TOTAL_INSPECTED));
    out.put_number(b" ", total_on(m, SV_TOTAL_INSPECTED));
    out.put_number(b" ", total_on(m, TOTAL_ALERTS));
    out.put_flag(b" strict ", flag_on(m, STRICT_MODE));
    out.append(b"\n");
}
