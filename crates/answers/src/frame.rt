// The text of a frame that was read: every field of it.
ghost use Rattle.std.specs.Prelude.{◌≡◌, length};

use crate::refusal::put_error;
use records::error::VsError;
use records::frame::SvFrame;
use text::put::OctetWriter;

// Puts a name's stated length and all its octets.
fn put_stated(out: &mut OctetWriter, len: u8, name: &[u8])
    ensures { length out.new.octets.now ≡ length out.old.octets.now }
{
    out.put_number(b" ", u64::from(len));
    out.put_hex(name);
}

// Puts every field of a frame, in the order in which they are declared.
fn put_frame(out: &mut OctetWriter, frame: &SvFrame)
    ensures { length out.new.octets.now ≡ length out.old.octets.now }
{
    out.append(b"frame");
    out.put_hex(&frame.src_mac);
    put_stated(out, frame.svid_len, &frame.svid);
    out.put_number(b" ", u64::from(frame.smp_cnt));
    out.put_number(b" ", u64::from(frame.smp_rate));
    put_stated(out, frame.dataset_ref_len, &frame.dataset_ref);
    out.put_number(b" ", frame.timestamp_us);
    out.put_number(b" ", u64::from(frame.t_seconds_since_epoch));
    out.put_number(b" ", u64::from(frame.t_fraction_of_second));
}

// Puts what was read of a raw frame, or why nothing was.
pub fn put_parsed(out: &mut OctetWriter, parsed: Result<SvFrame, VsError>)
    ensures { length out.new.octets.now ≡ length out.old.octets.now }
{
    match parsed {
        Ok(frame) => put_frame(out, &frame),
        Err(error) => put_error(out, error.number()),
    }
}
