// The text of an error, and of a line that is no call.
ghost use Rattle.std.specs.Prelude.{◌≡◌, length};

use script::calls::Call;
use script::line::LineError;
use text::put::OctetWriter;

// Puts the error's number.
pub fn put_error(out: &mut OctetWriter, number: u8)
    ensures { length out.new.octets.now ≡ length out.old.octets.now }
{
    out.put_number(b"error ", u64::from(number));
}

// Puts which argument of a line is not as it must be, and why.
fn put_argument(out: &mut OctetWriter, k: usize, why: &[u8])
    ensures { length out.new.octets.now ≡ length out.old.octets.now }
{
    out.put_number(b": argument ", k as u64);
    out.append(why);
}

// Puts why the line of a number is no call. Of a line that was read it says what it says of one that is too long.
pub fn put_malformed(out: &mut OctetWriter, number: u64, read: Result<Option<Call>, LineError>)
    ensures { length out.new.octets.now ≡ length out.old.octets.now }
{
    out.put_number(b"malformed line ", number);
    match read {
        Err(LineError::UnknownCall) => out.append(b": unknown call\n"),
        Err(LineError::Missing(k)) => put_argument(out, k, b" missing\n"),
        Err(LineError::Malformed(k)) => put_argument(out, k, b" malformed\n"),
        Err(LineError::Unexpected(k)) => put_argument(out, k, b" unexpected\n"),
        Err(LineError::TooLong) | Ok(_) => out.append(b": too long\n"),
    }
}
