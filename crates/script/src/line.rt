// A line of a script, turned into a call and its arguments, which are put one behind the other as their kinds decide. docs/SCRIPT.md says
// how lines are written.
ghost use Rattle.std.specs.Prelude.{◌≡◌, ◌≤◌, length};

use crate::calls::{Call, Kind, NamedCall, call_named};
use crate::store::store_argument;
use text::put::OctetWriter;
use text::words::{short_word_end, word_start};

// Why a line is no call, with the number of the argument.
#[derive(Clone, Copy)]
pub enum LineError {
    TooLong,
    UnknownCall,
    Missing(usize),
    Malformed(usize),
    Unexpected(usize),
}

// Stores the arguments that stand in a line from a place on.
fn store_arguments(
    kinds: &[Kind],
    line: &[u8],
    at: usize,
    arguments: &mut OctetWriter,
) -> Result<(), LineError>
    requires { at ≤ length line.now }
    ensures { length arguments.new.octets.now ≡ length arguments.old.octets.now }
{
    let mut from = at;
    for (k, kind) in kinds.iter().enumerate() {
        let word = word_start(line, from);
        if word == line.len() {
            return Err(LineError::Missing(k + 1));
        }
        let stored = store_argument(*kind, line, word, arguments);
        from = stored.ok_or(LineError::Malformed(k + 1))?;
    }
    if word_start(line, from) < line.len() {
        return Err(LineError::Unexpected(kinds.len().saturating_add(1)));
    }
    Ok(())
}

// Reads a line that has a word, which begins at a place.
// Not inlined: in the loop of `replay`, which has variables enough, its own would not stay in registers.
#[inline(never)]
fn read_call(
    calls: &[NamedCall],
    line: &[u8],
    start: usize,
    arguments: &mut OctetWriter,
) -> Result<Call, LineError>
    requires { start ≤ length line.now }
    ensures { length arguments.new.octets.now ≡ length arguments.old.octets.now }
{
    let end = short_word_end(line, start);
    let (_, call, kinds) = call_named(calls, &line[start..end]).ok_or(LineError::UnknownCall)?;
    store_arguments(*kinds, line, end, arguments)?;
    Ok(*call)
}

// Reads a line by a table of calls: the call, whose arguments are put behind what was, or none, if there is nothing to answer.
pub fn read_line(
    calls: &[NamedCall],
    line: &[u8],
    arguments: &mut OctetWriter,
) -> Result<Option<Call>, LineError>
    ensures { length arguments.new.octets.now ≡ length arguments.old.octets.now }
{
    let start = word_start(line, 0);
    if start == line.len() || line[start] == b'#' {
        return Ok(None);
    }
    Ok(Some(read_call(calls, line, start, arguments)?))
}
