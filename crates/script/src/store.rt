// Stores an argument of a call, by its kind. A malformed word is answered by `None`, whatever was stored of it. Numbers stand most significant
// octet first.
ghost use Rattle.std.specs.Prelude.{◌≡◌, ◌+◌, ◌≤◌, length, IfSome};

use crate::calls::Kind;
use text::put::OctetWriter;
use text::values::{Digits, decimal, digits_at, name_start, word_octets};
use text::words::{ends_at, word_end};

// Stores a number of n octets. Eight are always written, since that is one store: what is put next takes the place of those behind the number.
fn store_value(number: u64, n: usize, arguments: &mut OctetWriter) -> Option<()>
    requires { (1 ≤ n) × (n ≤ 8) }
    ensures { length arguments.new.octets.now ≡ length arguments.old.octets.now }
{
    let free = 64 - 8 * n;
    let wide = number << free;
    if wide >> free != number || arguments.room() < 8 {
        return None;
    }
    let at = arguments.end;
    arguments.octets[at..at + 8].copy_from_slice(&wide.to_be_bytes());
    arguments.end = at + n;
    Some(())
}

// The number in the digits that were read between two places of a line.
fn digits_value(line: &[u8], word: usize, read: Digits) -> Option<u64>
    requires { (word ≤ read.end) × (read.end ≤ length line.now) }
{
    let digits = read.end - word;
    if digits == 0 || !ends_at(line, read.end) {
        return None;
    }
    if digits > 19 {
        return decimal(&line[word..read.end]);
    }
    Some(read.value)
}

// A number of n octets, whose word begins at a place of a line: the place behind the word.
fn store_number(line: &[u8], word: usize, n: usize, arguments: &mut OctetWriter) -> Option<usize>
    requires word_in_bounds { word ≤ length line.now }
    requires n_is_width { (1 ≤ n) × (n ≤ 8) }
    ensures place { IfSome result (λ from. from ≤ length line.now) }
    ensures same_length { length arguments.new.octets.now ≡ length arguments.old.octets.now }
{
    let read = digits_at(line, word);
    let number = digits_value(line, word, read)?;
    store_value(number, n, arguments)?;
    Some(read.end)
}

// A flag, as the octet 0 or 1.
fn store_flag(word: &[u8], arguments: &mut OctetWriter) -> Option<()>
    ensures { length arguments.new.octets.now ≡ length arguments.old.octets.now }
{
    match word {
        b"0" => arguments.append(&[0]),
        b"1" => arguments.append(&[1]),
        _ => return None,
    }
    Some(())
}

// Octets, as many as there are; answers how many.
fn store_octets(word: &[u8], arguments: &mut OctetWriter) -> Option<usize>
    ensures { length arguments.new.octets.now ≡ length arguments.old.octets.now }
{
    let at = arguments.end;
    let count = word_octets(word, &mut arguments.octets[at..])?;
    arguments.end = at + count;
    Some(count)
}

// An address: six octets.
fn store_address(word: &[u8], arguments: &mut OctetWriter) -> Option<()>
    ensures { length arguments.new.octets.now ≡ length arguments.old.octets.now }
{
    if store_octets(word, arguments)? == 6 {
        Some(())
    } else {
        None
    }
}

// The length that a name states before its octets, which begin at `start`; without one, how many they are.
fn stated_len(word: &[u8], start: usize, count: usize) -> Option<u8>
    requires { start ≤ length word.now }
{
    if start == 0 {
        return u8::try_from(count).ok();
    }
    u8::try_from(decimal(&word[..start - 1])?).ok()
}

// A name: its stated length, and 64 octets, of which those behind the name are 0.
fn store_name(word: &[u8], arguments: &mut OctetWriter) -> Option<()>
    ensures { length arguments.new.octets.now ≡ length arguments.old.octets.now }
{
    if arguments.room() < 65 {
        return None;
    }
    let mut name = [0u8; 64];
    let start = name_start(word);
    let count = word_octets(&word[start..], &mut name)?;
    let len = stated_len(word, start, count)?;
    arguments.append(&[len]);
    arguments.append(&name);
    Some(())
}

// An argument of a kind that is no number's. Its word begins at a place of a line; answers the place behind it.
fn store_word(kind: Kind, line: &[u8], at: usize, arguments: &mut OctetWriter) -> Option<usize>
    requires { at ≤ length line.now }
    ensures place { IfSome result (λ from. from ≤ length line.now) }
    ensures same_length { length arguments.new.octets.now ≡ length arguments.old.octets.now }
{
    let end = word_end(line, at);
    let word = &line[at..end];
    match kind {
        Kind::Flag => store_flag(word, arguments)?,
        Kind::Address => store_address(word, arguments)?,
        Kind::Name => store_name(word, arguments)?,
        _ => {
            store_octets(word, arguments)?;
        }
    }
    Some(end)
}

// An argument of a kind. Its word begins at a place of a line; answers the place behind it.
pub fn store_argument(
    kind: Kind,
    line: &[u8],
    word: usize,
    arguments: &mut OctetWriter,
) -> Option<usize>
    requires { word ≤ length line.now }
    ensures place { IfSome result (λ from. from ≤ length line.now) }
    ensures same_length { length arguments.new.octets.now ≡ length arguments.old.octets.now }
{
    match kind {
        Kind::U8 => store_number(line, word, 1, arguments),
        Kind::U16 => store_number(line, word, 2, arguments),
        Kind::U32 => store_number(line, word, 4, arguments),
        Kind::U64 => store_number(line, word, 8, arguments),
        _ => store_word(kind, line, word, arguments),
    }
}
