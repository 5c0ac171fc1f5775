// What a word says: a decimal number, or octets as hexadecimal digits or as text.
ghost use Rattle.std.specs.Prelude.{◌+◌, ◌≤◌, length, IfSome};

// A hexadecimal digit's value, 16 if it is none. A number, and not by a `match`, which is a jump for each octet: `hex_octets` reads many at once
// (a line of mixed calls in 609 ns, by a `match` in 650).
fn hex_value(digit: u8) -> u8
    ensures { result ≤ 16 }
{
    let decimal = digit.wrapping_sub(b'0');
    let letter = (digit | 0x20).wrapping_sub(b'a');
    if decimal <= 9 {
        decimal
    } else if letter <= 5 {
        letter + 10
    } else {
        16
    }
}

// The number of 64 bits in 1 to 20 digits.
pub fn decimal(word: &[u8]) -> Option<u64> {
    if word.is_empty() || word.len() > 20 {
        return None;
    }
    let mut value: u64 = 0;
    for octet in word {
        let digit = char::from(*octet).to_digit(10)?;
        value = value.checked_mul(10)?.checked_add(u64::from(digit))?;
    }
    Some(value)
}

// The digits that stand in a line from a place on: their number, which counts if they are at most 19, and the place behind them.
#[derive(Clone, Copy)]
pub struct Digits {
    pub value: u64,
    pub end: usize,
}

// Reads the digits from a place on. The sums wrap behind 64 bits, which 19 digits do not reach.
pub fn digits_at(line: &[u8], at: usize) -> Digits
    requires { at ≤ length line.now }
    ensures { (at ≤ result.end) × (result.end ≤ length line.now) }
{
    let mut value: u64 = 0;
    for i in at..line.len() {
        let digit = line[i] ^ b'0';
        if digit > 9 {
            return Digits { value, end: i };
        }
        value = value.wrapping_mul(10).wrapping_add(u64::from(digit));
    }
    Digits {
        value,
        end: line.len(),
    }
}

// Octets as pairs of hexadecimal digits: how many. All pairs are read before a digit that is none counts, so that many can be at once.
fn hex_octets(word: &[u8], out: &mut [u8]) -> Option<usize>
    ensures { IfSome result (λ n. n ≤ length out.new) }
{
    let (pairs, rest) = word.as_chunks::<2>();
    if !rest.is_empty() || pairs.len() > out.len() {
        return None;
    }
    let mut most = 0;
    for (i, pair) in pairs.iter().enumerate() {
        let high = hex_value(pair[0]);
        let low = hex_value(pair[1]);
        most |= high | low;
        out[i] = (high << 4) | low;
    }
    if most > 15 { None } else { Some(pairs.len()) }
}

// Whether text may have an octet: printable ASCII but the space and the quotation mark.
fn is_text(octet: u8) -> bool {
    octet.is_ascii_graphic() & (octet != b'"')
}

// Octets as they stand between quotation marks: how many. All are looked at, so that many can be at once.
fn text_octets(text: &[u8], out: &mut [u8]) -> Option<usize>
    ensures { IfSome result (λ n. n ≤ length out.new) }
{
    let n = text.len();
    let good = text.iter().fold(true, |good, octet| good & is_text(*octet));
    if !good || n > out.len() {
        return None;
    }
    out[..n].copy_from_slice(text);
    Some(n)
}

// The octets of a word, at the start of `out`, which they may not pass: how many.
pub fn word_octets(word: &[u8], out: &mut [u8]) -> Option<usize>
    ensures { IfSome result (λ n. n ≤ length out.new) }
{
    match word {
        [] => None,
        b"-" => Some(0),
        [b'"', text @ .., b'"'] => text_octets(text, out),
        [b'"', ..] => None,
        _ => hex_octets(word, out),
    }
}

// Where the octets of a name begin: behind the colon of its stated length, or at its start. Text may have a colon too. No stated length
// has more than 20 digits.
pub fn name_start(word: &[u8]) -> usize
    ensures { result ≤ length word.now }
{
    if word.first() == Some(&b'"') {
        return 0;
    }
    match word.iter().take(21).position(|octet| *octet == b':') {
        Some(i) => i + 1,
        None => 0,
    }
}
