// Octets, numbers and flags put into a line or into a call's arguments, behind what was put before. What there is no room for is not put.
ghost use Rattle.std.specs.Prelude.{◌≡◌, ◌+◌, ◌≤◌, ◌++◌, ◌↔◌, length, take, IsOk};
ghost use Rattle.text.specs.Writer.{appended};

use std::fmt::{self, Write};

// The octets that are put stand in a buffer that is lent, before `end`.
#[derive(Drop)]
pub struct OctetWriter<'a> {
    pub octets: &'a mut [u8],
    pub end: usize,
    pub ghost in_bounds: { end ≤ length octets.now },
}

impl<'a> OctetWriter<'a> {
    // A writer at the start of a buffer.
    pub fn new(octets: &'a mut [u8]) -> Self
        ensures end { result.end ≡ 0 }
        ensures octets { result.octets.now ≡ octets.old }
    {
        OctetWriter { octets, end: 0 }
    }

    // What was put.
    pub fn written(&self) -> &[u8]
        ensures { result.now ≡ take self.now.end self.now.octets.now }
    {
        &self.octets[..self.end]
    }

    // How many octets there is room for.
    pub fn room(&self) -> usize
        ensures { result + self.now.end ≡ length self.now.octets.now }
    {
        self.octets.len() - self.end
    }

    // Goes back to the start of the buffer.
    pub fn clear(&mut self)
        ensures end { self.new.end ≡ 0 }
        ensures octets { self.new.octets.now ≡ self.old.octets.now }
    {
        self.end = 0;
    }

    // Puts octets as they are.
    pub fn append(&mut self, octets: &[u8])
        ensures same_length { length self.new.octets.now ≡ length self.old.octets.now }
        ensures written { take self.new.end self.new.octets.now ≡ appended self.old.octets.now self.old.end octets.now }
    {
        if octets.len() > self.room() {
            return;
        }
        let end = self.end + octets.len();
        self.octets[self.end..end].copy_from_slice(octets);
        self.end = end;
    }

    // Puts the decimal digits of a number, of which it has 20 at most.
    // Not inlined: in `put_number`, which is short then, the word's length stays known.
    #[inline(never)]
    fn put_digits(&mut self, number: u64)
        ensures { length self.new.octets.now ≡ length self.old.octets.now }
    {
        let mut buffer = [0u8; 20];
        let mut digits = OctetWriter::new(&mut buffer);
        let _ = write!(digits, "{number}");
        self.append(digits.written());
    }

    // Puts a word and a number's decimal digits. Most numbers have one.
    pub fn put_number(&mut self, word: &[u8], number: u64)
        ensures { length self.new.octets.now ≡ length self.old.octets.now }
    {
        self.append(word);
        if number < 10 {
            self.append(&[b'0' + number as u8]);
        } else {
            self.put_digits(number);
        }
    }

    // Puts a word and 1 or 0.
    pub fn put_flag(&mut self, word: &[u8], flag: bool)
        ensures { length self.new.octets.now ≡ length self.old.octets.now }
    {
        self.append(word);
        self.append(if flag { b"1" } else { b"0" });
    }

    // Puts a space and each octet as two hexadecimal digits.
    pub fn put_hex(&mut self, octets: &[u8])
        ensures { length self.new.octets.now ≡ length self.old.octets.now }
    {
        self.append(b" ");
        if octets.len() > self.room() / 2 {
            return;
        }
        let end = self.end + 2 * octets.len();
        write_hex(octets, &mut self.octets[self.end..end]);
        self.end = end;
    }
}

impl fmt::Write for OctetWriter<'_> {
    ghost write_str_gives = { λ s bytes t. take t.end t.octets.now ≡ take s.end s.octets.now ++ bytes };

    fn write_str(&mut self, text: &str) -> fmt::Result
        ensures written { take self.new.end self.new.octets.now ≡ appended self.old.octets.now self.old.end text.now }
        ensures variant { IsOk result ↔ (self.old.end + length text.now ≤ length self.old.octets.now) }
        ensures ok { IsOk result → take self.new.end self.new.octets.now ≡ take self.old.end self.old.octets.now ++ text.now }
    {
        if text.len() > self.room() {
            return Err(fmt::Error);
        }
        self.append(text.as_bytes());
        Ok(())
    }
}

// The hexadecimal digit of a number below 16.
fn hex_digit(n: u8) -> u8
    requires { n ≤ 15 }
{
    if n < 10 { b'0' + n } else { b'a' - 10 + n }
}

// Writes two digits for each octet. Not by `write!` with `{octet:02x}`, which takes 11415 instructions for 64 octets, and this 193.
fn write_hex(octets: &[u8], digits: &mut [u8]) {
    for (pair, octet) in digits.chunks_exact_mut(2).zip(octets) {
        pair[0] = hex_digit(*octet / 16);
        pair[1] = hex_digit(*octet % 16);
    }
}
