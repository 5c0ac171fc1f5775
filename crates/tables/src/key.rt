// Keys of tables by name: a number and a name of at most 64 octets as ten words.
ghost use Rattle.std.specs.Prelude.{◌≡◌, ◌+◌, ◌*◌, ◌%◌, ◌^◌, ◌≤◌};
ghost use Rattle.records.specs.Name.{name_of};
ghost use Rattle.records.specs.Octets.{octet_at};
ghost use Rattle.tables.specs.Key.{key_of};
ghost use Rattle.tables.specs.Packed.{packed};

use records::name::{padded, valid_len};

// Two, four and eight octets as a number, least significant octet first. Sums of products in this shape are compiled to one load; of those of
// `u64::from_le_bytes` the octets go through memory, 9 instructions more for a frame.
fn u16_from_le(a: u8, b: u8) -> u64
    ensures { result ≡ a + 256 * b }
{
    (a as u64) + 256 * (b as u64)
}

fn u32_from_le(a: u8, b: u8, c: u8, d: u8) -> u64
    ensures { result ≡ a + 256 * (b + 256 * (c + 256 * d)) }
{
    u16_from_le(a, b) + 65536 * u16_from_le(c, d)
}

fn u64_from_le(a: u8, b: u8, c: u8, d: u8, e: u8, f: u8, g: u8, h: u8) -> u64
    ensures { result ≡ a + 256 * (b + 256 * (c + 256 * (d + 256 * (e + 256 * (f + 256 * (g + 256 * h)))))) }
{
    u32_from_le(a, b, c, d) + 4294967296 * u32_from_le(e, f, g, h)
}

// The word of eight octets from a start on.
fn word_at(octets: &[u8; 64], start: usize) -> u64
    requires { start ≤ 56 }
    ensures { result ≡ packed (λ j. octet_at octets.now (start + j)) 8 }
{
    u64_from_le(
        octets[start],
        octets[start + 1],
        octets[start + 2],
        octets[start + 3],
        octets[start + 4],
        octets[start + 5],
        octets[start + 6],
        octets[start + 7],
    )
}

// The sum of a number and four words.
fn sum_of(number: u64, a: u64, b: u64, c: u64, d: u64) -> u64
    ensures { result ≡ ((((number + a) % 2 ^ 64 + b) % 2 ^ 64 + c) % 2 ^ 64 + d) % 2 ^ 64 }
{
    number
        .wrapping_add(a)
        .wrapping_add(b)
        .wrapping_add(c)
        .wrapping_add(d)
}

// The key of a number and of the name that a frame states. The name is padded first: eight whole words are then read without a test. The key of an
// empty name is made at once.
pub fn name_key(number: u64, octets: &[u8; 64], len: u8) -> [u64; 10]
    ensures { result ≡ key_of number (name_of octets.now len) }
{
    if len == 0 {
        return [number, 0, 0, 0, 0, 0, 0, 0, 0, 0];
    }
    let valid = valid_len(len);
    let name = padded(octets, valid);
    let mut key = [0u64; 10];
    for k in 0..8 {
        key[k + 2] = word_at(&name, k * 8);
    }
    key[0] = sum_of(number, key[2], key[3], key[4], key[5]);
    key[1] = u64::from(valid);
    key
}
