// Numbers in octets, most significant octet first. Carried over from industrial/iec61850-monitor/src/lib.rs of craton-shield
// a31d888527 (Apache-2.0) and changed.
ghost use Rattle.std.specs.Prelude.{◌≡◌, take};
ghost use Rattle.wire.specs.Number.{big_endian, pair_at, unsigned_int};

use records::octets::octet_at;

// The number in two octets. The place is a `u8`, which a header's places fit, so that its sum with 1 fits.
pub fn pair_at(bytes: &[u8], i: u8) -> u16
    ensures { result ≡ pair_at bytes.now i }
{
    let at = i as usize;
    u16::from_be_bytes([octet_at(bytes, at), octet_at(bytes, at + 1)])
}

// The number in up to four octets; what follows them does not count.
pub fn big_endian(bytes: &[u8]) -> u32
    ensures { result ≡ big_endian (take 4 bytes.now) }
{
    let octets = &bytes[..bytes.len().min(4)];
    let mut value: u32 = 0;
    for octet in octets {
        value = value * 256 + u32::from(*octet);
    }
    value
}

// An unsigned integer of 1 to 4 octets and at most 65535.
pub fn decode_unsigned_int(content: &[u8]) -> Option<u16>
    ensures { result ≡ unsigned_int content.now }
{
    if content.is_empty() || content.len() > 4 {
        return None;
    }
    u16::try_from(big_endian(content)).ok()
}
