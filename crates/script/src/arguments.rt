// The arguments of a call, out of the octets that were stored. Those that are not there count as 0.
ghost use Rattle.std.specs.Prelude.{◌≡◌, drop};
ghost use Rattle.std.specs.Int.{from_be_bytes, w16, w32, w64};
ghost use Rattle.script.specs.Arguments.{octets_from};

use records::octets::octet_at;

// N octets from a place on.
pub fn octets_at<const N: usize>(arguments: &[u8], at: usize) -> [u8; N]
    ensures { result ≡ octets_from N arguments.now at }
{
    let part = rest_at(arguments, at);
    if let Some(octets) = part.first_chunk::<N>() {
        return *octets;
    }
    let mut octets = [0; N];
    octets[..part.len()].copy_from_slice(part);
    octets
}

// Numbers of two, four and eight octets: each is one call of its type.
pub fn u16_at(arguments: &[u8], at: usize) -> u16
    ensures { result ≡ from_be_bytes w16 (octets_from 2 arguments.now at) }
{
    u16::from_be_bytes(octets_at(arguments, at))
}

pub fn u32_at(arguments: &[u8], at: usize) -> u32
    ensures { result ≡ from_be_bytes w32 (octets_from 4 arguments.now at) }
{
    u32::from_be_bytes(octets_at(arguments, at))
}

pub fn u64_at(arguments: &[u8], at: usize) -> u64
    ensures { result ≡ from_be_bytes w64 (octets_from 8 arguments.now at) }
{
    u64::from_be_bytes(octets_at(arguments, at))
}

// A flag is any octet but 0.
pub fn flag_at(arguments: &[u8], at: usize) -> bool {
    octet_at(arguments, at) != 0
}

// What there is from a place on.
pub fn rest_at<'a>(arguments: &'a [u8], at: usize) -> &'a [u8]
    ensures { result.now ≡ drop at arguments.now }
{
    &arguments[at.min(arguments.len())..]
}
