// The fields of a struct in the octets that C lays it out in: in their order, numbers at places that are multiples of their size, least significant
// octet first.
ghost use Rattle.std.specs.Prelude.{◌+◌, ◌≤◌, ◌≡◌, length};
ghost use Rattle.lent.specs.Octets.{octets_at, number16, number32, number64};

// N octets from a place on.
pub fn octets_at<const N: usize>(octets: &[u8], at: usize) -> [u8; N]
    requires { at + N ≤ length octets.now }
    ensures { result ≡ octets_at octets.now at N }
{
    let mut out = [0; N];
    out.copy_from_slice(&octets[at..at + N]);
    out
}

// The number in two octets. These three stay apart: each is one call of its type, which a trait over the three would only wrap.
pub fn u16_at(octets: &[u8], at: usize) -> u16
    requires { at + 2 ≤ length octets.now }
    ensures { result ≡ number16 octets.now at }
{
    u16::from_le_bytes(octets_at(octets, at))
}

// The number in four octets.
pub fn u32_at(octets: &[u8], at: usize) -> u32
    requires { at + 4 ≤ length octets.now }
    ensures { result ≡ number32 octets.now at }
{
    u32::from_le_bytes(octets_at(octets, at))
}

// The number in eight octets.
pub fn u64_at(octets: &[u8], at: usize) -> u64
    requires { at + 8 ≤ length octets.now }
    ensures { result ≡ number64 octets.now at }
{
    u64::from_le_bytes(octets_at(octets, at))
}
