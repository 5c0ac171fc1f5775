// Octets read at a place, and put into a buffer that is lent, for every reader and writer.
ghost use Rattle.std.specs.Prelude.{◌≡◌, ◌+◌, ◌≤◌, length};
ghost use Rattle.records.specs.Octets.{octet_at, overwritten};

// The octet at a place, 0 past the end.
pub fn octet_at(bytes: &[u8], i: usize) -> u8
    ensures { result ≡ octet_at bytes.now i }
{
    bytes.get(i).copied().unwrap_or(0)
}

// Puts the first `n` octets from a place on, where there is room for them.
#[tactic(auto, using(crate::proofs::NameLaws::overwritten_copied))]
pub fn put_first(buffer: &mut [u8], at: usize, octets: &[u8], n: usize)
    requires { (n ≤ length octets.now) × (at + n ≤ length buffer.old) }
    ensures { buffer.new ≡ overwritten buffer.old at (octet_at octets.now) n }
{
    buffer[at..at + n].copy_from_slice(&octets[..n]);
}

// Puts octets from a place on, as far as there is room. Two calls, so that the compiler sees an array's length: eight octets are one store,
// 20 instructions and not 38 with one call of the smaller length.
#[tactic(auto, using(crate::proofs::NameLaws::overwritten_none, crate::proofs::NameLaws::overwritten_past))]
pub fn put_octets(buffer: &mut [u8], at: usize, octets: &[u8])
    ensures { buffer.new
        ≡ overwritten buffer.old at (octet_at octets.now) (length octets.now) }
{
    let len = buffer.len();
    if at > len {
        return;
    }
    let room = len - at;
    if room < octets.len() {
        put_first(buffer, at, octets, room);
    } else {
        put_first(buffer, at, octets, octets.len());
    }
}
