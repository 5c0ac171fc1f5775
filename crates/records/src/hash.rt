// Carried over from industrial/iec61850-monitor/src/lib.rs of craton-shield a31d888527 (Apache-2.0) and changed: the product
// modulo 2^32 is a function of its own.
ghost use Rattle.std.specs.Prelude.{◌≡◌, ◌*◌, ◌%◌, ◌^◌};
ghost use Rattle.records.specs.Hash.{hash_step, fnv1a};

// The low 32 bits of the product.
pub fn wrapping_mul_u32(a: u32, b: u32) -> u32
    ensures { result ≡ (a * b) % 2 ^ 32 }
{
    a.wrapping_mul(b)
}

// The hash after one more octet.
#[tactic(auto, unfolding(crate::specs::Hash::hash_step))]
pub fn fnv1a_step(hash: u32, octet: u8) -> u32
    ensures { result ≡ hash_step hash octet }
{
    wrapping_mul_u32(u32::from(octet) ^ hash, 0x0100_0193)
}

// FNV-1a of the octets, 32 bits.
#[tactic(auto, using(crate::proofs::HashLaws::hash_more, crate::proofs::HashLaws::hash_end), unfolding(crate::specs::Hash::fnv1a))]
pub fn fnv1a_32(bytes: &[u8]) -> u32
    ensures { result ≡ fnv1a bytes.now }
{
    let mut h: u32 = 0x811c_9dc5;
    for byte in bytes {
        h = fnv1a_step(h, *byte);
    }
    h
}
