// Tables by name: ranks, sums, lengths, names of eight words each, values. A key is ten words (key.rt).
#![tactic(auto, unfolding(crate::specs::Named::has_key, crate::specs::Named::key_stored))]

ghost use Rattle.std.specs.Prelude.{◌≡◌, ◌+◌, ◌≤◌, length, slice_index};
ghost use Rattle.records.specs.Octets.{agree, overwritten};
ghost use Rattle.tables.specs.Named.{has_key, key_stored, named};
ghost use Rattle.tables.specs.KeyLaws.{named_key_laws};

use crate::place::Key;

// Where the keys of a table begin, and behind them the values.
pub const KEYS: usize = 2;

pub const VALUES: usize = 162;

// Where lengths and names stand behind the sums.
const LENGTHS: usize = 16;

const NAMES: usize = 32;

// Whether the eight words from a start on are those of a key's name. Not `==` of slices, which took 35 instructions more of 116 for a frame.
fn has_name(t: &[u64], start: usize, key: &[u64; 10]) -> bool
    requires { start + 8 ≤ length t.now }
    ensures { result ≡ agree (λ k. slice_index t.now (start + k)) (λ k. slice_index key.now (k + 2)) 8 }
{
    for k in 0..8 {
        if t[start + k] != key[k + 2] {
            return false;
        }
    }
    true
}

// Whether a slot has this key, in key columns from a start on; a slot of 16 or more has none.
pub fn has_key(t: &[u64], start: usize, slot: usize, key: &[u64; 10]) -> bool
    requires { start + 160 ≤ length t.now }
    ensures { result ≡ has_key start t.now key.now slot }
{
    if slot >= 16 {
        return false;
    }
    if t[start + slot] != key[0] {
        return false;
    }
    if t[start + LENGTHS + slot] != key[1] {
        return false;
    }
    has_name(t, start + NAMES + slot * 8, key)
}

// Stores the name of a key in the eight words from a start on.
fn store_name(t: &mut [u64], start: usize, key: &[u64; 10])
    requires { start + 8 ≤ length t.old }
    ensures { t.new ≡ overwritten t.old start (λ k. slice_index key.now (k + 2)) 8 }
{
    t[start..start + 8].copy_from_slice(&key[2..]);
}

// Stores a key in a slot; a slot of 16 or more changes nothing.
pub fn store_key(t: &mut [u64], start: usize, slot: usize, key: &[u64; 10])
    requires { start + 160 ≤ length t.old }
    ensures { t.new ≡ key_stored start t.old slot key.now }
{
    if slot >= 16 {
        return;
    }
    t[start + slot] = key[0];
    t[start + LENGTHS + slot] = key[1];
    store_name(t, start + NAMES + slot * 8, key);
}

// The columns of keys by name stand from word 2 on.
impl Key for [u64; 10] {
    ghost columns = { named };

    fn is_at(&self, t: &[u64], slot: usize) -> bool {
        has_key(t, KEYS, slot, self)
    }

    fn store_at(&self, t: &mut [u64], slot: usize) {
        store_key(t, KEYS, slot, self);
    }

    ghost laws = { named_key_laws };
}
