// The slot that a frame of a key uses, over the kind of key: the one that has the key, or the one that a new key takes.
ghost use Rattle.std.specs.Prelude.{◌≡◌, ◌<◌, ◌≤◌, length};
ghost use Rattle.tables.specs.Place.{KeyColumns, KeyLaws, found, entered};

use crate::order::{new_slot, rank_at, use_slot};

// The slot, and whether it had the key before: there is one in both cases, so it is no Option.
#[derive(Clone, Copy)]
pub struct Place {
    pub slot: usize,
    pub known: bool,
}

// A kind of key: where a table has its keys, behind the ranks.
pub trait Key {
    ghost columns: { KeyColumns Self };

    // Whether a slot has this key.
    fn is_at(&self, t: &[u64], slot: usize) -> bool
        requires { (columns.values ≤ length t.now) × (slot < 16) }
        ensures { result ≡ columns.matches t.now self.now slot };

    // Stores this key in a slot.
    fn store_at(&self, t: &mut [u64], slot: usize)
        requires { columns.values ≤ length t.old }
        ensures { t.new ≡ columns.stored t.old slot self.now };

    ghost laws: { KeyLaws columns };
}

// The first slot in use that has this key.
pub fn find<K: Key>(t: &[u64], key: &K) -> Option<usize>
    requires { K.columns.values ≤ length t.now }
    ensures { result ≡ found K.columns t.now key.now }
{
    let mut place = None;
    for i in 0..16 {
        if key.is_at(t, i) && rank_at(t, i) < 16 {
            place = Some(i);
            break;
        }
    }
    place
}

// A frame of a key: uses its slot, and for a new key the slot that it takes, where the key is then stored.
pub fn enter<K: Key>(t: &mut [u64], key: &K) -> Place
    requires { K.columns.values ≤ length t.old }
    ensures entered { record { table = t.new; place = result } ≡ entered K.columns t.old key.now }
    ensures below { result.slot < 16 }
{
    match find(t, key) {
        Some(slot) => {
            use_slot(t, slot);
            Place { slot, known: true }
        }
        None => {
            let slot = new_slot(t);
            key.store_at(t, slot);
            use_slot(t, slot);
            Place { slot, known: false }
        }
    }
}
