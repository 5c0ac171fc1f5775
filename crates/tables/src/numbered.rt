// Tables by number: ranks, numbers, values.
ghost use Rattle.tables.specs.Numbered.{numbered};
ghost use Rattle.tables.specs.KeyLaws.{numbered_key_laws};

use crate::column::set_word;
use crate::place::Key;

// Where the columns begin.
const NUMBERS: usize = 2;

pub const VALUES: usize = 18;

// The column of keys by number stands from word 2 on.
impl Key for u64 {
    ghost columns = { numbered };

    fn is_at(&self, t: &[u64], slot: usize) -> bool {
        t[NUMBERS + slot] == *self
    }

    fn store_at(&self, t: &mut [u64], slot: usize) {
        set_word(t, NUMBERS, slot, *self);
    }

    ghost laws = { numbered_key_laws };
}
