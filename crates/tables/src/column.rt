// The words of a slot in the columns of single words, sixteen of them, one for each slot.
#![tactic(auto, unfolding(crate::specs::Column::word_of, crate::specs::Column::word_set))]

ghost use Rattle.std.specs.Prelude.{◌≡◌, ◌+◌, ◌≤◌, min, length};
ghost use Rattle.tables.specs.Column.{word_of, word_set, zero_words};

// The word of a slot in the column that begins there; a slot of 16 or more has 0.
pub fn word(t: &[u64], column: usize, slot: usize) -> u64
    requires { column + 16 ≤ length t.now }
    ensures { result ≡ word_of t.now column slot }
{
    if slot >= 16 {
        return 0;
    }
    t[column + slot]
}

// A word as a number of 16 bits, 65535 where it has more.
pub fn narrowed(x: u64) -> u16
    ensures { result ≡ min x 65535 }
{
    u16::try_from(x).unwrap_or(u16::MAX)
}

// The word of a slot as such a number.
pub fn word16(t: &[u64], column: usize, slot: usize) -> u16
    requires { column + 16 ≤ length t.now }
    ensures { result ≡ min (word_of t.now column slot) 65535 }
{
    narrowed(word(t, column, slot))
}

// Sets that word; a slot of 16 or more changes nothing.
pub fn set_word(t: &mut [u64], column: usize, slot: usize, v: u64)
    requires { column + 16 ≤ length t.old }
    ensures { t.new ≡ word_set t.old column slot v }
{
    if slot >= 16 {
        return;
    }
    t[column + slot] = v;
}

// Sets every word to 0.
pub fn zero_words(t: &mut [u64])
    ensures { t.new ≡ zero_words (length t.old) }
{
    t.fill(0);
}
