// The order of use of a table's slots, after the ageing of industrial/iec61850-monitor/src/lib.rs of craton-shield a31d888527 (Apache-2.0), changed:
// a rank for each slot in place of ticks. A table is a slice of words; the first two have the ranks, an octet for each slot, least significant octet first.
ghost use Rattle.std.specs.Prelude.{◌≡◌, ◌<◌, ◌≤◌, true, ◌&&◌, length, if◌then◌else◌, ◌==◌};
ghost use Rattle.tables.specs.Order.{rank_in, rank_of, free_slot, new_slot, raised, lowered, rank_set, used_slot, forgotten_slot};
ghost use Rattle.tables.specs.Order.{no_entries, all_free};
ghost use Rattle.tables.specs.Packed.{packed, octet_of, updated};

// The low seven bits of eight octets, their high bits, and an octet of 1 eight times.
const LOW: u64 = 0x7f7f7f7f7f7f7f7f;

const HIGH: u64 = 0x8080808080808080;

const ONES: u64 = 0x0101010101010101;

// Eight free slots.
const FREE: u64 = 0x1010101010101010;

// The rank at a place of a word.
fn rank_in(word: u64, place: usize) -> u64
    requires { place < 8 }
    ensures { result ≡ rank_in word place }
{
    (word >> (8 * place)) % 128
}

// The rank of a slot.
pub fn rank_at(t: &[u64], slot: usize) -> u64
    requires { (slot < 16) × (2 ≤ length t.now) }
    ensures { result ≡ rank_of t.now slot }
{
    rank_in(t[slot / 8], slot % 8)
}

// Whether both words of ranks are those of free slots; no slot is then in use.
pub fn no_entries(t: &[u64]) -> bool
    requires { 2 ≤ length t.now }
    ensures { result ≡ all_free t.now }
{
    if t[0] != FREE {
        return false;
    }
    t[1] == FREE
}

// The first free slot.
pub fn free_slot(t: &[u64]) -> Option<usize>
    requires { 2 ≤ length t.now }
    ensures { result ≡ free_slot (rank_of t.now) }
{
    let mut place = None;
    for i in 0..16 {
        if rank_at(t, i) >= 16 {
            place = Some(i);
            break;
        }
    }
    place
}

// The slot that a new key takes: the first of rank 15 or more, which is free or else the oldest, or the last slot.
pub fn new_slot(t: &[u64]) -> usize
    requires { 2 ≤ length t.now }
    ensures { result ≡ new_slot (rank_of t.now) }
{
    let mut slot = 15;
    for i in 0..15 {
        if rank_at(t, i) >= 15 {
            slot = i;
            break;
        }
    }
    slot
}

// The ranks of a word, without the high bits of its octets.
fn ranks(word: u64) -> u64
    ensures { result ≡ packed (rank_in word) 8 }
{
    word & LOW
}

// A word with the octet at a place, `old`, replaced.
fn with_octet(word: u64, place: usize, old: u64, octet: u64) -> u64
    requires { (place < 8) × (octet_of word place ≡ old) × (octet < 256) }
    ensures { result ≡ packed (updated (octet_of word) place octet) 8 }
{
    let at = 8 * place;
    word - (old << at) + (octet << at)
}

// Sets the rank of a slot, and the high bits of all octets to 0; a slot of 16 or more changes nothing.
pub fn set_rank(t: &mut [u64], slot: usize, rank: u64)
    requires { (2 ≤ length t.old) × (rank < 128) }
    ensures { t.new ≡ rank_set t.old slot rank }
{
    if slot >= 16 {
        return;
    }
    let old = rank_at(t, slot);
    t[0] = ranks(t[0]);
    t[1] = ranks(t[1]);
    t[slot / 8] = with_octet(t[slot / 8], slot % 8, old, rank);
}

// The ranks of a word after a use of a slot of rank `old`: those below are raised, all eight at once. Of an octet that has such a rank the sum with
// 128 - old leaves the high bit 0.
fn raised_word(old: u64, word: u64) -> u64
    requires { (1 ≤ old) × (old < 128) }
    ensures { result ≡ packed (λ j. raised old (rank_in word j)) 8 }
{
    let low = ranks(word);
    let not_below = (low + ONES * (128 - old)) & HIGH;
    low + (HIGH - not_below) / 128
}

// The same, and 0 at the place of the slot that is used, if it is one of the word's.
fn used_word(old: u64, word: u64, own: bool, place: usize) -> u64
    requires { (1 ≤ old) × (old < 128) × (place < 8) × (own ≡ true → rank_in word place ≡ old) }
    ensures { result ≡ packed (λ j. (if own && j == place then 0 else raised old (rank_in word j))) 8 }
{
    let raised = raised_word(old, word);
    if own {
        return with_octet(raised, place, old, 0);
    }
    raised
}

// Marks a use of a slot. A slot of 16 or more changes nothing, and neither does the slot that was used last, the commonest. Each word is stored once: a
// store into a part of it would hold up the next load of the whole.
pub fn use_slot(t: &mut [u64], slot: usize)
    requires { 2 ≤ length t.old }
    ensures { t.new ≡ used_slot t.old slot }
{
    if slot >= 16 {
        return;
    }
    let old = rank_at(t, slot);
    if old == 0 {
        return;
    }
    t[0] = used_word(old, t[0], slot / 8 == 0, slot % 8);
    t[1] = used_word(old, t[1], slot / 8 == 1, slot % 8);
}

// A rank after a slot of rank `old` is forgotten.
fn lowered(old: u64, rank: u64) -> u64
    ensures { result ≡ lowered old rank }
{
    if old < rank && rank < 16 {
        return rank - 1;
    }
    rank
}

// The ranks of a word after that, made from the last octet on.
fn lowered_word(old: u64, word: u64) -> u64
    ensures { result ≡ packed (λ j. lowered old (rank_in word j)) 8 }
{
    let mut out: u64 = 0;
    for k in (0..8).rev() {
        out = lowered(old, rank_in(word, k)) + 256 * out;
    }
    out
}

// Forgets the entry of a slot and closes up the ranks; a slot that is free, or of 16 or more, changes nothing.
pub fn forget_slot(t: &mut [u64], slot: usize)
    requires { 2 ≤ length t.old }
    ensures { t.new ≡ forgotten_slot t.old slot }
{
    if slot >= 16 {
        return;
    }
    let old = rank_at(t, slot);
    if old >= 16 {
        return;
    }
    t[0] = lowered_word(old, t[0]);
    t[1] = lowered_word(old, t[1]);
    t[slot / 8] = with_octet(t[slot / 8], slot % 8, old, 16);
}

// Makes a table one without entries: every slot free, every other word 0.
pub fn clear(t: &mut [u64])
    ensures { t.new ≡ no_entries (length t.old) }
{
    for (i, word) in t.iter_mut().enumerate() {
        *word = if i < 2 { FREE } else { 0 };
    }
}
