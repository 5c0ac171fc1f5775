// Reservations of control blocks, carried over from industrial/iec61850-monitor/src/lib.rs of craton-shield a31d888527 (Apache-2.0) and
// changed: a table by name, whose numbers are the kinds, 1 for GOOSE and 0 for SV. Entries are not aged: a slot in use has rank 0.
ghost use Rattle.std.specs.Prelude.{◌≡◌, ◌+◌, ◌≤◌, ◌<◌, length};
ghost use Rattle.tables.specs.Packed.{packed};
ghost use Rattle.checks.specs.Reservation.{bound_at, cb_checked, place_for, taken_at, reserved, owned_slot, freed_rank, all_freed, released};

use tables::column::{set_word, word};
use tables::named::VALUES;
use tables::order::{free_slot, rank_at, set_rank};
use tables::place::{Key, find};

// Where the clients stand, whether a reservation is bound, and to which address.
const OWNERS: usize = VALUES;

const BOUND: usize = VALUES + 16;

const ADDRESSES: usize = VALUES + 32;

// Binds a slot's reservation to the first address that uses it; another is a hijack.
#[tactic(auto, unfolding(crate::specs::Reservation::bound_at))]
fn bind_at(t: &mut [u64], slot: usize, address: u64) -> bool
    requires { length t.old ≡ 210 }
    ensures { record { table = t.new; hijack = result } ≡ bound_at t.old slot address }
{
    if word(t, BOUND, slot) == 0 {
        set_word(t, BOUND, slot, 1);
        set_word(t, ADDRESSES, slot, address);
        return false;
    }
    word(t, ADDRESSES, slot) != address
}

// The use of a control block by an address, and whether it is bound to another. An empty name is never looked up.
#[tactic(auto, unfolding(crate::specs::Reservation::cb_checked))]
pub fn check_cb_in(t: &mut [u64], key: &[u64; 10], address: u64) -> bool
    requires { length t.old ≡ 210 }
    ensures { record { table = t.new; hijack = result } ≡ cb_checked t.old key.now address }
{
    if key[1] == 0 {
        return false;
    }
    match find(t, key) {
        Some(i) => bind_at(t, i, address),
        None => false,
    }
}

// The slot that a SelectControl takes: the one of that name and kind, or the first free one. A closure for `or_else` would state the contract of
// `free_slot` again.
#[tactic(auto, unfolding(crate::specs::Reservation::place_for))]
fn place_for(t: &[u64], key: &[u64; 10]) -> Option<usize>
    requires { length t.now ≡ 210 }
    ensures { result ≡ place_for t.now key.now }
{
    match find(t, key) {
        Some(i) => Some(i),
        None => free_slot(t),
    }
}

// Takes a slot for a client's reservation, which is not bound.
#[tactic(auto, unfolding(crate::specs::Reservation::taken_at))]
fn take_at(t: &mut [u64], slot: usize, key: &[u64; 10], client: u32)
    requires { length t.old ≡ 210 }
    ensures { t.new ≡ taken_at t.old slot key.now client }
{
    key.store_at(t, slot);
    set_rank(t, slot, 0);
    set_word(t, OWNERS, slot, client as u64);
    set_word(t, BOUND, slot, 0);
    set_word(t, ADDRESSES, slot, 0);
}

// A SelectControl takes or takes over a name, the empty one too; a full table is left as it is. Answers whether it was taken.
#[tactic(auto, unfolding(crate::specs::Reservation::reserved))]
pub fn reserve_cb_in(t: &mut [u64], key: &[u64; 10], client: u32) -> bool
    requires { length t.old ≡ 210 }
    ensures { record { table = t.new; taken = result } ≡ reserved t.old key.now client }
{
    let Some(i) = place_for(t, key) else {
        return false;
    };
    take_at(t, i, key, client);
    true
}

// The first slot in use with this client's reservation of this name and kind.
fn owned_slot(t: &[u64], key: &[u64; 10], client: u32) -> Option<usize>
    requires { length t.now ≡ 210 }
    ensures { result ≡ owned_slot t.now key.now client }
{
    let mut place = None;
    for i in 0..16 {
        if key.is_at(t, i) && rank_at(t, i) < 16 && t[OWNERS + i] == (client as u64) {
            place = Some(i);
            break;
        }
    }
    place
}

// The rank of a slot, 16 if its client is this one.
fn freed_rank(t: &[u64], slot: usize, client: u32) -> u64
    requires { (length t.now ≡ 210) × (slot < 16) }
    ensures { result ≡ freed_rank t.now client slot }
{
    if t[OWNERS + slot] == (client as u64) {
        return 16;
    }
    rank_at(t, slot)
}

// The word of these ranks for eight slots, made from the last octet on.
fn freed_word(t: &[u64], start: usize, client: u32) -> u64
    requires { (length t.now ≡ 210) × (start ≤ 8) }
    ensures { result ≡ packed (λ j. freed_rank t.now client (start + j)) 8 }
{
    let mut out: u64 = 0;
    for k in (0..8).rev() {
        out = freed_rank(t, start + k, client) + 256 * out;
    }
    out
}

// Frees every slot of a client.
fn free_all(t: &mut [u64], client: u32)
    requires { length t.old ≡ 210 }
    ensures { t.new ≡ all_freed t.old client }
{
    let first = freed_word(t, 0, client);
    let second = freed_word(t, 8, client);
    t[0] = first;
    t[1] = second;
}

// A Cancel or Conclude frees a name of the same client, with an empty name all of that client's of both kinds.
#[tactic(auto, unfolding(crate::specs::Reservation::released))]
pub fn release_cb_in(t: &mut [u64], key: &[u64; 10], client: u32)
    requires { length t.old ≡ 210 }
    ensures { t.new ≡ released t.old key.now client }
{
    if key[1] == 0 {
        free_all(t, client);
        return;
    }
    if let Some(i) = owned_slot(t, key, client) {
        set_rank(t, i, 16);
    }
}
