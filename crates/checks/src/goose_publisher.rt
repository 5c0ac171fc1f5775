// GOOSE publishers, carried over from industrial/iec61850-monitor/src/lib.rs of craton-shield a31d888527 (Apache-2.0) and changed: addresses,
// the key columns of a table by name, and the count behind them.
#![tactic(auto, unfolding(crate::specs::GoosePublisher::goose_fits_at, crate::specs::GoosePublisher::with_goose_publisher))]

ghost use Rattle.std.specs.Prelude.{◌≡◌, ◌≤◌, length};
ghost use Rattle.checks.specs.GoosePublisher.{goose_fits_at, goose_publisher, with_goose_publisher, goose_added};

use crate::keys::publisher_key;
use crate::rules::{PUBLISHER_KEYS, add_answer, rule_count};
use records::error::VsError;
use tables::column::{set_word, word};
use tables::named::{has_key, store_key};

// Where the lengths of names and the count stand.
const LENGTHS: usize = 32;

const COUNT: usize = 176;

// Whether the rule at a place fits an address and a control block's name.
fn fits_at(t: &[u64], place: usize, address: u64, name: &[u64; 10]) -> bool
    requires { length t.now ≡ 177 }
    ensures { result ≡ goose_fits_at t.now address name.now place }
{
    if word(t, 0, place) != address {
        return false;
    }
    if word(t, LENGTHS, place) == 0 {
        return true;
    }
    has_key(t, PUBLISHER_KEYS, place, name)
}

// The place of the first rule that fits.
pub fn goose_publisher(t: &[u64], address: u64, name: &[u64; 10]) -> Option<usize>
    requires { length t.now ≡ 177 }
    ensures { result ≡ goose_publisher t.now address name.now }
{
    let n = rule_count(t[COUNT]);
    let mut place = None;
    for i in 0..n {
        if fits_at(t, i, address, name) {
            place = Some(i);
            break;
        }
    }
    place
}

// Stores one more rule, behind the others.
fn store_goose_publisher(t: &mut [u64], slot: usize, address: u64, name: &[u64; 10])
    requires { (length t.old ≡ 177) × (slot ≤ 16) }
    ensures { t.new ≡ with_goose_publisher t.old slot address name.now }
{
    set_word(t, 0, slot, address);
    store_key(t, PUBLISHER_KEYS, slot, name);
    t[COUNT] = (slot as u64) + 1;
}

// Adds a rule; a refused one changes nothing.
pub fn add_goose_publisher_in(t: &mut [u64], address: u64, name: &[u8]) -> Result<(), VsError>
    requires { length t.old ≡ 177 }
    ensures { record { rules = t.new; answer = result } ≡ goose_added t.old address name.now }
{
    let count = t[COUNT];
    add_answer(count, name.len())?;
    let key = publisher_key(name);
    store_goose_publisher(t, rule_count(count), address, &key);
    Ok(())
}
