// SV publishers, carried over from industrial/iec61850-monitor/src/lib.rs of craton-shield a31d888527 (Apache-2.0) and changed: addresses,
// the key columns of a table by name, rates, and the count behind them.
#![tactic(auto, unfolding(crate::specs::SvPublisher::with_sv_publisher))]

ghost use Rattle.std.specs.Prelude.{◌≡◌, ◌≤◌, length};
ghost use Rattle.checks.specs.SvPublisher.{match_at, sv_publisher, publisher_rate, with_sv_publisher, sv_added};

use crate::keys::publisher_key;
use crate::rules::{PUBLISHER_KEYS, add_answer, rule_count};
use records::error::VsError;
use tables::column::{set_word, word16};
use tables::named::{has_key, store_key};

// Where rates and count stand.
const RATES: usize = 176;

const COUNT: usize = 192;

// Why no rule fits a frame's svID and address.
#[derive(Clone, Copy)]
pub enum PublisherMismatch {
    NotRegistered,
    WrongAddress,
}

// The last place that fits, or why there is none.
fn match_at(is_registered: bool, place: Option<usize>) -> Result<usize, PublisherMismatch>
    ensures { result ≡ match_at is_registered place }
{
    place.ok_or(if is_registered {
        PublisherMismatch::WrongAddress
    } else {
        PublisherMismatch::NotRegistered
    })
}

// How an svID and an address match the rules. Every rule is compared, since the last that fits counts.
pub fn sv_publisher(t: &[u64], address: u64, svid: &[u64; 10]) -> Result<usize, PublisherMismatch>
    requires { length t.now ≡ 193 }
    ensures { result ≡ sv_publisher t.now address svid.now }
{
    let n = rule_count(t[COUNT]);
    let mut is_registered = false;
    let mut place = None;
    for i in 0..n {
        if has_key(t, PUBLISHER_KEYS, i, svid) {
            is_registered = true;
            if t[i] == address {
                place = Some(i);
            }
        }
    }
    match_at(is_registered, place)
}

// The rate of the rule at a place.
pub fn publisher_rate(t: &[u64], place: usize) -> u16
    requires { length t.now ≡ 193 }
    ensures { result ≡ publisher_rate t.now place }
{
    word16(t, RATES, place)
}

// Stores one more rule, behind the others.
fn store_sv_publisher(t: &mut [u64], slot: usize, address: u64, svid: &[u64; 10], rate: u16)
    requires { (length t.old ≡ 193) × (slot ≤ 16) }
    ensures { t.new ≡ with_sv_publisher t.old slot address svid.now rate }
{
    set_word(t, 0, slot, address);
    store_key(t, PUBLISHER_KEYS, slot, svid);
    set_word(t, RATES, slot, rate as u64);
    t[COUNT] = (slot as u64) + 1;
}

// Adds a rule; a refused one changes nothing.
pub fn add_sv_publisher_in(
    t: &mut [u64],
    address: u64,
    svid: &[u8],
    rate: u16,
) -> Result<(), VsError>
    requires { length t.old ≡ 193 }
    ensures { record { rules = t.new; answer = result } ≡ sv_added t.old address svid.now rate }
{
    let count = t[COUNT];
    add_answer(count, svid.len())?;
    let key = publisher_key(svid);
    store_sv_publisher(t, rule_count(count), address, &key, rate);
    Ok(())
}
