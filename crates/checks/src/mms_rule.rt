// MMS rules, carried over from industrial/iec61850-monitor/src/lib.rs of craton-shield a31d888527 (Apache-2.0) and changed: columns of
// masks, read-only flags and rates, and the count behind them; no flag for a rule below the count, since it is always there.
ghost use Rattle.std.specs.Prelude.{◌≡◌, ◌≤◌, length};
ghost use Rattle.checks.specs.MmsRule.{has_bit, applies, first_rule, rule_read_only, rule_rate, with_mms_rule, mms_added};

use crate::rules::{add_answer, rule_count};
use records::error::VsError;
use tables::column::{set_word, word, word16};

// Where read-only flags, rates and count stand, behind the masks.
const READ_ONLY: usize = 16;

const RATES: usize = 32;

const COUNT: usize = 48;

// Whether a mask has the bit of a raw number; only numbers below 16 have one.
#[tactic(auto, unfolding(crate::specs::MmsRule::has_bit))]
pub fn has_bit(mask: u64, raw: u8) -> bool
    ensures { result ≡ has_bit mask raw }
{
    raw < 16 && (mask >> raw) % 2 == 1
}

// Whether a rule of this mask applies to a raw number.
#[tactic(auto, unfolding(crate::specs::MmsRule::applies))]
pub fn applies(mask: u64, raw: u8) -> bool
    ensures { result ≡ applies mask raw }
{
    mask == 0xFFFF || has_bit(mask, raw)
}

// The place of the first rule that applies.
pub fn first_rule(t: &[u64], raw: u8) -> Option<usize>
    requires { length t.now ≡ 49 }
    ensures { result ≡ first_rule t.now raw }
{
    let n = rule_count(t[COUNT]);
    let mut place = None;
    for i in 0..n {
        if applies(t[i], raw) {
            place = Some(i);
            break;
        }
    }
    place
}

// Whether the rule at a place is read-only.
pub fn rule_read_only(t: &[u64], place: usize) -> bool
    requires { length t.now ≡ 49 }
    ensures { result ≡ rule_read_only t.now place }
{
    word(t, READ_ONLY, place) != 0
}

// Its rate.
pub fn rule_rate(t: &[u64], place: usize) -> u16
    requires { length t.now ≡ 49 }
    ensures { result ≡ rule_rate t.now place }
{
    word16(t, RATES, place)
}

// Stores one more rule, behind the others.
#[tactic(auto, using(crate::proofs::RuleLaws::flag_is), unfolding(crate::specs::MmsRule::with_mms_rule))]
fn store_mms_rule(t: &mut [u64], slot: usize, mask: u16, read_only: bool, rate: u16)
    requires { (length t.old ≡ 49) × (slot ≤ 16) }
    ensures { t.new ≡ with_mms_rule t.old slot mask read_only rate }
{
    set_word(t, 0, slot, mask as u64);
    set_word(t, READ_ONLY, slot, u64::from(read_only));
    set_word(t, RATES, slot, rate as u64);
    t[COUNT] = (slot as u64) + 1;
}

// Adds a rule; a refused one changes nothing.
pub fn add_mms_rule_in(t: &mut [u64], mask: u16, read_only: bool, rate: u16) -> Result<(), VsError>
    requires { length t.old ≡ 49 }
    ensures { record { rules = t.new; answer = result } ≡ mms_added t.old mask read_only rate }
{
    let count = t[COUNT];
    add_answer(count, 0)?;
    store_mms_rule(t, rule_count(count), mask, read_only, rate);
    Ok(())
}
