// Rule lists, carried over from industrial/iec61850-monitor/src/lib.rs of craton-shield a31d888527 (Apache-2.0) and changed: sixteen rules and
// their count as words. A count above 16, which no call leads to, counts as 16. The three searches and the three add calls differ in their columns and
// parameters: what they share is in the two functions here.
#![tactic(auto, unfolding(crate::specs::Rules::add_answer))]

ghost use Rattle.std.specs.Prelude.{◌≡◌};
ghost use Rattle.checks.specs.Rules.{rule_count, add_answer};

use records::error::VsError;

// Where the keys of publishers begin, behind sixteen addresses.
pub const PUBLISHER_KEYS: usize = 16;

// How many rules a count says; above 16 it counts as 16.
pub fn rule_count(count: u64) -> usize
    ensures { result ≡ rule_count count }
{
    count.min(16) as usize
}

// Whether a rule with a name of this length can be added: a full list is refused before a long name.
pub fn add_answer(count: u64, name_len: usize) -> Result<(), VsError>
    ensures { result ≡ add_answer count name_len }
{
    if count >= 16 {
        return Err(VsError::ResourceExhausted);
    }
    if name_len > 64 {
        return Err(VsError::InvalidInput);
    }
    Ok(())
}
