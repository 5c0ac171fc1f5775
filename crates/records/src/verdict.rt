// Verdicts as eight octets, for hosts, of the frames of a batch and of a frame in place: allowed, the number of alerts, and of each of the first
// three slots the code's number and the severity's. No inspection has more than three alerts.
ghost use Rattle.std.specs.Prelude.{◌≡◌};
ghost use Rattle.records.specs.Octets.{octet_at, overwritten};

use crate::octets::put_octets;

// Puts a verdict from a place on, as far as there is room.
pub fn put_verdict(verdicts: &mut [u8], at: usize, verdict: [u8; 8])
    ensures { verdicts.new ≡ overwritten verdicts.old at (octet_at verdict) 8 }
{
    put_octets(verdicts, at, &verdict);
}
