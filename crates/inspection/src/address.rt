// Source addresses, carried over from industrial/iec61850-monitor/src/lib.rs of craton-shield a31d888527 (Apache-2.0) and
// changed: the six octets are kept as one number, so that a search compares numbers.
ghost use Rattle.std.specs.Prelude.{◌≡◌};
ghost use Rattle.inspection.specs.Address.{address_of};

// The 48-bit number of an Ethernet address. Four and two octets by themselves, since a processor reads either as one number.
pub fn address_of(mac: [u8; 6]) -> u64
    ensures { result ≡ address_of mac }
{
    let high = u32::from_be_bytes([mac[0], mac[1], mac[2], mac[3]]);
    let low = u16::from_be_bytes([mac[4], mac[5]]);
    (high as u64) * 0x1_0000 + (low as u64)
}
