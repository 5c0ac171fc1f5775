// The Ethernet header of a sampled-values or GOOSE frame, carried over from `parse_sv` in industrial/iec61850-monitor/src/lib.rs of
// craton-shield a31d888527 (Apache-2.0) and changed: a function over the EtherType.
ghost use Rattle.std.specs.Prelude.{◌≡◌};
ghost use Rattle.wire.specs.Header.{appid_at, apdu_of, source_of, header};

use crate::number::pair_at;
use records::octets::octet_at;

pub const ETHERTYPE_SV: u16 = 0x88ba;

pub const ETHERTYPE_VLAN_8021Q: u16 = 0x8100;

// Where the APDU of a frame starts and ends.
#[derive(Clone, Copy)]
pub struct Apdu {
    pub start: usize,
    pub end: usize,
}

// The source address and the APDU.
#[derive(Clone, Copy)]
pub struct Header {
    pub src_mac: [u8; 6],
    pub apdu: Apdu,
}

// Where APPID stands: behind the EtherType, and behind one 802.1Q tag if there is one.
pub fn appid_at(bytes: &[u8]) -> u8
    ensures { result ≡ appid_at bytes.now }
{
    if pair_at(bytes, 12) == ETHERTYPE_VLAN_8021Q {
        return 18;
    }
    14
}

// Where the APDU of a frame of this EtherType starts and ends.
pub fn apdu_of(bytes: &[u8], ethertype: u16) -> Option<Apdu>
    ensures { result ≡ apdu_of ethertype bytes.now }
{
    let at = appid_at(bytes);
    let start = at as usize;
    if bytes.len() < start + 8 {
        return None;
    }
    if pair_at(bytes, at - 2) != ethertype {
        return None;
    }
    let length = pair_at(bytes, at + 2) as usize;
    if length < 8 {
        return None;
    }
    if bytes.len() < start + length {
        return None;
    }
    Some(Apdu {
        start: start + 8,
        end: start + length,
    })
}

// The source address, octets 6 to 11; as an array::from_fn over octet_at the proof did not close.
pub fn source_of(bytes: &[u8]) -> [u8; 6]
    ensures { result ≡ source_of bytes.now }
{
    [
        octet_at(bytes, 6),
        octet_at(bytes, 7),
        octet_at(bytes, 8),
        octet_at(bytes, 9),
        octet_at(bytes, 10),
        octet_at(bytes, 11),
    ]
}

// The source address and the APDU of a frame of this EtherType.
pub fn ethernet_header(bytes: &[u8], ethertype: u16) -> Option<Header>
    ensures { result ≡ header ethertype bytes.now }
{
    let apdu = apdu_of(bytes, ethertype)?;
    Some(Header {
        src_mac: source_of(bytes),
        apdu,
    })
}
