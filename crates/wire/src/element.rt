// Elements (X.690: tag, length, content), carried over from `parse_tlv` and `decode_sv_apdu` in industrial/iec61850-monitor/src/lib.rs
// of craton-shield a31d888527 (Apache-2.0) and changed: answers carry numbers, and `content` and `rest` give the parts.
ghost use Rattle.std.specs.Prelude.{◌≡◌, ◌≤◌, take, drop};
ghost use Rattle.wire.specs.Element.{length_of, head_of, within, element, elements, opened_place, first_place};
ghost use Rattle.wire.specs.LengthCases.{further_octets};

use crate::number::big_endian;
use records::error::VsError;

// The length octets of an element: how many they are and the length that they state.
#[derive(Clone, Copy)]
pub struct Length {
    pub octets: usize,
    pub value: usize,
}

// The head of an element: its tag, where the content starts, and its length.
#[derive(Clone, Copy)]
pub struct Head {
    pub tag: u8,
    pub start: usize,
    pub len: usize,
}

// An element at the front of some octets: its tag, where the content starts, its length, and where the rest starts.
#[derive(Clone, Copy)]
pub struct Element {
    pub tag: u8,
    pub start: usize,
    pub len: usize,
    pub end: usize,
}

// A part of some octets: where it starts and its length.
#[derive(Clone, Copy)]
pub struct Part {
    pub start: usize,
    pub len: usize,
}

// The length that n further octets hold; refused if some are missing or it is above 65535. `big_endian` reads four at most.
fn further_octets(further: &[u8], n: usize) -> Option<Length>
    requires { n ≤ 4 }
    ensures { result ≡ further_octets n further.now }
{
    if n > further.len() {
        return None;
    }
    let value = big_endian(&further[..n]);
    if value > 65535 {
        return None;
    }
    Some(Length {
        octets: n + 1,
        value: value as usize,
    })
}

// The length octets at the front of some octets, by the cases of the first (X.690 8.1.3; there the initial octet, and subsequent ones).
pub fn read_length(bytes: &[u8]) -> Option<Length>
    ensures { result ≡ length_of bytes.now }
{
    if bytes.is_empty() {
        return None;
    }
    // In 32 bits: matched as an octet, it takes 2% more instructions a frame (docs/requests/05.md).
    let first = bytes[0] as u32;
    match first {
        // 8.1.3.4, short form: the first octet is the length.
        0x00..=0x7F => Some(Length {
            octets: 1,
            value: first as usize,
        }),
        // 8.1.3.6, indefinite form: refused.
        0x80 => None,
        // 8.1.3.5, long form: one to four further octets hold the length.
        0x81..=0x84 => further_octets(&bytes[1..], (first - 0x80) as usize),
        // 8.1.3.5, the remainder, five or more further octets and FF, which is not used (c): refused.
        _ => None,
    }
}

// The head of the element at the front of some octets, whatever follows it.
#[tactic(auto, using(crate::proofs::ElementLaws::head_high))]
pub fn read_head(bytes: &[u8]) -> Option<Head>
    ensures { result ≡ head_of bytes.now }
{
    if bytes.len() < 2 {
        return None;
    }
    let tag = bytes[0];
    if tag % 32 == 31 {
        return None;
    }
    let length = read_length(&bytes[1..])?;
    Some(Head {
        tag,
        start: length.octets + 1,
        len: length.value,
    })
}

impl Head {
    // The element of a head, if the content ends within so many octets.
    pub fn within(self, total: usize) -> Option<Element>
        ensures { result ≡ within self.tag self.start self.len total }
    {
        if self.start > total {
            return None;
        }
        if self.len > total - self.start {
            return None;
        }
        Some(Element {
            tag: self.tag,
            start: self.start,
            len: self.len,
            end: self.start + self.len,
        })
    }
}

// The element at the front of some octets.
pub fn parse_tlv(bytes: &[u8]) -> Option<Element>
    ensures { result ≡ element bytes.now }
{
    read_head(bytes)?.within(bytes.len())
}

// What follows an element.
pub fn rest<'a>(bytes: &'a [u8], end: usize) -> &'a [u8]
    ensures { result.now ≡ drop end bytes.now }
{
    &bytes[end.min(bytes.len())..]
}

// The content of an element: so many octets from a start on, as far as they go.
pub fn content<'a>(bytes: &'a [u8], start: usize, len: usize) -> &'a [u8]
    ensures { result.now ≡ take len (drop start bytes.now) }
{
    let from = rest(bytes, start);
    &from[..len.min(from.len())]
}

// The element at the front of some octets is opened, if its tag is this one: its content is the part. Otherwise they are left as they are.
pub fn opened(bytes: &[u8], tag: u8) -> Result<Option<Part>, VsError>
    ensures { result ≡ opened_place tag bytes.now }
{
    let n = bytes.len();
    if n == 0 {
        return Ok(None);
    }
    if bytes[0] != tag {
        return Ok(Some(Part { start: 0, len: n }));
    }
    let Some(element) = parse_tlv(bytes) else {
        return Err(VsError::InvalidInput);
    };
    Ok(Some(Part {
        start: element.start,
        len: element.len,
    }))
}

// The content of the first element with this tag. Nothing after it is read. A turn goes to an element's end, so that no place is counted up.
pub fn first_content(bytes: &[u8], tag: u8) -> Result<Option<Part>, VsError>
    ensures { result ≡ first_place tag 0 (elements bytes.now) }
{
    let mut at: usize = 0;
    while at < bytes.len() {
        let Some(element) = parse_tlv(&bytes[at..]) else {
            return Err(VsError::InvalidInput);
        };
        if element.tag == tag {
            return Ok(Some(Part {
                start: at + element.start,
                len: element.len,
            }));
        }
        at += element.end;
    }
    Ok(None)
}
