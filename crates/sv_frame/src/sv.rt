// The sampled-values frame, carried over from `parse_sv` and `decode_sv_apdu` in industrial/iec61850-monitor/src/lib.rs of craton-shield
// a31d888527 (Apache-2.0) and changed.
ghost use Rattle.std.specs.Prelude.{◌≡◌, false};
ghost use Rattle.wire.specs.Element.{elements};
ghost use Rattle.sv_frame.specs.Refusals.{FrameOr9};
ghost use Rattle.sv_frame.specs.Sv.{fields_from, apdu_frame, sv_frame, asdu_place};

use crate::field::{ASDU, SAV_PDU, SEQ_ASDU, SMP_CNT, field_fits, put_field};
use records::error::VsError;
use records::frame::SvFrame;
use wire::element::{Part, content, first_content, opened};
use wire::header::{ETHERTYPE_SV, ethernet_header};
use wire::reader::ElementReader;

// The fields of an ASDU, one after the other, from a frame on, through a reader over the ASDU. A turn goes to an element's end, so that no place is
// counted up.
pub fn read_fields(asdu: &[u8], frame: SvFrame) -> Result<SvFrame, VsError>
    ensures { result ≡ fields_from frame false (elements asdu.now) }
{
    let mut out = frame;
    let mut counted = false;
    let mut reader = ElementReader::new(asdu);
    while reader.unread().len() > 0 {
        let front = reader.front();
        let Some(element) = front else {
            return Err(VsError::InvalidInput);
        };
        let field = &reader.unread()[element.start..element.end];
        if !field_fits(element.tag, field) {
            return Err(VsError::InvalidInput);
        }
        put_field(&mut out, element.tag, field);
        counted |= element.tag == SMP_CNT;
        reader = reader.past(front);
    }
    if !counted {
        return Err(VsError::InvalidInput);
    }
    Ok(out)
}

// Where the first ASDU of an APDU is.
pub fn sv_asdu(apdu: &[u8]) -> Result<Part, VsError>
    ensures { result ≡ asdu_place apdu.now }
{
    let Some(pdu) = opened(apdu, SAV_PDU)? else {
        return Err(VsError::InvalidInput);
    };
    let elements = content(apdu, pdu.start, pdu.len);
    let Some(seq) = first_content(elements, SEQ_ASDU)? else {
        return Err(VsError::InvalidInput);
    };
    let asdus = content(elements, seq.start, seq.len);
    let Some(asdu) = opened(asdus, ASDU)? else {
        return Err(VsError::InvalidInput);
    };
    Ok(Part {
        start: pdu.start + (seq.start + asdu.start),
        len: asdu.len,
    })
}

// The frame of an APDU.
pub fn decode_sv_apdu(apdu: &[u8], src_mac: [u8; 6], timestamp_us: u64) -> Result<SvFrame, VsError>
    ensures { result ≡ apdu_frame apdu.now src_mac timestamp_us }
{
    let asdu = sv_asdu(apdu)?;
    let frame = SvFrame {
        src_mac,
        timestamp_us,
        ..SvFrame::default()
    };
    read_fields(content(apdu, asdu.start, asdu.len), frame)
}

// The frame that some octets hold, taken at a time.
pub fn parse_sv(bytes: &[u8], timestamp_us: u64) -> Result<SvFrame, VsError>
    ensures value { result ≡ sv_frame bytes.now timestamp_us }
    ensures numbers { FrameOr9 result }
{
    let Some(found) = ethernet_header(bytes, ETHERTYPE_SV) else {
        return Err(VsError::InvalidInput);
    };
    let apdu = &bytes[found.apdu.start..found.apdu.end];
    decode_sv_apdu(apdu, found.src_mac, timestamp_us)
}
