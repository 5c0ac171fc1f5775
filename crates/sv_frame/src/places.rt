// A sampled-values frame read by places: where its names stand in the ASDU, and its numbers. No frame is built in between.
ghost use Rattle.std.specs.Prelude.{◌≡◌, replicate};
ghost use Rattle.sv_frame.specs.Field.{overlaid};
ghost use Rattle.sv_frame.specs.Places.{no_places, with_place, places_of};

use crate::field::{
    DAT_SET, REFR_TM, SMP_CNT, SMP_RATE, SVID, field_fits, fraction_or, overlay, seconds_or,
};
use records::error::VsError;
use wire::element::{Part, parse_tlv};
use wire::number::{decode_unsigned_int, pair_at};

// Where the names stand in an ASDU, and its numbers.
#[derive(Clone, Copy)]
pub struct SvPlaces {
    pub svid: Part,
    pub dataset: Part,
    pub smp_cnt: u16,
    pub smp_rate: u16,
    pub seconds: u32,
    pub fraction: u32,
}

// No field is read yet.
fn no_places() -> SvPlaces
    ensures { result ≡ no_places }
{
    SvPlaces {
        svid: Part { start: 0, len: 0 },
        dataset: Part { start: 0, len: 0 },
        smp_cnt: 0,
        smp_rate: 0,
        seconds: 0,
        fraction: 0,
    }
}

// Puts one more field, which stands at a place of the ASDU.
fn put_place(out: &mut SvPlaces, tag: u8, place: Part, field: &[u8])
    ensures { out.new ≡ with_place out.old tag place field.now }
{
    match tag {
        SVID => {
            out.svid = place;
        }
        DAT_SET => {
            out.dataset = place;
        }
        SMP_CNT => {
            out.smp_cnt = pair_at(field, 0);
        }
        REFR_TM => {
            out.seconds = seconds_or(out.seconds, field);
            out.fraction = fraction_or(out.fraction, field);
        }
        SMP_RATE => {
            out.smp_rate = decode_unsigned_int(field).unwrap_or(out.smp_rate);
        }
        _ => {}
    }
}

// The places of an ASDU's fields, one after the other: the frame that they give, read where it stands. Without a count it is InvalidInput.
// It needs the place of each element, so it is no walk of `read_fields`, whose reader holds no place (01, the element reader).
pub fn sv_places(asdu: &[u8]) -> Result<SvPlaces, VsError>
    ensures { result ≡ places_of asdu.now }
{
    let mut out = no_places();
    let mut counted = false;
    let mut at: usize = 0;
    while at < asdu.len() {
        let Some(element) = parse_tlv(&asdu[at..]) else {
            return Err(VsError::InvalidInput);
        };
        let start = at + element.start;
        let end = at + element.end;
        let field = &asdu[start..end];
        if !field_fits(element.tag, field) {
            return Err(VsError::InvalidInput);
        }
        let len = element.len;
        put_place(&mut out, element.tag, Part { start, len }, field);
        counted |= element.tag == SMP_CNT;
        at = end;
    }
    if !counted {
        return Err(VsError::InvalidInput);
    }
    Ok(out)
}

// A name's octets, zeros behind its end. They are put there as far as the name goes: with a test for each of 64, a raw inspection takes twice as long.
pub fn name_octets(name: &[u8]) -> [u8; 64]
    ensures { result ≡ overlaid (replicate 64 0) name.now }
{
    let mut out = [0u8; 64];
    overlay(&mut out, name);
    out
}
