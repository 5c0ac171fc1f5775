// The fields of an ASDU, carried over from `decode_sv_apdu` in industrial/iec61850-monitor/src/lib.rs of craton-shield a31d888527
// (Apache-2.0) and changed.
ghost use Rattle.std.specs.Prelude.{◌≡◌, length};
ghost use Rattle.records.specs.Name.{valid_len};
ghost use Rattle.sv_frame.specs.Field.{field_fits, overlaid, seconds_or, fraction_or, with_field};

use records::frame::SvFrame;
use records::octets::put_first;
use wire::number::{big_endian, decode_unsigned_int, pair_at};

// Tags of IEC 61850-9-2, 8.5.2, in its order: the PDU, its sequence of ASDUs, an ASDU, and the fields that the frame takes.
pub const SAV_PDU: u8 = 0x60;

pub const SEQ_ASDU: u8 = 0xa2;

pub const ASDU: u8 = 0x30;

pub const SVID: u8 = 0x80;

pub const DAT_SET: u8 = 0x81;

pub const SMP_CNT: u8 = 0x82;

pub const REFR_TM: u8 = 0x84;

pub const SMP_RATE: u8 = 0x86;

// Whether a field's content has a length, and a rate a value, that the frame takes.
pub fn field_fits(tag: u8, content: &[u8]) -> bool
    ensures { result ≡ field_fits tag content.now }
{
    match tag {
        SVID => content.len() <= 64,
        DAT_SET => content.len() <= 64,
        SMP_CNT => content.len() == 2,
        SMP_RATE => decode_unsigned_int(content).is_some(),
        _ => true,
    }
}

// A name's length, 64 at most.
pub fn name_len(content: &[u8]) -> u8
    ensures { result ≡ valid_len (length content.now) }
{
    content.len().min(64) as u8
}

// Puts a content's octets over the front of a name's, of which the others stay.
pub fn overlay(name: &mut [u8; 64], content: &[u8])
    ensures { name.new ≡ overlaid name.old content.now }
{
    put_first(name, 0, content, name_len(content) as usize);
}

// The seconds that a time of 4 octets or more gives, or those before. As one function with `fraction_or` it would take three numbers for the same line.
pub fn seconds_or(old: u32, time: &[u8]) -> u32
    ensures { result ≡ seconds_or old time.now }
{
    if time.len() < 4 {
        return old;
    }
    big_endian(time)
}

// The fraction that a time of 7 octets or more gives, or the one before.
pub fn fraction_or(old: u32, time: &[u8]) -> u32
    ensures { result ≡ fraction_or old time.now }
{
    if time.len() < 7 {
        return old;
    }
    big_endian(&time[4..7])
}

// Puts one more field of its ASDU into a frame.
pub fn put_field(frame: &mut SvFrame, tag: u8, field: &[u8])
    ensures { frame.new ≡ with_field frame.old tag field.now }
{
    match tag {
        SVID => {
            overlay(&mut frame.svid, field);
            frame.svid_len = name_len(field);
        }
        DAT_SET => {
            overlay(&mut frame.dataset_ref, field);
            frame.dataset_ref_len = name_len(field);
        }
        SMP_CNT => {
            frame.smp_cnt = pair_at(field, 0);
        }
        REFR_TM => {
            frame.t_seconds_since_epoch = seconds_or(frame.t_seconds_since_epoch, field);
            frame.t_fraction_of_second = fraction_or(frame.t_fraction_of_second, field);
        }
        SMP_RATE => {
            frame.smp_rate = decode_unsigned_int(field).unwrap_or(frame.smp_rate);
        }
        _ => {}
    }
}
