// The SV frames of the reference points: document 01's 39-octet frame and frames made from it.
use crate::{write_decimal, write_number, write_octets, write_text};
use records::frame::SvFrame;
use records::octets::put_octets;
use std::io::Stdout;
use sv_frame::sv::parse_sv;
use wire::element::content;

// Document 01's frame: svID M1, count 500.
pub fn good_frame() -> [u8; 39] {
    *b"\x01\x0c\xcd\x04\x00\x01\x00\x0a\x0b\x0c\x0d\x0e\x88\xba\x40\x00\x00\x19\x00\x00\x00\x00\
      \x60\x0f\x80\x01\x01\xa2\x0a\x30\x08\x80\x02\x4d\x31\x82\x02\x01\xf4"
}

// A name of a stated length.
fn write_name(stdout: Stdout, name: [u8; 64], len: u8) {
    write_octets(stdout, content(&name, 0, len as usize));
}

// The fields of a frame, on lines.
fn write_fields(stdout: Stdout, f: SvFrame) {
    write_text(stdout, b"  source");
    write_octets(stdout, &f.src_mac);
    write_text(stdout, b"\n  svID");
    write_name(stdout, f.svid, f.svid_len);
    write_text(stdout, b"\n  data set");
    write_name(stdout, f.dataset_ref, f.dataset_ref_len);
    write_number(stdout, b"\n  count ", u64::from(f.smp_cnt));
    write_number(stdout, b"  rate ", u64::from(f.smp_rate));
    write_number(stdout, b"  seconds ", u64::from(f.t_seconds_since_epoch));
    write_number(stdout, b"  fraction ", u64::from(f.t_fraction_of_second));
    write_number(stdout, b"  time ", f.timestamp_us);
}

// What some octets read as.
fn write_frame(stdout: Stdout, label: &[u8], octets: &[u8]) {
    write_text(stdout, label);
    match parse_sv(octets, 7) {
        Ok(frame) => {
            write_text(stdout, b": frame\n");
            write_fields(stdout, frame);
        }
        Err(e) => write_number(stdout, b": error ", u64::from(e.number())),
    }
}

// The frame, and what it becomes with one octet changed.
fn changed_frames(stdout: Stdout) {
    let good = good_frame();
    write_frame(stdout, b"39 octets", &good);
    let mut long = good;
    long[17] = 0x1a;
    write_frame(stdout, b"header length 1A", &long);
    let mut short = good;
    short[17] = 0x07;
    write_frame(stdout, b"header length 07", &short);
    let mut tag = good;
    tag[35] = 0x9f;
    write_frame(stdout, b"tag 9F", &tag);
    let mut other = good;
    other[35] = 0x83;
    write_frame(stdout, b"no smpCnt", &other);
}

// The frame laid out in other ways.
fn other_frames(stdout: Stdout) {
    write_frame(
        stdout,
        b"tagged",
        b"\x01\x0c\xcd\x04\x00\x01\x00\x0a\x0b\x0c\x0d\x0e\x81\x00\x80\x01\x88\xba\x40\x00\x00\x19\x00\x00\x00\x00\
          \x60\x0f\x80\x01\x01\xa2\x0a\x30\x08\x80\x02\x4d\x31\x82\x02\x01\xf4",
    );
    write_frame(
        stdout,
        b"padded",
        b"\x01\x0c\xcd\x04\x00\x01\x00\x0a\x0b\x0c\x0d\x0e\x88\xba\x40\x00\x00\x19\x00\x00\x00\x00\
          \x60\x0f\x80\x01\x01\xa2\x0a\x30\x08\x80\x02\x4d\x31\x82\x02\x01\xf4\xff\xff\xff",
    );
    write_frame(
        stdout,
        b"without 60",
        b"\x01\x0c\xcd\x04\x00\x01\x00\x0a\x0b\x0c\x0d\x0e\x88\xba\x40\x00\x00\x17\x00\x00\x00\x00\x80\x01\x01\xa2\x0a\x30\x08\x80\x02\x4d\x31\x82\x02\x01\xf4",
    );
    write_frame(
        stdout,
        b"without 30",
        b"\x01\x0c\xcd\x04\x00\x01\x00\x0a\x0b\x0c\x0d\x0e\x88\xba\x40\x00\x00\x17\x00\x00\x00\x00\x60\x0d\x80\x01\x01\xa2\x08\x80\x02\x4d\x31\x82\x02\x01\xf4",
    );
    write_frame(
        stdout,
        b"two ASDUs",
        b"\x01\x0c\xcd\x04\x00\x01\x00\x0a\x0b\x0c\x0d\x0e\x88\xba\x40\x00\x00\x23\x00\x00\x00\x00\
          \x60\x19\x80\x01\x02\xa2\x14\x30\x08\x80\x02\x4d\x31\x82\x02\x01\xf4\x30\x08\x80\x02\x4d\x32\x82\x02\x01\xf5",
    );
}

// The frame in the first octets.
fn write_front<'a>(stdout: Stdout, label: &'a [u8], octets: &'a [u8; 96], n: usize) {
    write_frame(stdout, label, content(octets, 0, n));
}

// A frame with a field of this tag and content, 65 octets at most, in front of its count.
fn write_field(stdout: Stdout, label: &[u8], tag: u8, field: &[u8]) {
    let n = field.len();
    if n > 65 {
        return;
    }
    let mut octets = [0u8; 96];
    octets[12] = 0x88;
    octets[13] = 0xba;
    octets[17] = (n + 16) as u8;
    octets[22] = 0xa2;
    octets[23] = (n + 6) as u8;
    octets[24] = tag;
    octets[25] = n as u8;
    put_octets(&mut octets, 26, field);
    put_octets(&mut octets, 26 + n, b"\x82\x02\x01\xf4");
    write_front(stdout, label, &octets, 30 + n);
}

// Each field at the limits of its length.
fn field_frames(stdout: Stdout) {
    let name = [0x61u8; 65];
    write_field(stdout, b"svID of 64", 0x80, &name[..64]);
    write_field(stdout, b"svID of 65", 0x80, &name);
    write_field(stdout, b"data set of 64", 0x81, &name[..64]);
    write_field(stdout, b"data set of 65", 0x81, &name);
    write_field(stdout, b"smpCnt of 1", 0x82, b"\x01");
    write_field(stdout, b"smpCnt of 3", 0x82, b"\x01\x02\x03");
    write_field(stdout, b"time of 3", 0x84, b"\x01\x02\x03");
    write_field(stdout, b"time of 6", 0x84, b"\x01\x02\x03\x04\x05\x06");
    write_field(stdout, b"time of 7", 0x84, b"\x01\x02\x03\x04\x05\x06\x07");
    write_field(stdout, b"rate of 0", 0x86, b"");
    write_field(stdout, b"rate of 4", 0x86, b"\x00\x00\xff\xff");
    write_field(stdout, b"rate 65536", 0x86, b"\x00\x01\x00\x00");
    write_field(stdout, b"rate of 5", 0x86, b"\x00\x00\x00\x00\x50");
}

// The frame cut to a length.
fn write_cut(stdout: Stdout, octets: &[u8], n: usize) {
    write_decimal(stdout, n as u64);
    write_frame(stdout, b" octets", content(octets, 0, n));
}

// The frame cut at every length.
fn cut_frames(stdout: Stdout) {
    let good = good_frame();
    for n in 0..good.len() {
        write_cut(stdout, &good, n);
    }
}

pub fn write_frames(stdout: Stdout) {
    changed_frames(stdout);
    other_frames(stdout);
    field_frames(stdout);
    cut_frames(stdout);
}
