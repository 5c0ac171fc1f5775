// Runs the reference points of document 01, the published FNV-1a vectors and a few inspections, and writes what each gives;
// `stdout` has what each must give (docs/DECISIONS.md says where that is from).
#![tactic(auto)]

mod copy_points;
mod frame_points;
mod monitor_points;

use records::bucket::RateBucket;
use records::hash::fnv1a_32;
use records::schedule::RetxSchedule;
use std::io::Stdout;

// Octets as they are. A write that fails is passed over, here and in every other function that writes.
fn write_text(stdout: Stdout, text: &[u8]) {
    let _ = stdout.write_all(text);
}

// A number's decimal digits.
fn write_decimal(stdout: Stdout, n: u64) {
    let _ = print!(stdout; "{n}");
}

// The eight hexadecimal digits of a number.
fn write_hex(stdout: Stdout, n: u32) {
    let _ = print!(stdout; "{n:08x}");
}

// A label and a number, on a line.
fn write_number(stdout: Stdout, label: &[u8], n: u64) {
    write_text(stdout, label);
    write_decimal(stdout, n);
    write_text(stdout, b"\n");
}

// A space and an octet.
fn write_octet(stdout: Stdout, octet: u8) {
    let _ = print!(stdout; " {octet:02x}");
}

fn write_octets(stdout: Stdout, octets: &[u8]) {
    for octet in octets {
        write_octet(stdout, *octet);
    }
}

// The octets and their hash, on a line.
fn write_hash(stdout: Stdout, octets: &[u8]) {
    write_text(stdout, b"fnv1a");
    write_octets(stdout, octets);
    write_text(stdout, b": ");
    write_hex(stdout, fnv1a_32(octets));
    write_text(stdout, b"\n");
}

// The schedule of 4000 to 1,000,000 at 25 percent.
fn schedule_points(stdout: Stdout) {
    let s = RetxSchedule::default_8_1();
    write_number(
        stdout,
        b"interval 7: ",
        u64::from(s.expected_interval_us(7)),
    );
    write_number(
        stdout,
        b"interval 8: ",
        u64::from(s.expected_interval_us(8)),
    );
    write_number(
        stdout,
        b"interval 32: ",
        u64::from(s.expected_interval_us(32)),
    );
    write_number(
        stdout,
        b"tolerance 2999: ",
        u64::from(s.within_tolerance(2999, 4000)),
    );
    write_number(
        stdout,
        b"tolerance 3000: ",
        u64::from(s.within_tolerance(3000, 4000)),
    );
    write_number(
        stdout,
        b"tolerance 5000: ",
        u64::from(s.within_tolerance(5000, 4000)),
    );
    write_number(
        stdout,
        b"tolerance 5001: ",
        u64::from(s.within_tolerance(5001, 4000)),
    );
}

// A bucket of 10, empty, refilled at 0.
fn bucket_points(stdout: Stdout) {
    let b = RateBucket {
        tokens: 0,
        capacity: 10,
        last_refill_us: 0,
    };
    let early = b.next_call(99_999);
    write_number(stdout, b"bucket 99999: ", u64::from(early.allowed));
    let due = b.next_call(100_000);
    write_number(stdout, b"bucket 100000: ", u64::from(due.allowed));
}

// The first vectors of the FNV reference source (test_fnv.c).
fn hash_points(stdout: Stdout) {
    write_hash(stdout, b"");
    write_hash(stdout, b"a");
    write_hash(stdout, b"b");
    write_hash(stdout, b"c");
    write_hash(stdout, b"d");
    write_hash(stdout, b"e");
    write_hash(stdout, b"f");
    write_hash(stdout, b"fo");
    write_hash(stdout, b"foo");
    write_hash(stdout, b"foob");
    write_hash(stdout, b"fooba");
    write_hash(stdout, b"foobar");
}

// Strings of the same list with the octet 0 that ends them.
fn ended_hash_points(stdout: Stdout) {
    write_hash(stdout, b"\0");
    write_hash(stdout, b"a\0");
    write_hash(stdout, b"b\0");
    write_hash(stdout, b"c\0");
    write_hash(stdout, b"d\0");
    write_hash(stdout, b"e\0");
    write_hash(stdout, b"f\0");
    write_hash(stdout, b"foo\0");
    write_hash(stdout, b"foob\0");
    write_hash(stdout, b"fooba\0");
    write_hash(stdout, b"foobar\0");
}

fn main(rt: HostRuntime) {
    let stdout = rt.stdout();
    schedule_points(stdout);
    bucket_points(stdout);
    hash_points(stdout);
    ended_hash_points(stdout);
    frame_points::write_frames(stdout);
    monitor_points::write_inspections(stdout);
    copy_points::write_copies(stdout);
}
