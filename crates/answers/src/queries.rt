// The calls of a script that ask no monitor: what they answer.
ghost use Rattle.std.specs.Prelude.{◌≡◌, length};

use crate::frame::put_parsed;
use records::bucket::{BucketCall, RateBucket};
use records::octets::octet_at;
use records::schedule::RetxSchedule;
use records::service::MmsServiceType;
use script::arguments::{rest_at, u16_at, u32_at, u64_at};
use script::calls::Query;
use script::frames::schedule;
use sv_frame::sv::parse_sv;
use text::put::OctetWriter;

// Puts a service: its number, and whether it writes.
fn put_service(out: &mut OctetWriter, service: MmsServiceType)
    ensures { length out.new.octets.now ≡ length out.old.octets.now }
{
    out.put_number(b"service ", u64::from(service.number()));
    out.put_flag(b" write ", service.is_write());
}

// Puts a word and what a schedule answers to `interval`: the interval of the sqNum, and whether the observed one is within tolerance.
fn put_interval(out: &mut OctetWriter, word: &[u8], schedule: RetxSchedule, arguments: &[u8])
    ensures { length out.new.octets.now ≡ length out.old.octets.now }
{
    let interval = schedule.expected_interval_us(u32_at(arguments, 9));
    let within = schedule.within_tolerance(u32_at(arguments, 13), u32_at(arguments, 17));
    out.put_number(word, u64::from(interval));
    out.put_flag(b" ", within);
}

// A schedule, a sqNum, and an observed and an expected interval. The schedule answers, and then that of a new monitor.
fn put_intervals(out: &mut OctetWriter, arguments: &[u8])
    ensures { length out.new.octets.now ≡ length out.old.octets.now }
{
    put_interval(out, b"interval ", schedule(arguments), arguments);
    put_interval(out, b" default ", RetxSchedule::default_8_1(), arguments);
}

// A time, and the octets of a frame: puts what is read from them.
pub fn put_parsing(out: &mut OctetWriter, arguments: &[u8])
    ensures { length out.new.octets.now ≡ length out.old.octets.now }
{
    put_parsed(out, parse_sv(rest_at(arguments, 8), u64_at(arguments, 0)));
}

// Puts a bucket after a call, and first whether the call was allowed.
fn put_bucket(out: &mut OctetWriter, called: BucketCall)
    ensures { length out.new.octets.now ≡ length out.old.octets.now }
{
    let bucket = called.bucket;
    out.put_flag(b"bucket ", called.allowed);
    out.put_number(b" ", u64::from(bucket.tokens));
    out.put_number(b" ", u64::from(bucket.capacity));
    out.put_number(b" ", bucket.last_refill_us);
}

// A bucket's tokens, capacity and last refill, and a time.
fn put_bucket_call(out: &mut OctetWriter, arguments: &[u8])
    ensures { length out.new.octets.now ≡ length out.old.octets.now }
{
    let bucket = RateBucket {
        tokens: u16_at(arguments, 0),
        capacity: u16_at(arguments, 2),
        last_refill_us: u64_at(arguments, 4),
    };
    put_bucket(out, bucket.next_call(u64_at(arguments, 12)));
}

// Puts what one of the calls that ask no monitor answers.
pub fn put_query(out: &mut OctetWriter, query: Query, arguments: &[u8])
    ensures { length out.new.octets.now ≡ length out.old.octets.now }
{
    match query {
        Query::Service => put_service(out, MmsServiceType::from_u8(octet_at(arguments, 0))),
        Query::Interval => put_intervals(out, arguments),
        Query::ParseSv => put_parsing(out, arguments),
        Query::Bucket => put_bucket_call(out, arguments),
    }
}
