// Rate limits of MMS requests, carried over from industrial/iec61850-monitor/src/lib.rs of craton-shield a31d888527 (Apache-2.0) and
// changed: a table by number.
ghost use Rattle.std.specs.Prelude.{◌≡◌, ◌<◌, length};
ghost use Rattle.records.specs.Bucket.{next_call};
ghost use Rattle.tables.specs.Place.{known_of};
ghost use Rattle.checks.specs.Rate.{bucket_at, bucket_call, rate_checked};

use records::bucket::{BucketCall, RateBucket};
use tables::column::narrowed;
use tables::numbered::VALUES;
use tables::place::enter;

// Where tokens, capacity and time of last refill stand.
const TOKENS: usize = VALUES;

const CAPACITIES: usize = VALUES + 16;

const REFILLS: usize = VALUES + 32;

// The bucket of a slot.
fn bucket_at(t: &[u64], slot: usize) -> RateBucket
    requires { (length t.now ≡ 66) × (slot < 16) }
    ensures { result ≡ bucket_at t.now slot }
{
    RateBucket {
        tokens: narrowed(t[TOKENS + slot]),
        capacity: narrowed(t[CAPACITIES + slot]),
        last_refill_us: t[REFILLS + slot],
    }
}

// A call on a bucket that is lent for it.
fn lent_call(kept: RateBucket, now_us: u64) -> BucketCall
    ensures { result ≡ next_call kept now_us }
{
    let mut lent = kept;
    let allowed = lent.try_consume(now_us);
    BucketCall {
        bucket: lent,
        allowed,
    }
}

// A request's call of its bucket, which is new where the request's key was not known.
fn bucket_call(kept: Option<RateBucket>, max_rate: u16, now_us: u64) -> BucketCall
    ensures { result ≡ bucket_call (known_of kept) (max_rate, now_us) }
{
    match kept {
        Some(bucket) => lent_call(bucket, now_us),
        None => BucketCall {
            bucket: RateBucket::first_call(max_rate, now_us),
            allowed: true,
        },
    }
}

// Takes a request into the table of buckets, and answers whether it is within its rate. A new key's request is; an existing bucket keeps
// its capacity.
pub fn rate_check_in(t: &mut [u64], key: u32, max_rate: u16, now_us: u64) -> bool
    requires { length t.old ≡ 66 }
    ensures { record { table = t.new; allowed = result } ≡ rate_checked t.old key max_rate now_us }
{
    let place = enter(t, &(key as u64));
    let slot = place.slot;
    let kept = bucket_at(t, slot);
    let call = bucket_call(place.known.then_some(kept), max_rate, now_us);
    let bucket = call.bucket;
    t[TOKENS + slot] = bucket.tokens as u64;
    t[CAPACITIES + slot] = bucket.capacity as u64;
    t[REFILLS + slot] = bucket.last_refill_us;
    call.allowed
}
