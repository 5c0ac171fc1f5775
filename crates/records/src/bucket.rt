// Carried over from industrial/types-ind/src/lib.rs of craton-shield a31d888527 (Apache-2.0) and changed: the work is on a
// bucket by value, and `try_consume` puts its outcome into a lent one; its key and its use belong to the table that keeps it.
ghost use Rattle.std.specs.Prelude.{◌≡◌};
ghost use Rattle.records.specs.Bucket.{refill, tokens_with, refilled, next_call, first_call};

// A token bucket: tokens per second, tokens left, and the time of the last refill.
#[derive(Clone, Copy)]
pub struct RateBucket {
    pub tokens: u16,
    pub capacity: u16,
    pub last_refill_us: u64,
}

// A bucket after a call, and whether the call was allowed: both are always there, so an Option would not be plainer.
#[derive(Clone, Copy)]
pub struct BucketCall {
    pub bucket: RateBucket,
    pub allowed: bool,
}

// The tokens that a time brings, the most where the product passes 64 bits.
#[tactic(auto, unfolding(crate::specs::Bucket::refill))]
pub fn refill(elapsed_us: u64, capacity: u16) -> u64
    ensures { result ≡ refill elapsed_us capacity }
{
    elapsed_us
        .checked_mul(u64::from(capacity))
        .map_or(u64::MAX, |product| product / 1_000_000)
}

// The tokens after a refill, capacity at most.
pub fn tokens_with(tokens: u16, added: u64, capacity: u16) -> u16
    ensures { result ≡ tokens_with tokens added capacity }
{
    u64::from(tokens)
        .saturating_add(added)
        .min(u64::from(capacity)) as u16
}

impl RateBucket {
    // After refilling at a time.
    #[tactic(auto, unfolding(crate::specs::Bucket::refilled, crate::specs::Bucket::refilled_by))]
    pub fn refilled(self, now_us: u64) -> Self
        ensures { result ≡ refilled self now_us }
    {
        if now_us < self.last_refill_us {
            return RateBucket {
                tokens: self.capacity,
                last_refill_us: now_us,
                ..self
            };
        }
        let added = refill(now_us - self.last_refill_us, self.capacity);
        if added == 0 {
            return self;
        }
        RateBucket {
            tokens: tokens_with(self.tokens, added, self.capacity),
            last_refill_us: now_us,
            ..self
        }
    }

    // A call at a time: the bucket is refilled, and the call takes a token if there is one.
    #[tactic(auto, unfolding(crate::specs::Bucket::next_call))]
    pub fn next_call(self, now_us: u64) -> BucketCall
        ensures { result ≡ next_call self now_us }
    {
        let bucket = self.refilled(now_us);
        BucketCall {
            bucket: RateBucket {
                tokens: bucket.tokens.saturating_sub(1),
                ..bucket
            },
            allowed: bucket.tokens > 0,
        }
    }

    // A call on a lent bucket: the answer, and the bucket changed in its place.
    pub fn try_consume(&mut self, now_us: u64) -> bool
        ensures { record { bucket = self.new; allowed = result } ≡ next_call self.old now_us }
    {
        let call = self.next_call(now_us);
        *self = call.bucket;
        call.allowed
    }

    // A new bucket after its first call, which it allows.
    pub fn first_call(capacity: u16, now_us: u64) -> Self
        ensures { result ≡ first_call capacity now_us }
    {
        RateBucket {
            tokens: capacity.saturating_sub(1),
            capacity,
            last_refill_us: now_us,
        }
    }
}
