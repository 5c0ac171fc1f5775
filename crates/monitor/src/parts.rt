// The parts of the monitor in one array of 1148 words: each check and add call lends its part as a slice. A part as an array of its own would come as a
// Result, whose other case would need an answer.
#![tactic(auto, unfolding(crate::specs::Monitor::monitor_of))]

ghost use Rattle.std.specs.Prelude.{◌≡◌};
ghost use Rattle.monitor.specs.Monitor.{monitor_of};
ghost use Rattle.monitor.specs.Parts.{sv_seq_on, goose_seq_on, time_field_on, rate_on, cb_on, reserved_on, released_on};
ghost use Rattle.monitor.specs.Parts.{mms_added_on, goose_added_on, sv_added_on};
ghost use Rattle.checks.specs.GoosePublisher.{goose_publisher_count, goose_publisher};
ghost use Rattle.checks.specs.GooseSeq.{numbers_of, retx_checked};
ghost use Rattle.checks.specs.MmsRule.{mms_rule_count, first_rule, rule_read_only, rule_rate};
ghost use Rattle.checks.specs.SvPublisher.{sv_publisher_count, sv_publisher, publisher_rate};
ghost use Rattle.checks.specs.TimeField.{pair_of};
ghost use Rattle.tables.specs.Order.{all_free};

use checks::goose_publisher::{add_goose_publisher_in, goose_publisher};
use checks::goose_seq::{StreamNumbers, check_goose_seq_in, retx_anomaly};
use checks::mms_rule::{add_mms_rule_in, first_rule, rule_rate, rule_read_only};
use checks::rate::rate_check_in;
use checks::reservation::{check_cb_in, release_cb_in, reserve_cb_in};
use checks::sv_publisher::{PublisherMismatch, add_sv_publisher_in, publisher_rate, sv_publisher};
use checks::sv_seq::{SvSeqOutcome, check_sv_seq_in};
use checks::time_field::{ClockPair, check_time_field_in};
use records::error::VsError;
use records::schedule::RetxSchedule;
use tables::order::no_entries;

// Where each part begins, behind the settings; it ends where the next begins.
pub const TOTALS: usize = 10;

pub const MMS_RULES: usize = 15;

pub const GOOSE_PUBLISHERS: usize = 64;

pub const SV_PUBLISHERS: usize = 241;

pub const RATE_BUCKETS: usize = 434;

pub const GOOSE_SEQ: usize = 500;

pub const SV_SEQ: usize = 710;

pub const TIME_TRACKERS: usize = 888;

pub const CB_RESERVATIONS: usize = 938;

// How many words a monitor has.
pub const WORDS: usize = 1148;

// Where the counts of rules stand: each is the last word of its part.
const MMS_RULE_COUNT: usize = GOOSE_PUBLISHERS - 1;

const GOOSE_PUBLISHER_COUNT: usize = SV_PUBLISHERS - 1;

const SV_PUBLISHER_COUNT: usize = RATE_BUCKETS - 1;

// Checks a frame's count.
pub fn check_sv_seq_on(m: &mut [u64; WORDS], svid: &[u64; 10], smp_cnt: u16) -> SvSeqOutcome
    ensures { record { monitor = monitor_of m.new; answer = result } ≡ sv_seq_on (monitor_of m.old) svid.now smp_cnt }
{
    check_sv_seq_in(&mut m[SV_SEQ..TIME_TRACKERS], svid, smp_cnt)
}

// Checks a frame's numbers.
pub fn check_goose_seq_on(m: &mut [u64; WORDS], key: &[u64; 10], new: StreamNumbers<u32>) -> bool
    ensures { record { monitor = monitor_of m.new; answer = result }
        ≡ goose_seq_on (monitor_of m.old) key.now (numbers_of new) }
{
    check_goose_seq_in(&mut m[GOOSE_SEQ..SV_SEQ], key, new)
}

// Checks a frame's time.
pub fn check_time_field_on(
    m: &mut [u64; WORDS],
    limit: u32,
    address: u64,
    pair: ClockPair<u32>,
) -> bool
    ensures { record { monitor = monitor_of m.new; answer = result } ≡ time_field_on (monitor_of m.old) limit address (pair_of pair) }
{
    check_time_field_in(&mut m[TIME_TRACKERS..CB_RESERVATIONS], limit, address, pair)
}

// Takes a request into its bucket.
pub fn rate_check_on(m: &mut [u64; WORDS], key: u32, max_rate: u16, now_us: u64) -> bool
    ensures { record { monitor = monitor_of m.new; answer = result } ≡ rate_on (monitor_of m.old) key max_rate now_us }
{
    rate_check_in(&mut m[RATE_BUCKETS..GOOSE_SEQ], key, max_rate, now_us)
}

// The use of a control block.
pub fn check_cb_on(m: &mut [u64; WORDS], key: &[u64; 10], address: u64) -> bool
    ensures { record { monitor = monitor_of m.new; answer = result } ≡ cb_on (monitor_of m.old) key.now address }
{
    check_cb_in(&mut m[CB_RESERVATIONS..WORDS], key, address)
}

// Whether no control block is reserved.
pub fn no_reservations_on(m: &[u64; WORDS]) -> bool
    ensures { result ≡ all_free (monitor_of m.now).cb_reservations }
{
    no_entries(&m[CB_RESERVATIONS..WORDS])
}

// A SelectControl.
pub fn reserve_cb_on(m: &mut [u64; WORDS], key: &[u64; 10], client: u32) -> bool
    ensures { record { monitor = monitor_of m.new; answer = result } ≡ reserved_on (monitor_of m.old) key.now client }
{
    reserve_cb_in(&mut m[CB_RESERVATIONS..WORDS], key, client)
}

// A Cancel or Conclude.
pub fn release_cb_on(m: &mut [u64; WORDS], key: &[u64; 10], client: u32)
    ensures { monitor_of m.new ≡ released_on (monitor_of m.old) key.now client }
{
    release_cb_in(&mut m[CB_RESERVATIONS..WORDS], key, client);
}

// Adds an MMS rule.
pub fn add_mms_rule_on(
    m: &mut [u64; WORDS],
    mask: u16,
    read_only: bool,
    rate: u16,
) -> Result<(), VsError>
    ensures { record { monitor = monitor_of m.new; answer = result } ≡ mms_added_on (monitor_of m.old) mask read_only rate }
{
    add_mms_rule_in(&mut m[MMS_RULES..GOOSE_PUBLISHERS], mask, read_only, rate)
}

// Adds a GOOSE publisher.
pub fn add_goose_publisher_on(
    m: &mut [u64; WORDS],
    address: u64,
    name: &[u8],
) -> Result<(), VsError>
    ensures { record { monitor = monitor_of m.new; answer = result } ≡ goose_added_on (monitor_of m.old) address name.now }
{
    add_goose_publisher_in(&mut m[GOOSE_PUBLISHERS..SV_PUBLISHERS], address, name)
}

// Adds an SV publisher.
pub fn add_sv_publisher_on(
    m: &mut [u64; WORDS],
    address: u64,
    svid: &[u8],
    rate: u16,
) -> Result<(), VsError>
    ensures { record { monitor = monitor_of m.new; answer = result } ≡ sv_added_on (monitor_of m.old) address svid.now rate }
{
    add_sv_publisher_in(&mut m[SV_PUBLISHERS..RATE_BUCKETS], address, svid, rate)
}

// The first MMS rule that applies.
pub fn first_rule_on(m: &[u64; WORDS], raw: u8) -> Option<usize>
    ensures { result ≡ first_rule (monitor_of m.now).mms_rules raw }
{
    first_rule(&m[MMS_RULES..GOOSE_PUBLISHERS], raw)
}

// The first GOOSE publisher that fits.
pub fn goose_publisher_on(m: &[u64; WORDS], address: u64, name: &[u64; 10]) -> Option<usize>
    ensures { result ≡ goose_publisher (monitor_of m.now).goose_publishers address name.now }
{
    goose_publisher(&m[GOOSE_PUBLISHERS..SV_PUBLISHERS], address, name)
}

// How an svID and an address match the SV publishers.
pub fn sv_publisher_on(
    m: &[u64; WORDS],
    address: u64,
    svid: &[u64; 10],
) -> Result<usize, PublisherMismatch>
    ensures { result ≡ sv_publisher (monitor_of m.now).sv_publishers address svid.now }
{
    sv_publisher(&m[SV_PUBLISHERS..RATE_BUCKETS], address, svid)
}

// Whether a frame misses the retransmission schedule.
pub fn retx_anomaly_on(
    m: &[u64; WORDS],
    key: &[u64; 10],
    schedule: RetxSchedule,
    new: StreamNumbers<u32>,
) -> bool
    ensures { result ≡ retx_checked schedule (monitor_of m.now).goose_seq key.now (numbers_of new) }
{
    retx_anomaly(&m[GOOSE_SEQ..SV_SEQ], key, schedule, new)
}

// How many MMS rules, GOOSE publishers and SV publishers there are.
pub fn mms_rule_count_on(m: &[u64; WORDS]) -> u64
    ensures { result ≡ mms_rule_count (monitor_of m.now).mms_rules }
{
    m[MMS_RULE_COUNT]
}

pub fn goose_publisher_count_on(m: &[u64; WORDS]) -> u64
    ensures { result ≡ goose_publisher_count (monitor_of m.now).goose_publishers }
{
    m[GOOSE_PUBLISHER_COUNT]
}

pub fn sv_publisher_count_on(m: &[u64; WORDS]) -> u64
    ensures { result ≡ sv_publisher_count (monitor_of m.now).sv_publishers }
{
    m[SV_PUBLISHER_COUNT]
}

// Whether an MMS rule is read-only.
pub fn rule_read_only_on(m: &[u64; WORDS], place: usize) -> bool
    ensures { result ≡ rule_read_only (monitor_of m.now).mms_rules place }
{
    rule_read_only(&m[MMS_RULES..GOOSE_PUBLISHERS], place)
}

// Its rate.
pub fn rule_rate_on(m: &[u64; WORDS], place: usize) -> u16
    ensures { result ≡ rule_rate (monitor_of m.now).mms_rules place }
{
    rule_rate(&m[MMS_RULES..GOOSE_PUBLISHERS], place)
}

// The rate of an SV publisher.
pub fn publisher_rate_on(m: &[u64; WORDS], place: usize) -> u16
    ensures { result ≡ publisher_rate (monitor_of m.now).sv_publishers place }
{
    publisher_rate(&m[SV_PUBLISHERS..RATE_BUCKETS], place)
}
