// The calls of a script: their names, and the kinds of their arguments.
use Call::{Add, Ask, InspectGoose, InspectMms, InspectRawSv, InspectSv, Set};
use Kind::{Address, Flag, Name, Octets, U8, U16, U32, U64};

// What an argument is: a number of so many bits, a flag, an address, a name, or octets, which can only be the last.
#[derive(Clone, Copy)]
pub enum Kind {
    U8,
    U16,
    U32,
    U64,
    Flag,
    Address,
    Name,
    Octets,
}

// The calls that set a monitor up, and `totals`, which asks for what every line has: they answer nothing of their own.
#[derive(Clone, Copy)]
pub enum Setting {
    New,
    NewStrict,
    Reset,
    Totals,
    MmsServiceMask,
    MmsReadOnly,
    BlockTestFrames,
    SvMaxSmpCntGap,
    RetxSchedule,
    TimeMaxForwardJump,
}

// The calls that add a rule or a publisher.
#[derive(Clone, Copy)]
pub enum Addition {
    MmsRule,
    GoosePublisher,
    SvPublisher,
}

// The calls that ask no monitor.
#[derive(Clone, Copy)]
pub enum Query {
    Service,
    Interval,
    ParseSv,
    Bucket,
}

#[derive(Clone, Copy)]
pub enum Call {
    Set(Setting),
    Add(Addition),
    InspectMms,
    InspectGoose,
    InspectSv,
    InspectRawSv,
    Ask(Query),
}

// A call by its name, with the kinds of its arguments.
pub type NamedCall<'a> = (&'a str, Call, &'a [Kind]);

pub const CALLS_LEN: usize = 21;

// The calls of docs/SCRIPT.md. Those of which a script has most stand first: the search goes in this order.
pub static CALLS: [NamedCall<'static>; CALLS_LEN] = [
    (
        "inspect_sv",
        InspectSv,
        &[Address, Name, U16, U16, Name, U64, U32, U32],
    ),
    (
        "inspect_goose",
        InspectGoose,
        &[Address, Name, U32, U32, Flag, U64, U32, U32],
    ),
    (
        "inspect_mms",
        InspectMms,
        &[U8, U8, Name, U32, U64, U32, Flag],
    ),
    ("inspect_raw_sv", InspectRawSv, &[U64, Octets]),
    ("new", Set(Setting::New), &[]),
    ("new_strict", Set(Setting::NewStrict), &[]),
    ("reset", Set(Setting::Reset), &[]),
    ("totals", Set(Setting::Totals), &[]),
    ("set_mms_service_mask", Set(Setting::MmsServiceMask), &[U16]),
    ("set_mms_read_only", Set(Setting::MmsReadOnly), &[Flag]),
    (
        "set_block_test_frames",
        Set(Setting::BlockTestFrames),
        &[Flag],
    ),
    (
        "set_sv_max_smp_cnt_gap",
        Set(Setting::SvMaxSmpCntGap),
        &[U16],
    ),
    (
        "set_retx_schedule",
        Set(Setting::RetxSchedule),
        &[U32, U32, U8, Flag],
    ),
    (
        "set_time_max_forward_jump_s",
        Set(Setting::TimeMaxForwardJump),
        &[U32],
    ),
    ("add_mms_rule", Add(Addition::MmsRule), &[U16, Flag, U16]),
    (
        "add_goose_publisher",
        Add(Addition::GoosePublisher),
        &[Address, Octets],
    ),
    (
        "add_sv_publisher",
        Add(Addition::SvPublisher),
        &[Address, U16, Octets],
    ),
    ("service", Ask(Query::Service), &[U8]),
    (
        "interval",
        Ask(Query::Interval),
        &[U32, U32, U8, U32, U32, U32],
    ),
    ("parse_sv", Ask(Query::ParseSv), &[U64, Octets]),
    ("bucket", Ask(Query::Bucket), &[U16, U16, U64, U64]),
];

// The call of a table that a word names.
pub(crate) fn call_named<'a>(calls: &'a [NamedCall<'a>], word: &[u8]) -> Option<&'a NamedCall<'a>> {
    calls.iter().find(|(name, _, _)| name.as_bytes() == word)
}

// The call of a script that a word names.
pub fn named_call(word: &[u8]) -> Option<&'static NamedCall<'static>> {
    call_named(&CALLS, word)
}
