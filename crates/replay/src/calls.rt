// The calls of a script, each made with its arguments on the monitor's words, and the lines of their answers.
ghost use Rattle.std.specs.Prelude.{◌≡◌, length};

use answers::names::{CODES, Names, SEVERITIES};
use answers::queries::{put_parsing, put_query};
use answers::refusal::put_error;
use answers::result::put_result;
use answers::totals::put_line_end;
use inspection::address::address_of;
use inspection::inspect_goose::inspect_goose_on;
use inspection::inspect_mms::inspect_mms_on;
use inspection::inspect_sv::{inspect_raw_sv_on, inspect_sv_on};
use monitor::parts::{WORDS, add_goose_publisher_on, add_mms_rule_on, add_sv_publisher_on};
use monitor::reset::{new_on, reset_on};
use monitor::settings::{
    set_block_test_frames_on, set_mms_read_only_on, set_mms_service_mask_on, set_retx_schedule_on,
    set_sv_max_smp_cnt_gap_on, set_time_max_forward_jump_s_on,
};
use records::error::VsError;
use script::arguments::{flag_at, octets_at, rest_at, u16_at, u32_at, u64_at};
use script::calls::{Addition, Call, Setting};
use script::frames::{goose_frame, mms_frame, schedule, sv_frame};
use text::put::OctetWriter;

// The names that results are put with.
fn names() -> Names<'static> {
    Names {
        codes: &CODES,
        severities: &SEVERITIES,
    }
}

// Makes a call that sets the monitor up.
fn settle(m: &mut [u64; WORDS], setting: Setting, arguments: &[u8]) {
    match setting {
        Setting::New => new_on(m, false),
        Setting::NewStrict => new_on(m, true),
        Setting::Reset => reset_on(m),
        Setting::Totals => {}
        Setting::MmsServiceMask => set_mms_service_mask_on(m, u16_at(arguments, 0)),
        Setting::MmsReadOnly => set_mms_read_only_on(m, flag_at(arguments, 0)),
        Setting::BlockTestFrames => set_block_test_frames_on(m, flag_at(arguments, 0)),
        Setting::SvMaxSmpCntGap => set_sv_max_smp_cnt_gap_on(m, u16_at(arguments, 0)),
        Setting::RetxSchedule => {
            set_retx_schedule_on(m, schedule(arguments), flag_at(arguments, 9))
        }
        Setting::TimeMaxForwardJump => set_time_max_forward_jump_s_on(m, u32_at(arguments, 0)),
    }
}

// Makes a call that adds. A name is what the call has behind its numbers.
fn add(m: &mut [u64; WORDS], addition: Addition, arguments: &[u8]) -> Result<(), VsError> {
    let address = address_of(octets_at(arguments, 0));
    match addition {
        Addition::MmsRule => add_mms_rule_on(
            m,
            u16_at(arguments, 0),
            flag_at(arguments, 2),
            u16_at(arguments, 3),
        ),
        Addition::GoosePublisher => add_goose_publisher_on(m, address, rest_at(arguments, 6)),
        Addition::SvPublisher => {
            add_sv_publisher_on(m, address, rest_at(arguments, 8), u16_at(arguments, 6))
        }
    }
}

// Puts the answer of a call that adds.
fn put_added(out: &mut OctetWriter, answer: Result<(), VsError>)
    ensures { length out.new.octets.now ≡ length out.old.octets.now }
{
    match answer {
        Ok(()) => out.append(b"added"),
        Err(error) => put_error(out, error.number()),
    }
}

// Inspects an MMS frame, and puts the result.
fn inspect_mms(m: &mut [u64; WORDS], arguments: &[u8], out: &mut OctetWriter)
    ensures { length out.new.octets.now ≡ length out.old.octets.now }
{
    put_result(out, names(), &inspect_mms_on(m, mms_frame(arguments)));
}

// Inspects a GOOSE frame, and puts the result.
fn inspect_goose(m: &mut [u64; WORDS], arguments: &[u8], out: &mut OctetWriter)
    ensures { length out.new.octets.now ≡ length out.old.octets.now }
{
    put_result(out, names(), &inspect_goose_on(m, goose_frame(arguments)));
}

// Inspects an SV frame, and puts the result.
fn inspect_sv(m: &mut [u64; WORDS], arguments: &[u8], out: &mut OctetWriter)
    ensures { length out.new.octets.now ≡ length out.old.octets.now }
{
    put_result(out, names(), &inspect_sv_on(m, sv_frame(arguments)));
}

// A time, and the octets of a frame: puts what is read from them, and the result of their inspection.
fn inspect_raw_sv(m: &mut [u64; WORDS], arguments: &[u8], out: &mut OctetWriter)
    ensures { length out.new.octets.now ≡ length out.old.octets.now }
{
    let raw = inspect_raw_sv_on(m, rest_at(arguments, 8), u64_at(arguments, 0));
    put_parsing(out, arguments);
    out.append(b" result ");
    put_result(out, names(), &raw.result);
}

// Makes a call, and puts what it answers.
fn put_answer(m: &mut [u64; WORDS], call: Call, arguments: &[u8], out: &mut OctetWriter)
    ensures { length out.new.octets.now ≡ length out.old.octets.now }
{
    match call {
        Call::Set(setting) => {
            settle(m, setting, arguments);
            out.append(b"done");
        }
        Call::Add(addition) => put_added(out, add(m, addition, arguments)),
        Call::InspectMms => inspect_mms(m, arguments, out),
        Call::InspectGoose => inspect_goose(m, arguments, out),
        Call::InspectSv => inspect_sv(m, arguments, out),
        Call::InspectRawSv => inspect_raw_sv(m, arguments, out),
        Call::Ask(query) => put_query(out, query, arguments),
    }
}

// Makes a call, and puts its line, which ends with the totals.
pub fn make_call(m: &mut [u64; WORDS], call: Call, arguments: &[u8], out: &mut OctetWriter)
    ensures { length out.new.octets.now ≡ length out.old.octets.now }
{
    put_answer(m, call, arguments, out);
    put_line_end(out, m);
}
