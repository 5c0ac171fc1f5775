// The frames and the schedule of a call, out of its arguments, at places that their kinds decide (`CALLS` of `calls`).
use crate::arguments::{flag_at, octets_at, u16_at, u32_at, u64_at};
use records::frame::{GooseFrame, MmsFrame, SvFrame};
use records::octets::octet_at;
use records::schedule::RetxSchedule;
use records::service::MmsServiceType;

// The schedule of `set_retx_schedule` and `interval`: initial and largest interval, tolerance.
pub fn schedule(arguments: &[u8]) -> RetxSchedule {
    RetxSchedule {
        initial_us: u32_at(arguments, 0),
        t_max_us: u32_at(arguments, 4),
        tolerance_pct: octet_at(arguments, 8),
    }
}

// The frame of `inspect_mms`: service, raw number, stated length, name, invoke id, time, client, kind.
pub fn mms_frame(arguments: &[u8]) -> MmsFrame {
    MmsFrame {
        service_type: MmsServiceType::from_u8(octet_at(arguments, 0)),
        raw_service_type: octet_at(arguments, 1),
        domain: octets_at(arguments, 3),
        domain_len: octet_at(arguments, 2),
        invoke_id: u32_at(arguments, 67),
        timestamp_us: u64_at(arguments, 71),
        client_id: u32_at(arguments, 79),
        control_block_is_goose: flag_at(arguments, 83),
    }
}

// The frame of `inspect_goose`: address, stated length, name, stNum, sqNum, test, time, clock.
pub fn goose_frame(arguments: &[u8]) -> GooseFrame {
    GooseFrame {
        src_mac: octets_at(arguments, 0),
        go_cb_ref: octets_at(arguments, 7),
        go_cb_ref_len: octet_at(arguments, 6),
        st_num: u32_at(arguments, 71),
        sq_num: u32_at(arguments, 75),
        test: flag_at(arguments, 79),
        timestamp_us: u64_at(arguments, 80),
        t_seconds_since_epoch: u32_at(arguments, 88),
        t_fraction_of_second: u32_at(arguments, 92),
    }
}

// The frame of `inspect_sv`: address, stated length, svID, smpCnt, rate, stated length, data set, time, clock.
pub fn sv_frame(arguments: &[u8]) -> SvFrame {
    SvFrame {
        src_mac: octets_at(arguments, 0),
        svid_len: octet_at(arguments, 6),
        svid: octets_at(arguments, 7),
        smp_cnt: u16_at(arguments, 71),
        smp_rate: u16_at(arguments, 73),
        dataset_ref_len: octet_at(arguments, 75),
        dataset_ref: octets_at(arguments, 76),
        timestamp_us: u64_at(arguments, 140),
        t_seconds_since_epoch: u32_at(arguments, 148),
        t_fraction_of_second: u32_at(arguments, 152),
    }
}
