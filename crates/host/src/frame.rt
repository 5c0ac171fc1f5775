// Frames as structs of numbers. An SV frame of records is one already.
ghost use Rattle.std.specs.Prelude.{◌≡◌};
ghost use Rattle.host.specs.Frame.{mms_frame_of, goose_frame_of};

use records::frame::{GooseFrame, MmsFrame};
use records::service::MmsServiceType;

// An MMS request, with its service by number: 1 to 12, any other is unknown.
#[repr(C)]
#[derive(Clone, Copy)]
pub struct HostMmsFrame {
    pub service_type: u8,
    pub raw_service_type: u8,
    pub domain: [u8; 64],
    pub domain_len: u8,
    pub invoke_id: u32,
    pub timestamp_us: u64,
    pub client_id: u32,
    pub control_block_is_goose: u8,
}

// A GOOSE message, with its test flag as a number.
#[repr(C)]
#[derive(Clone, Copy)]
pub struct HostGooseFrame {
    pub src_mac: [u8; 6],
    pub go_cb_ref: [u8; 64],
    pub go_cb_ref_len: u8,
    pub st_num: u32,
    pub sq_num: u32,
    pub test: u8,
    pub timestamp_us: u64,
    pub t_seconds_since_epoch: u32,
    pub t_fraction_of_second: u32,
}

// The engine's MMS frame of one of numbers.
impl From<HostMmsFrame> for MmsFrame {
    ghost from_gives = { λ f r. r ≡ mms_frame_of f };

    fn from(f: HostMmsFrame) -> MmsFrame {
        let domain = f.domain;
        MmsFrame {
            service_type: MmsServiceType::from_u8(f.service_type),
            raw_service_type: f.raw_service_type,
            domain,
            domain_len: f.domain_len,
            invoke_id: f.invoke_id,
            timestamp_us: f.timestamp_us,
            client_id: f.client_id,
            control_block_is_goose: f.control_block_is_goose != 0,
        }
    }
}

// The engine's GOOSE frame of one of numbers.
impl From<HostGooseFrame> for GooseFrame {
    ghost from_gives = { λ f r. r ≡ goose_frame_of f };

    fn from(f: HostGooseFrame) -> GooseFrame {
        let src_mac = f.src_mac;
        let go_cb_ref = f.go_cb_ref;
        GooseFrame {
            src_mac,
            go_cb_ref,
            go_cb_ref_len: f.go_cb_ref_len,
            st_num: f.st_num,
            sq_num: f.sq_num,
            test: f.test != 0,
            timestamp_us: f.timestamp_us,
            t_seconds_since_epoch: f.t_seconds_since_epoch,
            t_fraction_of_second: f.t_fraction_of_second,
        }
    }
}
