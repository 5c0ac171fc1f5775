// Carried over from industrial/iec61850-monitor/src/lib.rs and industrial/types-ind/src/lib.rs of craton-shield a31d888527
// (Apache-2.0) and changed: `is_default` says what each default is.
ghost use Rattle.std.specs.Prelude.{◌≡◌};
ghost use Rattle.records.specs.Frame.{default_mms, default_goose, default_sv};

use crate::service::MmsServiceType;

// The fields of the frames are the source's, and those of an SV frame C's layout too: a name is two of them.

// An MMS association.
pub type MmsClientId = u32;

// A decoded MMS request. In SelectControl, CancelControl and Conclude `domain` names the control block. The service and its raw
// number may disagree.
#[derive(Clone, Copy)]
pub struct MmsFrame {
    pub service_type: MmsServiceType,
    pub raw_service_type: u8,
    pub domain: [u8; 64],
    pub domain_len: u8,
    pub invoke_id: u32,
    pub timestamp_us: u64,
    pub client_id: MmsClientId,
    pub control_block_is_goose: bool,
}

// A decoded GOOSE message (IEC 61850-8-1). The pair of t is (0, 0) where the field is absent.
#[derive(Clone, Copy)]
pub struct GooseFrame {
    pub src_mac: [u8; 6],
    pub go_cb_ref: [u8; 64],
    pub go_cb_ref_len: u8,
    pub st_num: u32,
    pub sq_num: u32,
    pub test: bool,
    pub timestamp_us: u64,
    pub t_seconds_since_epoch: u32,
    pub t_fraction_of_second: u32,
}

// A decoded sampled-values frame (IEC 61850-9-2). The rate is 0 and the pair of t (0, 0) where the field is absent.
#[repr(C)]
#[derive(Clone, Copy)]
pub struct SvFrame {
    pub src_mac: [u8; 6],
    pub svid_len: u8,
    pub svid: [u8; 64],
    pub smp_cnt: u16,
    pub smp_rate: u16,
    pub dataset_ref_len: u8,
    pub dataset_ref: [u8; 64],
    pub timestamp_us: u64,
    pub t_seconds_since_epoch: u32,
    pub t_fraction_of_second: u32,
}

impl Default for MmsFrame {
    ghost is_default = { λ frame. frame ≡ default_mms };

    fn default() -> Self {
        MmsFrame {
            service_type: MmsServiceType::Read,
            raw_service_type: 1,
            domain: [0; 64],
            domain_len: 0,
            invoke_id: 0,
            timestamp_us: 0,
            client_id: 0,
            control_block_is_goose: true,
        }
    }
}

impl Default for GooseFrame {
    ghost is_default = { λ frame. frame ≡ default_goose };

    fn default() -> Self {
        GooseFrame {
            src_mac: [0; 6],
            go_cb_ref: [0; 64],
            go_cb_ref_len: 0,
            st_num: 0,
            sq_num: 0,
            test: false,
            timestamp_us: 0,
            t_seconds_since_epoch: 0,
            t_fraction_of_second: 0,
        }
    }
}

impl Default for SvFrame {
    ghost is_default = { λ frame. frame ≡ default_sv };

    fn default() -> Self {
        SvFrame {
            src_mac: [0; 6],
            svid_len: 0,
            svid: [0; 64],
            smp_cnt: 0,
            smp_rate: 0,
            dataset_ref_len: 0,
            dataset_ref: [0; 64],
            timestamp_us: 0,
            t_seconds_since_epoch: 0,
            t_fraction_of_second: 0,
        }
    }
}
