// The check of an SV count by value, carried over from industrial/iec61850-monitor/src/lib.rs of craton-shield a31d888527 (Apache-2.0)
// and changed: the table of streams by itself, in and out. The inspections make the same check on the monitor's words.
ghost use Rattle.std.specs.Prelude.{◌≡◌};
ghost use Rattle.records.specs.Name.{name_of};
ghost use Rattle.tables.specs.Order.{no_entries};
ghost use Rattle.checks.specs.Keys.{plain_key};
ghost use Rattle.checks.specs.SvSeq.{sv_checked};

use checks::keys::plain_key;
use checks::sv_seq::{SvSeqOutcome, check_sv_seq_in};
use records::name::Name;
use tables::order::clear;

// Sixteen streams, each of one svID, with its last count.
#[derive(Clone, Copy)]
pub struct SvSeqTable {
    pub words: [u64; 178],
}

// The streams after a frame, and what its count says.
#[derive(Clone, Copy)]
pub struct SvChecked {
    pub table: SvSeqTable,
    pub outcome: SvSeqOutcome,
}

impl SvSeqTable {
    // No streams.
    pub fn new() -> Self
        ensures { result.words ≡ no_entries 178 }
    {
        let mut out = SvSeqTable { words: [0; 178] };
        clear(&mut out.words);
        out
    }
}

// The streams after a frame of this svID and count, and what the count says.
pub fn check_sv_seq(mut table: SvSeqTable, svid: [u8; 64], svid_len: u8, smp_cnt: u16) -> SvChecked
    ensures { record { table = result.table.words; outcome = result.outcome }
        ≡ sv_checked table.words (plain_key (name_of svid svid_len)) smp_cnt }
{
    let key = plain_key(Name {
        octets: &svid,
        len: svid_len,
    });
    let outcome = check_sv_seq_in(&mut table.words, &key, smp_cnt);
    SvChecked { table, outcome }
}
