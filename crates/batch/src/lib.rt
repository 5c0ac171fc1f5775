// Many SV frames in one call, for hosts: inspected one after the other in the monitor where it stands. Each frame is a record of 160
// octets, which is its C layout (crate lent), each verdict one of 8 (records::verdict).
#![tactic(auto)]

ghost use Rattle.std.specs.Prelude.{◌≡◌, length};
ghost use Rattle.monitor.specs.Monitor.{monitor_of};
ghost use Rattle.inspection.specs.InspectSv.{inspect_sv};
ghost use Rattle.lent.specs.Sv.{sv_frame_of};
ghost use Rattle.batch.specs.Batch.{batch_count, verdict_put, sv_batch};

use inspection::report::{CLEAN_VERDICT, none_found, noted_on};
use lent::sv::check_sv_lent;
use monitor::parts::WORDS;
use records::verdict::put_verdict;

// How many frames are inspected: whole records, with room for a verdict of each.
#[tactic(auto, unfolding(crate::specs::Batch::batch_count))]
fn batch_count(frames_len: usize, verdicts_len: usize) -> usize
    ensures { result ≡ batch_count frames_len verdicts_len }
{
    (frames_len / 160).min(verdicts_len / 8)
}

// Inspects a frame, and puts its verdict from a place on. Most frames have no alert: their verdict is put at once.
fn inspect_sv_into(m: &mut [u64; WORDS], o: &[u8], verdicts: &mut [u8], at: usize)
    requires { length o.now ≡ 160 }
    ensures { record { monitor = monitor_of m.new; answer = verdicts.new }
        ≡ verdict_put verdicts.old at (inspect_sv (monitor_of m.old) (sv_frame_of o.now)) }
{
    let alerts = check_sv_lent(m, o);
    if none_found(alerts) {
        put_verdict(verdicts, at, CLEAN_VERDICT);
        return;
    }
    let verdict = noted_on(m, alerts);
    put_verdict(verdicts, at, verdict);
}

// Inspects the frames, writes a verdict for each, and answers how many there were. Octets behind the last whole record are not read, and
// a frame without room for its verdict is not inspected.
#[tactic(auto, unfolding(crate::specs::Batch::batch_count))]
pub fn inspect_sv_batch(m: &mut [u64; WORDS], frames: &[u8], verdicts: &mut [u8]) -> usize
    ensures { record { monitor = monitor_of m.new; verdicts = verdicts.new; count = result }
        ≡ sv_batch (monitor_of m.old) frames.now verdicts.old }
{
    let n = batch_count(frames.len(), verdicts.len());
    for i in 0..n {
        inspect_sv_into(m, &frames[i * 160..i * 160 + 160], verdicts, i * 8);
    }
    n
}
