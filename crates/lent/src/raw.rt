// A raw SV frame, read where it stands.
ghost use Rattle.std.specs.Prelude.{ℕ, List, ◌≡◌};
ghost use Rattle.sv_frame.specs.Places.{reading_at};
ghost use Rattle.sv_frame.specs.Sv.{apdu_frame};
ghost use Rattle.monitor.specs.Monitor.{monitor_of};
ghost use Rattle.inspection.specs.InspectSv.{parsed_inspected, inspect_raw_sv};
ghost use Rattle.inspection.specs.Report.{alerts_of};
ghost use Rattle.lent.specs.Raw.{with_raw_verdict, refused_verdict, answered_verdict, checked_reading};

use checks::keys::plain_key;
use inspection::address::address_of;
use inspection::inspect_sv::{SvNumbers, sv_checks_on};
use inspection::report::{CheckAlerts, verdict_on};
use monitor::parts::WORDS;
use monitor::totals::{SV_TOTAL_INSPECTED, count_frame_on};
use records::error::VsError;
use records::name::Name;
use sv_frame::field::{name_len, overlay};
use sv_frame::places::{SvPlaces, name_octets, sv_places};
use sv_frame::sv::sv_asdu;
use wire::element::content;
use wire::header::{ETHERTYPE_SV, ethernet_header};

// The verdict on a raw frame, with the error where it could not be read: there is a verdict in both cases.
#[derive(Clone, Copy)]
pub struct RawVerdict {
    pub answer: Result<(), VsError>,
    pub verdict: [u8; 8],
}

// The verdict on a frame that was not read: its error, not allowed, and no alert.
fn refused_verdict(error: VsError) -> RawVerdict
    ensures { result ≡ refused_verdict error }
{
    RawVerdict {
        answer: Err(error),
        verdict: [0; 8],
    }
}

// Counts and checks a frame of a source's address, by the places of its ASDU. A name that is made where it is lent is not copied once more.
fn check_places(m: &mut [u64; WORDS], asdu: &[u8], address: u64, p: SvPlaces) -> CheckAlerts
    ensures { (source : List ℕ) → record { monitor = monitor_of m.new; answer = alerts_of result }
        ≡ checked_reading (monitor_of m.old) address (reading_at source asdu.now p) }
{
    let n = SvNumbers {
        address,
        seconds: p.seconds,
        fraction: p.fraction,
        smp_cnt: p.smp_cnt,
        smp_rate: p.smp_rate,
    };
    let svid = content(asdu, p.svid.start, p.svid.len);
    let dataset = content(asdu, p.dataset.start, p.dataset.len);
    let mut dataset_name = [0u8; 64];
    overlay(&mut dataset_name, dataset);
    count_frame_on(m, SV_TOTAL_INSPECTED);
    sv_checks_on(
        m,
        &plain_key(Name {
            octets: &name_octets(svid),
            len: name_len(svid),
        }),
        Name {
            octets: &dataset_name,
            len: name_len(dataset),
        },
        n,
    )
}

// Inspects the frame of an APDU from a source, and answers the verdict, or the error where it could not be read.
fn apdu_verdict(m: &mut [u64; WORDS], apdu: &[u8], source: [u8; 6]) -> Result<[u8; 8], VsError>
    ensures { (time : ℕ) → record { monitor = monitor_of m.new; answer = answered_verdict result }
        ≡ with_raw_verdict (parsed_inspected (monitor_of m.old) (apdu_frame apdu.now source time)) }
{
    // Made before the searches, which the six octets would else be kept through.
    let address = address_of(source);
    let place = sv_asdu(apdu)?;
    let asdu = content(apdu, place.start, place.len);
    let p = sv_places(asdu)?;
    let alerts = check_places(m, asdu, address, p);
    Ok(verdict_on(m, alerts))
}

// Inspects a raw frame, and answers the verdict, which does not depend on the frame's time. One that cannot be read leaves the monitor, and is not
// allowed.
pub fn raw_sv_verdict_lent(m: &mut [u64; WORDS], bytes: &[u8]) -> RawVerdict
    ensures { (time : ℕ) → record { monitor = monitor_of m.new; answer = result }
        ≡ with_raw_verdict (inspect_raw_sv (monitor_of m.old) bytes.now time) }
{
    let Some(found) = ethernet_header(bytes, ETHERTYPE_SV) else {
        return refused_verdict(VsError::InvalidInput);
    };
    let apdu = &bytes[found.apdu.start..found.apdu.end];
    match apdu_verdict(m, apdu, found.src_mac) {
        Ok(verdict) => RawVerdict {
            answer: Ok(()),
            verdict,
        },
        Err(error) => refused_verdict(error),
    }
}
