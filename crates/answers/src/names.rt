// The names of alert codes and of severities.
ghost use Rattle.std.specs.Prelude.{◌≡◌, length};

use text::put::OctetWriter;

// The names of the alert codes by their numbers.
pub static CODES: [&str; 43] = [
    "Unspecified",
    "CrcFailure",
    "WriteProtection",
    "ReplayDetected",
    "RateExceeded",
    "FloodAbuse",
    "PolicyViolation",
    "UnknownFunctionCode",
    "DiagnosticBlocked",
    "EndpointBlocked",
    "SecurityModeViolation",
    "SessionAnomaly",
    "AlarmFlood",
    "SequenceAnomaly",
    "PayloadOverflow",
    "InvalidProtocol",
    "NoMatchingRule",
    "MessageTypeBlocked",
    "ProviderStateChange",
    "DcpBlocked",
    "MessageSizeExceeded",
    "AddressViolation",
    "UnknownSession",
    "ResourceExhausted",
    "ObjectAccessDenied",
    "CipServiceBlocked",
    "SvReplay",
    "SvRateAnomaly",
    "IedMismatch",
    "CbHijack",
    "RetransmissionAnomaly",
    "TimeSyncSpoofing",
    "ClockRegression",
    "UnitNotAllowed",
    "InvalidUnitId",
    "TxIdReplay",
    "BadLinkCrc",
    "TransportSeqAnomaly",
    "SaDowngrade",
    "IinFlagSpoofing",
    "ForeignDevice",
    "NpduLoop",
    "BroadcastFlood",
];

// The names of the severities by their numbers.
pub static SEVERITIES: [&str; 5] = ["Info", "Low", "Medium", "High", "Critical"];

// The names that a result is put with, by the numbers of codes and of severities: `CODES` and `SEVERITIES`, or a caller's own.
#[derive(Clone, Copy)]
pub struct Names<'a> {
    pub codes: &'a [&'a str],
    pub severities: &'a [&'a str],
}

// Puts a space and the name of a number, if it has one.
pub fn put_name(out: &mut OctetWriter, names: &[&str], number: usize)
    ensures { length out.new.octets.now ≡ length out.old.octets.now }
{
    out.append(b" ");
    if let Some(name) = names.get(number) {
        out.append(name.as_bytes());
    }
}
