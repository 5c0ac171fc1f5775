// Carried over from core/types/src/lib.rs and industrial/types-ind/src/lib.rs of craton-shield a31d888527 (Apache-2.0) and
// changed: the numbers have functions, and a code stands in one struct with its alert.
ghost use Rattle.std.specs.Prelude.{◌≡◌};
ghost use Rattle.records.specs.Alert.{severity_number, denies, code_number, alert_of, no_alert};

#[derive(Clone, Copy, PartialEq, Eq)]
pub enum AlertSeverity {
    Info = 0,
    Low = 1,
    Medium = 2,
    High = 3,
    Critical = 4,
}

impl AlertSeverity {
    // The severity's number in the archives.
    pub fn number(self) -> u8
        ensures { result ≡ severity_number self }
    {
        self as u8
    }

    // Whether an alert of this severity clears a result's allowed flag.
    #[tactic(auto, unfolding(crate::specs::Alert::denies))]
    pub fn denies(self) -> bool
        ensures { result ≡ denies self }
    {
        matches!(self, AlertSeverity::High | AlertSeverity::Critical)
    }
}

// What an alert is about.
#[derive(Clone, Copy, PartialEq, Eq)]
pub enum AlertCode {
    Unspecified = 0,
    CrcFailure = 1,
    WriteProtection = 2,
    ReplayDetected = 3,
    RateExceeded = 4,
    FloodAbuse = 5,
    PolicyViolation = 6,
    UnknownFunctionCode = 7,
    DiagnosticBlocked = 8,
    EndpointBlocked = 9,
    SecurityModeViolation = 10,
    SessionAnomaly = 11,
    AlarmFlood = 12,
    SequenceAnomaly = 13,
    PayloadOverflow = 14,
    InvalidProtocol = 15,
    NoMatchingRule = 16,
    MessageTypeBlocked = 17,
    ProviderStateChange = 18,
    DcpBlocked = 19,
    MessageSizeExceeded = 20,
    AddressViolation = 21,
    UnknownSession = 22,
    ResourceExhausted = 23,
    ObjectAccessDenied = 24,
    CipServiceBlocked = 25,
    SvReplay = 26,
    SvRateAnomaly = 27,
    IedMismatch = 28,
    CbHijack = 29,
    RetransmissionAnomaly = 30,
    TimeSyncSpoofing = 31,
    ClockRegression = 32,
    UnitNotAllowed = 33,
    InvalidUnitId = 34,
    TxIdReplay = 35,
    BadLinkCrc = 36,
    TransportSeqAnomaly = 37,
    SaDowngrade = 38,
    IinFlagSpoofing = 39,
    ForeignDevice = 40,
    NpduLoop = 41,
    BroadcastFlood = 42,
}

impl AlertCode {
    // The code's number in the archives.
    pub fn code(self) -> u8
        ensures { result ≡ code_number self }
    {
        self as u8
    }
}

// The protocol that an alert or a result is about, by its number: `InspectResult::clean` and `CodedAlert::new` take any.
pub const SOURCE_IEC61850_MMS: u8 = 40;

pub const SOURCE_IEC61850_GOOSE: u8 = 41;

pub const SOURCE_IEC61850_SV: u8 = 42;

// An alert. Its source number is the frame's invoke id, stNum or smpCnt.
#[derive(Clone, Copy, PartialEq, Eq)]
pub struct SecurityAlert {
    pub id: u64,
    pub timestamp_us: u64,
    pub payload_hash: [u8; 32],
    pub severity: AlertSeverity,
    pub source_id: u32,
    pub source_type: u8,
}

// An alert with its code.
#[derive(Clone, Copy, PartialEq, Eq)]
pub struct CodedAlert {
    pub alert: SecurityAlert,
    pub code: AlertCode,
}

impl CodedAlert {
    // An alert with a zero hash.
    #[tactic(auto, unfolding(crate::specs::Alert::alert_of))]
    pub fn new(
        id: u64,
        severity: AlertSeverity,
        source_type: u8,
        source_id: u32,
        ts_us: u64,
        code: AlertCode,
    ) -> Self
        ensures { result ≡ alert_of id severity source_type source_id ts_us code }
    {
        CodedAlert {
            alert: SecurityAlert {
                id,
                timestamp_us: ts_us,
                payload_hash: [0; 32],
                severity,
                source_id,
                source_type,
            },
            code,
        }
    }

    // What stands in a slot that holds no alert.
    #[tactic(auto, unfolding(crate::specs::Alert::no_alert))]
    pub fn none(source_type: u8) -> Self
        ensures { result ≡ no_alert source_type }
    {
        CodedAlert::new(
            0,
            AlertSeverity::Info,
            source_type,
            0,
            0,
            AlertCode::Unspecified,
        )
    }
}
