// Carried over from core/types/src/lib.rs of craton-shield a31d888527 (Apache-2.0) and changed: the number has a function.
// The errors that an entry answers with.
ghost use Rattle.std.specs.Prelude.{◌≡◌};
ghost use Rattle.records.specs.Error.{error_number};

#[derive(Clone, Copy, PartialEq, Eq)]
pub enum VsError {
    CryptoError = 0,
    BusError = 1,
    PolicyViolation = 2,
    IntegrityFailure = 3,
    AuthenticationFailure = 4,
    Timeout = 5,
    ResourceExhausted = 6,
    NotInitialized = 7,
    StorageError = 8,
    InvalidInput = 9,
    InvalidConfig = 10,
    NotFound = 11,
    OverlappingRegion = 12,
    KeyExpired = 13,
    KeyRevoked = 14,
}

impl VsError {
    // The error's number in the archives.
    pub fn number(self) -> u8
        ensures { result ≡ error_number self }
    {
        self as u8
    }
}
