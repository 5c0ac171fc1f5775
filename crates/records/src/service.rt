// Carried over from industrial/iec61850-monitor/src/lib.rs of craton-shield a31d888527 (Apache-2.0) and changed: the number has
// a function.
ghost use Rattle.std.specs.Prelude.{◌≡◌};
ghost use Rattle.records.specs.Service.{service_number, service_of, is_write};

// The MMS services (ISO 9506) that the monitor tells apart.
#[derive(Clone, Copy, PartialEq, Eq)]
pub enum MmsServiceType {
    Read = 1,
    Write = 2,
    GetNameList = 3,
    GetVariableAccessAttributes = 4,
    DefineNamedVariable = 5,
    DeleteNamedVariable = 6,
    GetDataValues = 7,
    SetDataValues = 8,
    Initiate = 9,
    Conclude = 10,
    SelectControl = 11,
    CancelControl = 12,
    Unknown = 255,
}

impl MmsServiceType {
    // The service's number.
    pub fn number(self) -> u8
        ensures { result ≡ service_number self }
    {
        self as u8
    }

    // The service of a raw number.
    #[tactic(auto, unfolding(crate::specs::Service::service_of))]
    pub fn from_u8(v: u8) -> Self
        ensures { result ≡ service_of v }
    {
        match v {
            1 => MmsServiceType::Read,
            2 => MmsServiceType::Write,
            3 => MmsServiceType::GetNameList,
            4 => MmsServiceType::GetVariableAccessAttributes,
            5 => MmsServiceType::DefineNamedVariable,
            6 => MmsServiceType::DeleteNamedVariable,
            7 => MmsServiceType::GetDataValues,
            8 => MmsServiceType::SetDataValues,
            9 => MmsServiceType::Initiate,
            10 => MmsServiceType::Conclude,
            11 => MmsServiceType::SelectControl,
            12 => MmsServiceType::CancelControl,
            _ => MmsServiceType::Unknown,
        }
    }

    // Whether the service changes the substation's state.
    #[tactic(auto, unfolding(crate::specs::Service::is_write))]
    pub fn is_write(self) -> bool
        ensures { result ≡ is_write self }
    {
        matches!(
            self,
            MmsServiceType::Write
                | MmsServiceType::DefineNamedVariable
                | MmsServiceType::DeleteNamedVariable
                | MmsServiceType::SetDataValues
        )
    }
}
