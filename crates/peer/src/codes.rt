// The standard's status and reason codes that are sent, and its highest AID.
// Numbers: `respond`, `answer` and `deauthenticate` take any status or reason, and a frame carries it as it is.
pub const STATUS_REFUSED: u16 = 1;

pub const STATUS_ALGORITHM: u16 = 13;

pub const STATUS_FULL: u16 = 17;

pub const STATUS_LATER: u16 = 30;

pub const REASON_CLASS_2: u16 = 6;

pub const REASON_CLASS_3: u16 = 7;

pub const LAST_AID: u16 = 2007;
