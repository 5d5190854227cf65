// The APDU of IEC 60870-5-104: 68 hex, the length L, four control octets, and in an I frame an ASDU.
#![tactic(auto)]

pub mod frame;
pub mod reading;
pub mod writing;
