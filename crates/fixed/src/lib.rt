// The formats of a fixed length: 47H, 92H, 93H, 96H and 51H.

#![tactic(auto)]

mod limits;
mod parameters;
mod texts;

pub use limits::ManagementLimits;
pub use parameters::SystemParameters;
pub use texts::{FirmwareVersion, MakerText, SerialNumber};
