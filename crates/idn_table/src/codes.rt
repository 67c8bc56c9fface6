//! SoE error codes (ETG.1000.6, "SoE error codes").

/// No such IDN of the drive.
pub const NO_IDN: u16 = 0x1001;
/// No such element, or other than one element at a time.
pub const NO_ELEMENT: u16 = 0x1009;
/// The IDN has no name.
pub const NO_NAME: u16 = 0x2001;
/// The name can't be written.
pub const NAME_READ_ONLY: u16 = 0x2004;
/// The attribute can't be written.
pub const ATTRIBUTE_READ_ONLY: u16 = 0x3004;
/// The IDN has no unit.
pub const NO_UNIT: u16 = 0x4001;
/// The unit can't be written.
pub const UNIT_READ_ONLY: u16 = 0x4004;
/// The IDN has no minimum.
pub const NO_MINIMUM: u16 = 0x5001;
/// The minimum can't be written.
pub const MINIMUM_READ_ONLY: u16 = 0x5004;
/// The IDN has no maximum.
pub const NO_MAXIMUM: u16 = 0x6001;
/// The maximum can't be written.
pub const MAXIMUM_READ_ONLY: u16 = 0x6004;
/// The value is too short.
pub const VALUE_TOO_SHORT: u16 = 0x7002;
/// The value is too long.
pub const VALUE_TOO_LONG: u16 = 0x7003;
/// The value can't be written.
pub const VALUE_READ_ONLY: u16 = 0x7004;
/// The value is below its minimum.
pub const VALUE_TOO_SMALL: u16 = 0x7006;
/// The value is above its maximum.
pub const VALUE_TOO_LARGE: u16 = 0x7007;
