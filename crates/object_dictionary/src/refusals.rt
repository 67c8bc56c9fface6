/// The toggle bit doesn't alternate (CiA 301, "SDO abort codes", as all codes here).
pub const TOGGLE_NOT_ALTERNATED: u32 = 0x0503_0000;
/// The command specifier isn't valid here, or unknown.
pub const COMMAND_NOT_VALID: u32 = 0x0504_0001;
/// The object isn't there.
pub const NO_OBJECT: u32 = 0x0602_0000;
/// The subindex isn't there.
pub const NO_SUBINDEX: u32 = 0x0609_0011;
/// The object can't be read or written by complete access, or the list isn't there.
pub const NOT_SUPPORTED: u32 = 0x0601_0000;
/// The entry can't be read.
pub const NOT_READABLE: u32 = 0x0601_0001;
/// The entry can't be written.
pub const NOT_WRITABLE: u32 = 0x0601_0002;
/// The entry can't be read or written in this state.
pub const NOT_IN_STATE: u32 = 0x0800_0022;
/// The value is too long.
pub const TOO_LONG: u32 = 0x0607_0012;
/// The value is too short.
pub const TOO_SHORT: u32 = 0x0607_0013;
/// The value is above the greatest that the entry may hold.
pub const ABOVE_MAXIMUM: u32 = 0x0609_0031;
/// The value is below the least that the entry may hold.
pub const BELOW_MINIMUM: u32 = 0x0609_0032;
