//! The bytes of the protocol, by their names in RFC 854.

/// The byte that may follow a carriage return in place of a line feed.
pub const NUL: u8 = 0;
/// Line feed.
pub const LF: u8 = 10;
/// Carriage return.
pub const CR: u8 = 13;
/// The end of a subnegotiation. From here on a byte after `IAC` is a command.
pub const SE: u8 = 240;
/// "Are you there": asks for a sign of life.
pub const AYT: u8 = 246;
/// Erase character.
pub const EC: u8 = 247;
/// Erase line.
pub const EL: u8 = 248;
/// The beginning of a subnegotiation.
pub const SB: u8 = 250;
/// The other side wants to perform an option.
pub const WILL: u8 = 251;
/// The other side does not perform an option.
pub const WONT: u8 = 252;
/// The other side wants this side to perform an option.
pub const DO: u8 = 253;
/// The other side wants this side not to perform an option.
pub const DONT: u8 = 254;
/// "Interpret as command": the byte that comes before each command.
pub const IAC: u8 = 255;
