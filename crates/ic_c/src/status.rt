//! What each call answers: a number with a name.

/// Done.
pub const OK: u8 = 0;

/// Memory ran out.
pub const NO_MEMORY: u8 = 1;

/// The reply has no room; it is kept.
pub const NO_ROOM: u8 = 2;

/// No book is open.
pub const NOT_OPEN: u8 = 3;

/// A text isn't UTF-8.
pub const NOT_UTF8: u8 = 4;

/// The tables lack the time zone.
pub const INVALID_TIMEZONE: u8 = 5;

/// The tables lack the locale.
pub const INVALID_LOCALE: u8 = 6;

/// The tables lack the language.
pub const INVALID_LANGUAGE: u8 = 7;

/// The moment is outside the years -9999 to 9999.
pub const INVALID_MOMENT: u8 = 8;
