//! The serial of a command: its type, and with it its width in stored formats. Nothing else knows the width.

/// The type of a serial; `serial_bytes` in specs/Commands.antt tells the same width.
pub type Serial = u32;

/// How many bytes a stored serial takes.
pub const SERIAL_BYTES: usize = size_of::<Serial>();
