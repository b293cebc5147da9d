//! Numbers in areas of bytes, the lowest byte first: the building blocks of every stored format.
//! Each asks that its part lies within the area; the formats above test that first and refuse.

#![tactic(auto)]

ghost use Rattle.std.specs.Prelude.{◌≡◌, ℕ, ◌+◌, ◌≤◌, length};
ghost use Rattle.octets.specs.Areas.{part, over};
ghost use Rattle.octets.specs.Numbers.{le, num};

/// A number that formats store in a fixed count of bytes, the lowest first.
pub trait Number: Copy {
    ghost bytes: { ℕ };

    ghost value: { Self → ℕ };

    /// Writes it from offset `at` on. Building block: it must lie within the area.
    fn write_le(self, area: &mut [u8], at: usize)
        requires { at + bytes ≤ length area.old }
        ensures { area.new ≡ over area.old at (le bytes (value self)) };

    /// The number stored from offset `at` on. Building block: it must lie within the area.
    fn read_le(area: &[u8], at: usize) -> Self
        requires { at + bytes ≤ length area.now }
        ensures { value result ≡ num (part at bytes area.now) };
}

// Three short impls: a trait over the types' own `to_le_bytes`, as num_traits has one, would put its arrays into each clause.

impl Number for u8 {
    ghost bytes = { 1 };

    ghost value = { λ n. n };

    fn write_le(self, area: &mut [u8], at: usize) {
        area[at] = self;
    }

    fn read_le(area: &[u8], at: usize) -> u8 {
        u8::from_le_bytes([area[at]])
    }
}

impl Number for u16 {
    ghost bytes = { 2 };

    ghost value = { λ n. n };

    fn write_le(self, area: &mut [u8], at: usize) {
        let two = self.to_le_bytes();
        write_bytes(area, at, &two);
    }

    fn read_le(area: &[u8], at: usize) -> u16 {
        u16::from_le_bytes([area[at], area[at + 1]])
    }
}

impl Number for u32 {
    ghost bytes = { 4 };

    ghost value = { λ n. n };

    fn write_le(self, area: &mut [u8], at: usize) {
        let four = self.to_le_bytes();
        write_bytes(area, at, &four);
    }

    fn read_le(area: &[u8], at: usize) -> u32 {
        u32::from_le_bytes([area[at], area[at + 1], area[at + 2], area[at + 3]])
    }
}

/// Writes these bytes from offset `at` on. Building block: they must lie within the area.
pub fn write_bytes(area: &mut [u8], at: usize, bytes: &[u8])
    requires { at + length bytes.now ≤ length area.old }
    ensures { area.new ≡ over area.old at bytes.now }
{
    let end = at + bytes.len();
    area[at..end].copy_from_slice(bytes);
}
