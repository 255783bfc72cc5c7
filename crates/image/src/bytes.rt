// Numbers in bytes, low byte first.
ghost use Rattle.std.specs.Prelude.{◌≡◌, ◌++◌, ℕ, ◌+◌, ◌≤◌, length, take, drop};
ghost use Rattle.image.specs.Bytes.{field, bytes};

// A number as it stands in an image: of how many bytes it is, and how it is read and written.
pub trait Word: Copy {
    const BYTES: usize;

    ghost BYTES: { ℕ };

    ghost value: { Self → ℕ };

    // The number at an offset.
    fn read(buffer: &[u8], at: usize) -> Self
        requires { at + BYTES ≤ length buffer.now }
        ensures { value result ≡ field BYTES buffer.now at };

    // Writes the number at an offset.
    fn write(self, buffer: &mut [u8], at: usize)
        requires { at + BYTES ≤ length buffer.old }
        ensures { buffer.new ≡ take at buffer.old ++ (bytes BYTES (value self) ++ drop (at + BYTES) buffer.old) };
}

impl Word for u16 {
    const BYTES: usize = 2;

    ghost BYTES = { 2 };

    ghost value = { λ x. x };

    fn read(buffer: &[u8], at: usize) -> u16 {
        u16::from_le_bytes([buffer[at], buffer[at + 1]])
    }

    fn write(self, buffer: &mut [u8], at: usize) {
        buffer[at..at + 2].copy_from_slice(&self.to_le_bytes());
    }
}

impl Word for u32 {
    const BYTES: usize = 4;

    ghost BYTES = { 4 };

    ghost value = { λ x. x };

    fn read(buffer: &[u8], at: usize) -> u32 {
        u32::from_le_bytes([buffer[at], buffer[at + 1], buffer[at + 2], buffer[at + 3]])
    }

    fn write(self, buffer: &mut [u8], at: usize) {
        buffer[at..at + 4].copy_from_slice(&self.to_le_bytes());
    }
}
