// The numbers of a stream, and the buffers that are lent for it.
ghost use Rattle.std.specs.Prelude.{◌≡◌, ◌+◌, ◌*◌, length, replicate};

// "65,520 bytes of work" (356 situations), and as much of one more situation as gives no room for it.
pub const WORK: usize = 65687;

// The byte with which the working buffer is filled before each call.
pub const WORK_FILL: u8 = 90;

// The number of four bytes, low first.
pub fn low_first(a: u8, b: u8, c: u8, d: u8) -> usize
    ensures { result ≡ a + 256 * b + 65536 * c + 16777216 * d }
{
    u32::from_le_bytes([a, b, c, d]) as usize
}

// Makes every byte of the buffer this one.
pub fn fill(buffer: &mut [u8], byte: u8)
    ensures { buffer.new ≡ replicate (length buffer.old) byte }
{
    buffer.fill(byte);
}
