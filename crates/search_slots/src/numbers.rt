// Numbers in bytes, low first, of any width: one writer, one reader.
ghost use Rattle.std.specs.Prelude.{◌≡◌, min, length, take};
ghost use Rattle.search_slots.specs.LowFirst.{low_bytes, widest, low_first_number};

// A number has at most eight bytes.
const WIDEST: usize = 8;

// The number into all the bytes that are lent; where they are too few, its low bytes.
pub fn put_number(to: &mut [u8], number: u64)
    ensures { to.new ≡ low_bytes (length to.old) number }
{
    let mut rest = number;
    for byte in to.iter_mut() {
        *byte = (rest % 256) as u8;
        rest /= 256;
    }
}

// The number of the bytes, eight at most.
pub fn number(from: &[u8]) -> u64
    ensures { result ≡ low_first_number (take widest from.now) }
{
    let n = from.len().min(WIDEST);
    let mut bytes = [0; WIDEST];
    bytes[0..n].copy_from_slice(&from[0..n]);
    u64::from_le_bytes(bytes)
}
