// What is written of an answer: numbers, and the bytes of a buffer.
use cases::buffers::all_are;
use cases::hex::write_hex;
use std::io;

pub fn write_number<R: Print>(rt: &R, n: u64) -> io::Result<()> {
    print!(rt; " {n}")
}

// Writes the first `len` bytes of a buffer. Says so if a byte past them is not `rest`.
pub fn write_bytes<R: Print>(
    rt: &R,
    len: usize,
    buffer: &[u8],
    rest: u8,
    hex: &mut [u8],
) -> io::Result<()> {
    rt.write_all(b" ")?;
    let Some((written, after)) = buffer.split_at_checked(len) else {
        return rt.write_all(b"too long");
    };
    write_hex(rt, written, hex)?;
    if all_are(after, rest) {
        return Ok(());
    }
    rt.write_all(b" touched")
}
