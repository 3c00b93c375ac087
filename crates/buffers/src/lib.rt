// Bytes and numbers written into a buffer.
#![tactic(auto)]

ghost use Rattle.std.specs.Prelude.{◌≡◌, ◌+◌, ◌≤◌, length};
ghost use Rattle.model.specs.Bits.{bytes};
ghost use Rattle.model.specs.Buffers.{put};

// Writes a part at a position of the buffer, and answers where it ends.
#[tactic(auto, using(crate::proofs::Laws::parts))]
pub fn put(part: &[u8], out: &mut [u8], at: usize) -> usize
    requires { at + length part.now ≤ length out.old }
    ensures value { result ≡ at + length part.now }
    ensures out_after { out.new ≡ put at part.now out.old }
{
    out[at..at + part.len()].copy_from_slice(part);
    at + part.len()
}

// Writes a number as so many bytes of the buffer at a position, little-endian, and answers where they end.
#[tactic(auto, using(crate::proofs::Laws::parts))]
pub fn put_number(out: &mut [u8], at: usize, size: usize, x: u64) -> usize
    requires { at + size ≤ length out.old }
    ensures value { result ≡ at + size }
    ensures out_after { out.new ≡ put at (bytes size x) out.old }
{
    let mut rest = x;
    for byte in &mut out[at..at + size] {
        *byte = (rest % 256) as u8;
        rest /= 256;
    }
    at + size
}
