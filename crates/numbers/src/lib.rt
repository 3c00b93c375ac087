// Little-endian numbers in bytes. Every function reads only the bytes that it names.
#![tactic(auto)]

ghost use Rattle.std.specs.Prelude.{◌≡◌, ◌+◌, ◌<◌, ◌≤◌, ◌^◌, length};
ghost use Rattle.model.specs.Bits.{number};
ghost use Rattle.model.specs.Layouts.{kind_of};

// The number of the N bytes at a position. The compiler makes one load of it where N is a power of two, which it does not of
// a loop over the bytes.
pub fn number<const N: usize>(s: &[u8], at: usize) -> u64
    requires at_in_bounds { at + N ≤ length s.now }
    requires size { N ≤ 8 }
    ensures { (result ≡ number N at s.now) × (result < 256 ^ N) }
{
    let mut bytes = [0; 8];
    bytes[..N].copy_from_slice(&s[at..at + N]);
    u64::from_le_bytes(bytes)
}

// The kind byte of a record: the first byte, or 0 where there is none.
#[tactic(auto, unfolding(model::specs::Layouts::kind_of))]
pub fn first_byte(s: &[u8]) -> u64
    ensures { result ≡ kind_of s.now }
{
    match s.first() {
        Some(byte) => u64::from(*byte),
        None => 0,
    }
}
