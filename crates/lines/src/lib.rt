// A replay's lines as text: four decimal numbers, parted by one space, and a line end.
#![tactic(auto)]

ghost use Rattle.std.specs.Prelude.{◌≡◌, ◌+◌, ◌≤◌, length};
ghost use Rattle.model.specs.Buffers.{put};
ghost use Rattle.lines.specs.Text.{line_limit, field, line_text};

// What a replay tells of an event: its number from 1, the answer, how many mappings were dropped, and the length of the
// table in force.
#[derive(Clone, Copy)]
pub struct Line {
    pub number: u64,
    pub answer: u64,
    pub dropped: u64,
    pub size: u64,
}

// Puts the digits of a number and one byte more at a position of the buffer, and answers where they end.
fn put_field(n: u64, end: u8, out: &mut [u8], at: usize) -> usize
    requires { at + 21 ≤ length out.old }
    ensures value { result ≡ at + length (field n end) }
    ensures out_after { out.new ≡ put at (field n end) out.old }
{
    let mut digits = [0u8; 20];
    let count = io::decimal(n, &mut digits);
    let last = buffers::put(&digits[..count], out, at);
    out[last] = end;
    last + 1
}

impl Line {
    // Writes the text of the line, at most 84 bytes, at a position of the buffer, and answers where it ends.
    #[tactic(auto, using(crate::proofs::Laws::Text::length_field))]
    pub fn put(self, out: &mut [u8], at: usize) -> usize
        requires { at + line_limit ≤ length out.old }
        ensures value { result ≡ at + length (line_text self.number self.answer self.dropped self.size) }
        ensures out_after { out.new ≡ put at (line_text self.number self.answer self.dropped self.size) out.old }
    {
        let second = put_field(self.number, b' ', out, at);
        let third = put_field(self.answer, b' ', out, second);
        let fourth = put_field(self.dropped, b' ', out, third);
        put_field(self.size, b'\n', out, fourth)
    }
}
