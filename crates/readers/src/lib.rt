// What is kept of a log between two of its fragments: document 02, Ask 3.
#![tactic(auto)]

ghost use Rattle.std.specs.Prelude.{◌≡◌, ◌+◌, ◌≤◌, length};
ghost use Rattle.readers.specs.Readers.{First, complete, counts_as_ignoring, holding, read_on, ended, emptied, Together};

// The number of the last event that was reported, 0 at the start; whether later fragments are ignored; and the bytes of
// an unfinished event, the first so many of those held.
// Kept: the bytes are an array with a length, since the library takes no heap and the struct of the C interface has these fields.
#[derive(Clone, Copy)]
pub struct Reader {
    pub line: u64,
    pub ignoring: bool,
    pub length: usize,
    pub held: [u8; 24],
}

// The bytes held and those of a fragment after them, the first 25 at most, and how many these are.
#[derive(Clone, Copy)]
pub struct Gathered {
    pub bytes: [u8; 25],
    pub length: usize,
}

// How many bytes the first event of some bytes has at a linear width, as its kind says; `None` where the kind is unknown or
// there is no byte. Such an event has one byte.
#[tactic(auto, using(crate::proofs::Laws::Readers::first_known))]
pub fn first_of(width: u64, bytes: &[u8]) -> Option<usize>
    ensures { First width bytes.now result }
{
    match logs::length_of_event(width, bytes) {
        0 => None,
        size => Some(size),
    }
}

// The bytes finish an event, an unknown kind byte among these.
#[tactic(auto, using(std::proofs::lemmas::Bool::Decides::nat_tests), unfolding(crate::specs::Readers::complete))]
fn is_complete(width: u64, bytes: &[u8]) -> bool
    ensures { result ≡ complete width bytes.now }
{
    first_of(width, bytes).unwrap_or(1) <= bytes.len()
}

impl Reader {
    // The reader takes fragments whole and ignores them: its flag is set, it holds more than 24 bytes, or the bytes that it
    // holds begin no known event or complete one.
    #[tactic(auto, using(std::proofs::lemmas::Bool::Decides::nat_tests), unfolding(crate::specs::Readers::held_bytes, crate::specs::Readers::counts_as_ignoring))]
    pub fn is_ignoring(self, width: u64) -> bool
        ensures { result ≡ counts_as_ignoring width self }
    {
        self.ignoring || 24 < self.length || is_complete(width, &self.held[..self.length])
    }

    // The bytes held, and those of a fragment after them.
    pub fn gather(self, fragment: &[u8]) -> Gathered
        requires { self.length ≤ 24 }
        ensures { Together self fragment.now result }
    {
        let mut bytes = [0u8; 25];
        buffers::put(&self.held, &mut bytes, 0);
        let more = fragment.len().min(25 - self.length);
        let length = buffers::put(&fragment[..more], &mut bytes, self.length);
        Gathered { bytes, length }
    }

    // Holds the bytes of a fragment after those held.
    pub fn hold(self, fragment: &[u8]) -> Reader
        requires { self.length + length fragment.now ≤ 24 }
        ensures { result ≡ holding self fragment.now }
    {
        let mut held = self.held;
        let length = buffers::put(fragment, &mut held, self.length);
        Reader {
            length,
            held,
            ..self
        }
    }

    // The reader after an event that is reported: one more line, as far as 2^64 - 1, and nothing held.
    #[tactic(auto, unfolding(crate::specs::Readers::next_line))]
    pub fn report(self, ignoring: bool) -> Reader
        ensures { result ≡ read_on self ignoring }
    {
        Reader {
            line: self.line.saturating_add(1),
            ignoring,
            length: 0,
            ..self
        }
    }

    // The reader after a finish call that reports nothing: the ignoring begins.
    pub fn end(self) -> Reader
        ensures { result ≡ ended self }
    {
        Reader {
            ignoring: true,
            ..self
        }
    }

    // A reset of the reader: it holds nothing and does not ignore. The line number stays.
    pub fn reset(self) -> Reader
        ensures { result ≡ emptied self }
    {
        Reader {
            ignoring: false,
            length: 0,
            ..self
        }
    }
}
