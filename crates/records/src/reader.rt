// A reader over borrowed bytes, and the records that it hands out as parts of them.
ghost use Rattle.std.specs.Prelude.{◌≡◌, ◌≤◌, length};

mod next;

// the bytes, and the place of the next record: an offset into the bytes, since each record and each fault tells its place
#[derive(Drop)]
pub struct Reader<'a> {
    bytes: &'a [u8],
    at: usize,
    ghost within: { at ≤ length bytes.now },
}

// one record: its place, its kind as the number in the file (which kinds there are is for the circuit to say), and its
// payload as a part of the bytes
#[derive(Drop)]
pub struct Record<'a> {
    pub place: usize,
    pub kind: u16,
    pub payload: &'a [u8],
}

impl<'a> Reader<'a> {
    // A reader at the first byte.
    pub fn new(bytes: &'a [u8]) -> Reader<'a>
        ensures place { result.at ≡ 0 }
        ensures bytes { result.bytes.now ≡ bytes.now }
    {
        Reader { bytes, at: 0 }
    }

    // The place of the next record, counted in bytes from the first.
    pub fn place(&self) -> usize
        ensures { result ≡ self.now.at }
    {
        self.at
    }
}
