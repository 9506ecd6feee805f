//! Text in memory that somebody lent.
ghost use Rattle.std.specs.Prelude.{◌≡◌, decimal};
ghost use Rattle.printout.specs.Lines.{line_of};
ghost use Rattle.printout.specs.Pages.{memory, Fits, Appends};

use itoa::Buffer;

/// The first `len` bytes are written so far. The memory is the caller's, so how much is written stands beside it.
/// `write!` into it was tried: its contract lets any writer fail (`unwrap-requires` stays open), and here nothing may.
#[derive(Drop)]
pub(crate) struct Page<'a> {
    bytes: &'a mut [u8],
    len: usize,
}

impl<'a> Page<'a> {
    /// Nothing is written yet.
    pub(crate) fn new(bytes: &'a mut [u8]) -> Page<'a>
        ensures none { result.len ≡ 0 }
        ensures over { memory result ≡ bytes.old }
        ensures lent { result.bytes.ghost_name ≡ bytes.entry.ghost_name }
    {
        Page { bytes, len: 0 }
    }

    /// How many bytes are written.
    pub(crate) fn len(&self) -> usize
        ensures { result ≡ self.now.len }
    {
        self.len
    }

    /// Appends `s`, for which the caller sees that there is room.
    pub(crate) fn put(&mut self, s: &str)
        requires { Fits self.old s.now }
        ensures { Appends self.old s.now self.new }
    {
        let start = self.len;
        let end = start + s.len();
        self.bytes[start..end].copy_from_slice(s.as_bytes());
        self.len = end;
    }

    /// Appends `n` in decimal digits.
    pub(crate) fn number(&mut self, n: u64)
        requires { Fits self.old (decimal n) }
        ensures { Appends self.old (decimal n) self.new }
    {
        let mut digits = Buffer::new();
        self.put(digits.format(n));
    }

    /// Appends the tag, then each number behind a space, and the end of the line.
    pub(crate) fn line(&mut self, tag: &str, numbers: &[u64])
        requires { Fits self.old (line_of tag.now numbers.now) }
        ensures { Appends self.old (line_of tag.now numbers.now) self.new }
    {
        self.put(tag);
        for n in numbers {
            self.put(" ");
            self.number(*n);
        }
        self.put("\n");
    }
}
