// A line of the file that was decoded. A file of its own: what the contracts of the others say of a line (specs/OfLines.antt)
// names this type.
ghost use Rattle.std.specs.Prelude.{◌≡◌, ◌+◌, ◌*◌, ◌<◌, ◌≤◌, length};
ghost use Rattle.reading.specs.Digits.{digits_at};

// A line of the file, decoded, and where it starts.
#[derive(Clone, Copy)]
pub struct Line<'a> {
    pub file: &'a [u8],
    pub at: usize,
    pub bytes: &'a [u8],
    pub ghost placed: { at < 65536 },
    pub ghost some: { 0 < length bytes.now },
    pub ghost short: { length bytes.now ≤ 512 },
    pub ghost within: { at + 2 * length bytes.now < length file.now },
}

impl<'a> Line<'a> {
    // Its digits, and the end of the line, as they stand in the file.
    pub fn digits(self) -> &'a [u8]
        ensures { result.now ≡ digits_at self.entry.file.now self.entry.at self.entry.bytes.now }
    {
        &self.file[self.at..=self.at + 2 * self.bytes.len()]
    }
}
