// One frame, read number after number: a byte, 16 bits and 32 bits.
#![tactic(auto)]

ghost use Rattle.std.specs.Prelude.{◌≤◌};
ghost use Rattle.reader.specs.Taking.{Passes, TakesByte, TakesHalf, TakesFull, ReadsLimits, ReadsField, ReadsAlternative, ReadsPredicate};

// The line and a place in it: crate frames reads a number at a place, and a line that shrinks would be cut once more
// after each.
#[derive(Drop)]
pub struct Reader<'a> {
    pub line: &'a [u8],
    pub at: usize,
}

impl<'a> Reader<'a> {
    // The number that so many bytes make. Past the end every number is 0 and the place stays, so it cannot run over.
    fn take<F: FnOnce(&[u8], usize) -> u32>(&mut self, size: usize, number: F) -> u32
        requires size { size ≤ 4 }
        requires number { F.IsAlwaysCallable number }
        ensures value { F.post number self.old.line self.old.at result }
        ensures passes { Passes self.old size self.new }
    {
        let value = number(self.line, self.at);
        if self.at < self.line.len() {
            self.at += size;
        }
        value
    }

    // Three, by their names, as document 01 asks.
    pub fn byte(&mut self) -> u32
        ensures { TakesByte self.old self.new result }
    {
        self.take(1, |line, at| frames::byte(line, at))
    }

    pub fn half(&mut self) -> u32
        ensures { TakesHalf self.old self.new result }
    {
        self.take(2, |line, at| frames::half(line, at))
    }

    pub fn full(&mut self) -> u32
        ensures { TakesFull self.old self.new result }
    {
        self.take(4, |line, at| frames::full(line, at))
    }
}

// The parts of frames, each with its own numbers in the order in which they stand: the reader is all that they share.
// Each is read by a reader made for it, so who asks for one has the line and the place, and no reader.
#[derive(Drop)]
pub struct Limits {
    pub distance: u32,
    pub term: u32,
}

pub fn read_limits(line: &[u8], at: usize) -> Limits
    ensures { ReadsLimits line.now at result }
{
    let mut r = Reader { line, at };
    Limits {
        distance: r.byte(),
        term: r.half(),
    }
}

// A field of a record type.
#[derive(Drop)]
pub struct Field {
    pub name: u32,
    pub ty: u32,
}

pub fn read_field(line: &[u8], at: usize) -> Field
    ensures { ReadsField line.now at result }
{
    let mut r = Reader { line, at };
    Field {
        name: r.half(),
        ty: r.half(),
    }
}

// An alternative of a union type.
#[derive(Drop)]
pub struct Alternative {
    pub name: u32,
    pub discriminant: u32,
    pub ty: u32,
}

pub fn read_alternative(line: &[u8], at: usize) -> Alternative
    ensures { ReadsAlternative line.now at result }
{
    let mut r = Reader { line, at };
    Alternative {
        name: r.half(),
        discriminant: r.full(),
        ty: r.half(),
    }
}

// A predicate: without a value type its flag is 0, and the value's number, past the end, is 0 too. The flag is the
// file's byte as it stands, no Option: of lines that are no frames it has other values.
#[derive(Drop)]
pub struct Predicate {
    pub name: u32,
    pub key: u32,
    pub flag: u32,
    pub value: u32,
}

pub fn read_predicate(line: &[u8], at: usize) -> Predicate
    ensures { ReadsPredicate line.now at result }
{
    let mut r = Reader { line, at };
    Predicate {
        name: r.half(),
        key: r.half(),
        flag: r.byte(),
        value: r.half(),
    }
}
