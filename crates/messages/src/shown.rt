// Numbers, names and types, as messages show them. No `Display`: a text goes into the lent slice as digits, two a byte,
// and a name is copied as the digits that the file has.
ghost use Rattle.std.specs.Prelude.{true, ◌≡◌, ◌==◌, drop};
ghost use Rattle.std.specs.List.{before_first};
ghost use Rattle.meaning.specs.Messages.{decimal};
ghost use Rattle.writer.specs.Writes.{WritesText};
ghost use Rattle.messages.specs.Views.{ShowsText, ShowsType, ShowsCell, ShowsPiece, ShowsPieces, before_part};
ghost use Rattle.messages.specs.Shown.{Looks, name_text, quoted_text, fact_text, parted_by, discriminant_text};

use cells::{Kind, Part, Ty};
use work::{wide, word};
use writer::byte;

// `out` and `at` are two parameters: crate writer says why.

// Whether an unknown is shown as one, or as what it is bound to at this moment.
#[derive(Clone, Copy)]
pub enum Bindings {
    Ignored,
    Followed,
}

// A piece of a text.
#[derive(Clone, Copy)]
pub enum Piece {
    Text(&'static str),
    Number(u32),
    Name(u32),
    Type(Ty),
    // with the bindings of this moment
    Resolved(Ty),
}

pub fn text(out: &mut [u8], at: usize, s: &str) -> Option<usize>
    ensures { WritesText out.old at s.now out.new result }
{
    writer::text(out, at, s.as_bytes())
}

// The digits are itoa's.
fn number(out: &mut [u8], at: usize, x: u32) -> Option<usize>
    ensures { WritesText out.old at (decimal x) out.new result }
{
    text(out, at, itoa::Buffer::new().format(x))
}

fn before_lf(s: &[u8]) -> &[u8]
    ensures { result.now ≡ before_first (λ b. b == 10) s.now }
{
    let end = s.iter().position(|&b| b == b'\n').unwrap_or(s.len());
    &s[..end]
}

// The file's line from a place to its LF.
fn line(f: &[u8], from: usize) -> &[u8]
    ensures { result.now ≡ before_first (λ b. b == 10) (drop from f.now) }
{
    before_lf(f.get(from..).unwrap_or(&[]))
}

// What stands after the type of a part: ` = discriminant` in a union.
fn after(out: &mut [u8], at: usize, k: Kind, key: u32) -> Option<usize>
    ensures { WritesText out.old at (discriminant_text k key) out.new result }
{
    match k {
        Kind::Fields => Some(at),
        Kind::Alternatives => {
            let at = text(out, at, " = ")?;
            number(out, at, key)
        }
    }
}

// What stands between two parts. What a record and a union show differs, here and above and in `before`: so a `match`.
#[tactic(auto, unfolding(format::specs::Bytes::ascii))]
fn between(k: Kind) -> &'static str
    ensures { result.now ≡ parted_by k true }
{
    match k {
        Kind::Fields => ", ",
        Kind::Alternatives => " | ",
    }
}

// The file and the words of a run, in which what is shown stands. Elsewhere the two go as two parameters, since a pair
// would be made for one call and taken apart in it.
#[derive(Clone, Copy)]
pub struct View<'a> {
    pub f: &'a [u8],
    pub w: &'a [u32],
}

impl View<'_> {
    // The name's line has its text after the kind's two digits.
    fn name(&self, out: &mut [u8], at: usize, x: u32) -> Option<usize>
        ensures { ShowsText self.now out.old at (name_text x) out.new result }
    {
        if x < word(self.w, work::NAME_COUNT) {
            let place = work::name_place(word(self.w, work::NAMES + wide(x)));
            return writer::copy(out, at, line(self.f, wide(place) + 2));
        }
        text(out, at, "?")
    }

    fn quoted(&self, out: &mut [u8], at: usize, x: u32) -> Option<usize>
        ensures { ShowsText self.now out.old at (quoted_text x) out.new result }
    {
        let at = text(out, at, "`")?;
        let at = self.name(out, at, x)?;
        text(out, at, "`")
    }

    // A fact by the name of its predicate, where it has one.
    fn fact(&self, out: &mut [u8], at: usize, p: u32) -> Option<usize>
        ensures { ShowsText self.now out.old at (fact_text p) out.new result }
    {
        if p < word(self.w, work::PREDICATE_COUNT) {
            let x = work::predicate_name(word(self.w, work::PREDICATES + wide(p)));
            if x < word(self.w, work::NAME_COUNT) {
                return self.quoted(out, at, x);
            }
        }
        text(out, at, "a fact")
    }

    // What stands before the type of a part: `name = ` in a record, `name : ` in a union.
    fn before(&self, out: &mut [u8], at: usize, k: Kind, p: &Part) -> Option<usize>
        ensures { ShowsText self.now out.old at (before_part k p.now) out.new result }
    {
        let (name, mark) = match k {
            Kind::Fields => (p.key, " = "),
            Kind::Alternatives => (p.label, " : "),
        };
        let at = self.name(out, at, name)?;
        text(out, at, mark)
    }

    // The type at the end of its chain, where bindings are followed.
    fn look(&self, t: Ty, b: Bindings) -> Ty
        ensures { Looks self.now.w.now t b result }
    {
        match b {
            Bindings::Ignored => t,
            Bindings::Followed => cells::repr(self.w, t),
        }
    }

    // `render`. A cell's brace is written before its parts, so the room left falls.
    #[cycle(rendering)]
    fn render(&self, out: &mut [u8], at: usize, t: Ty, b: Bindings) -> Option<usize>
        ensures { ShowsType self.now out.old at b t out.new result }
    {
        match self.look(t, b) {
            Ty::Int => text(out, at, "an integer"),
            Ty::Str => text(out, at, "a string"),
            Ty::Bytes => text(out, at, "bytes"),
            Ty::Fact(p) => self.fact(out, at, p),
            Ty::Record(c) => self.cell(out, at, Kind::Fields, c, b),
            Ty::Union(c) => self.cell(out, at, Kind::Alternatives, c, b),
            Ty::Var(_) => text(out, at, "an unknown type"),
            Ty::Error => text(out, at, "(already reported)"),
        }
    }

    #[cycle(rendering)]
    fn cell(&self, out: &mut [u8], at: usize, k: Kind, c: u32, b: Bindings) -> Option<usize>
        ensures { ShowsCell self.now out.old at b k c out.new result }
    {
        let mut to = byte(out, at, b'{')?;
        let n = cells::count(self.w, c);
        for j in 0..n {
            let p = cells::part_at(self.w, k, c, j);
            to = self.before(out, to, k, &p)?;
            to = self.render(out, to, p.ty, b)?;
            to = after(out, to, k, p.key)?;
            if j + 1 < n {
                to = text(out, to, between(k))?;
            }
        }
        byte(out, to, b'}')
    }

    fn piece(&self, out: &mut [u8], at: usize, p: Piece) -> Option<usize>
        ensures { ShowsPiece self.now out.old at p out.new result }
    {
        match p {
            Piece::Text(s) => text(out, at, s),
            Piece::Number(n) => number(out, at, n),
            Piece::Name(x) => self.quoted(out, at, x),
            Piece::Type(t) => self.render(out, at, t, Bindings::Ignored),
            Piece::Resolved(t) => self.render(out, at, t, Bindings::Followed),
        }
    }

    pub fn write(&self, out: &mut [u8], at: usize, pieces: &[Piece]) -> Option<usize>
        ensures { ShowsPieces self.now out.old at pieces.now out.new result }
    {
        let mut to = at;
        for &p in pieces {
            to = self.piece(out, to, p)?;
        }
        Some(to)
    }
}
