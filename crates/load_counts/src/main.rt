// Card 11: "A run over the seeds 0 to 9,999 counts that each node shape occurs, that files with and without diagnostics
// do, and that no two files are alike." Each file is made by the proved call and checked by the proved check. Two files
// are told apart by the start of their first span, which is part of a file: where these numbers differ, so do the files.
#![tactic(auto)]

ghost use Rattle.std.specs.Prelude.{◌≡◌, ◌+◌, All, replicate};
ghost use Rattle.load_counts.specs.Counts.{byte_of, one_more, OneMore};

use std::io;
use unify::Purse;

// What a line has to be counted: two digits are a byte. A node's shape is the number that the file has for it.
enum Line<'a> {
    Node { start: u32, shape: u8 },
    Statements(&'a [[u8; 2]]),
    Diagnostic(&'a [[u8; 2]]),
}

// How often each thing was seen: shapes of nodes and kinds of statements by their numbers, codes by their names.
#[derive(Drop)]
struct Counts {
    shapes: [usize; 17],
    statements: [usize; 5],
    codes: [(&'static str, usize); 14],
    accepted: usize,
    with_diagnostic: usize,
    without: usize,
}

// The byte that two digits stand for.
fn byte(digits: &[u8; 2]) -> u8
    ensures { result ≡ byte_of digits.now }
{
    let [high, low] = *digits;
    16 * sigla_hex::digit(high).unwrap_or(0) + sigla_hex::digit(low).unwrap_or(0)
}

fn line_of(digits: &[u8]) -> Option<Line<'_>> {
    match digits.as_chunks::<2>().0 {
        [[b'0', b'5'], a, b, c, d, _, _, _, _, shape, ..] => Some(Line::Node {
            start: u32::from_be_bytes([byte(a), byte(b), byte(c), byte(d)]),
            shape: byte(shape),
        }),
        [[b'0', b'6'], _, _, statements @ ..] => Some(Line::Statements(statements)),
        [[b'0', b'8'], _, _, _, _, _, _, _, _, code @ ..] => Some(Line::Diagnostic(code)),
        _ => None,
    }
}

fn add_one(count: &mut usize)
    ensures { count.new ≡ one_more count.old }
{
    *count = count.wrapping_add(1);
}

impl Counts {
    fn new() -> Counts
        ensures shapes { result.shapes ≡ replicate 17 0 }
        ensures statements { result.statements ≡ replicate 5 0 }
        ensures codes { All (λ c. c.1 ≡ 0) result.codes }
        ensures files { result.accepted + result.with_diagnostic + result.without ≡ 0 }
    {
        Counts {
            shapes: [0; 17],
            statements: [0; 5],
            codes: [
                ("nyi/bind-unification", 0),
                ("reject/bind-lhs", 0),
                ("reject/fuzzy-distance", 0),
                ("reject/fuzzy-term", 0),
                ("reject/infinite-type", 0),
                ("reject/no-value", 0),
                ("reject/not-a-union", 0),
                ("reject/type-mismatch", 0),
                ("reject/union-arity", 0),
                ("reject/unknown-alternative", 0),
                ("reject/unknown-field", 0),
                ("reject/unresolved-access", 0),
                ("reject/value-shadowed", 0),
                ("reject/wildcard-in-head", 0),
            ],
            accepted: 0,
            with_diagnostic: 0,
            without: 0,
        }
    }

    // A statement is its kind and two bytes or four, so that no `for` goes over them.
    fn count_statements(&mut self, statements: &[[u8; 2]])
        ensures { self.new ≡ record self.old { statements = self.new.statements } }
    {
        let mut rest = statements;
        while let [kind, _, _, more @ ..] = rest {
            let kind = byte(kind);
            if let Some(n) = self.statements.get_mut(usize::from(kind)) {
                add_one(n);
            }
            rest = match (kind, more) {
                (1 | 2, _) => more,
                (_, [_, _, more @ ..]) => more,
                _ => &[],
            };
        }
    }

    fn count_code(&mut self, code: &[[u8; 2]])
        ensures { self.new ≡ record self.old { codes = self.new.codes } }
    {
        let seen = self
            .codes
            .iter_mut()
            .find(|(text, _)| code.iter().map(byte).eq(text.bytes()));
        if let Some((_, n)) = seen {
            add_one(n);
        }
    }

    // The lines of a file and of its answer. Gives the start of the first span.
    fn count_lines(&mut self, file: &[u8], answer: &[u8]) -> Option<u32>
        ensures accepted { self.new.accepted ≡ self.old.accepted }
        ensures file { OneMore self.old.with_diagnostic self.old.without self.new.with_diagnostic self.new.without }
    {
        let mut first = None;
        let mut diagnosed = false;
        for text in [file, answer] {
            for line in text.split(|b| *b == b'\n') {
                match line_of(line) {
                    Some(Line::Node { start, shape }) => {
                        if let Some(n) = self.shapes.get_mut(usize::from(shape)) {
                            add_one(n);
                        }
                        first = first.or(Some(start));
                    }
                    Some(Line::Statements(statements)) => self.count_statements(statements),
                    Some(Line::Diagnostic(code)) => {
                        self.count_code(code);
                        diagnosed = true;
                    }
                    None => {}
                }
            }
        }
        if diagnosed {
            add_one(&mut self.with_diagnostic);
        } else {
            add_one(&mut self.without);
        }
        first
    }

    fn count_seed(&mut self, seed: u32, work: &mut [u32], out: &mut [u8]) -> Option<u32> {
        let mut file = [0; 8255];
        let n = generator::make(seed, &mut file)?;
        let file = &file[..n];
        match driver::check_file(file, work, out, &mut Purse::full(0)) {
            Ok(m) => {
                add_one(&mut self.accepted);
                self.count_lines(file, &out[..m])
            }
            Err(_) => self.count_lines(file, &[]),
        }
    }
}

// How many pairs of these are the same.
fn pairs_alike(starts: &[Option<u32>]) -> usize {
    let mut alike = 0usize;
    for (i, start) in starts.iter().enumerate() {
        alike = alike.wrapping_add(starts[..i].iter().filter(|s| *s == start).count());
    }
    alike
}

fn print_counts(rt: &impl Print, what: &str, counts: &[usize]) -> io::Result<()> {
    for (i, n) in counts.iter().enumerate() {
        println!(rt; "{what} {i}: {n}")?;
    }
    Ok(())
}

fn report(rt: &impl Print, counts: &Counts, alike: usize) -> io::Result<()> {
    println!(rt; "accepted: {}", counts.accepted)?;
    println!(rt; "with a diagnostic: {}", counts.with_diagnostic)?;
    println!(rt; "without one: {}", counts.without)?;
    println!(rt; "pairs with the same first span: {alike}")?;
    print_counts(rt, "nodes of shape", &counts.shapes)?;
    print_counts(rt, "statements of kind", &counts.statements)?;
    for (code, n) in &counts.codes {
        println!(rt; "{code}: {n}")?;
    }
    Ok(())
}

fn main(rt: HostRuntime) -> io::Result<()> {
    let mut work = [0; 16384];
    let mut out = [0; 65536];
    let mut counts = Counts::new();
    let mut starts = [None; 10000];
    for (seed, start) in (0..10000).zip(&mut starts) {
        *start = counts.count_seed(seed, &mut work, &mut out);
    }
    report(&rt, &counts, pairs_alike(&starts))
}
