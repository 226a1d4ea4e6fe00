// Several numbers in a word, made and taken apart here, but for an entry of the environment (crate state) and one of
// the undo log (crate cells). That a node is named crate reading notes by adding 1.
// Each number has a function of its own name: one over the size would call them high and low. A place's and a size's
// bounds are owed by those that pack them, who have just tested them; a type for each would be taken apart again in the
// same line. `as u32`: no `From` leads from usize to u32, and `try_from` asks for an answer where none is.
ghost use Rattle.std.specs.Prelude.{◌≡◌, ◌+◌, ◌*◌, ◌/◌, ◌%◌, ◌<◌, ◌≤◌, eqb};

// A number above a type's tag: of a schema type how many parts it has, of an inferred field its name.
pub fn with_tag(x: u32, tag: u32) -> u32
    requires { (x < 268435456) × (tag < 16) }
    ensures { result ≡ x * 16 + tag }
{
    x * 16 + tag
}

pub fn above_tag(x: u32) -> u32
    ensures { result ≡ x / 16 }
{
    x / 16
}

pub fn tag_in(x: u32) -> u32
    ensures { result ≡ x % 16 }
{
    x % 16
}

// A field or an alternative of a schema type: its name and the number of its type.
pub fn part(name: u32, ty: u32) -> u32
    requires { (name < 65536) × (ty < 65536) }
    ensures { result ≡ name * 256 + ty }
{
    name * 256 + ty
}

pub fn part_name(x: u32) -> u32
    ensures { result ≡ x / 256 }
{
    x / 256
}

pub fn part_type(x: u32) -> u32
    ensures { result ≡ x % 256 }
{
    x % 256
}

// The fields of an inferred record: where they start, and how many they are.
pub fn run_of(first: u32, size: u32) -> u32
    requires { (first < 4194303) × (size < 1024) }
    ensures { result ≡ first * 1024 + size }
{
    first * 1024 + size
}

pub fn run_first(x: u32) -> u32
    ensures { result ≡ x / 1024 }
{
    x / 1024
}

pub fn run_size(x: u32) -> u32
    ensures { result ≡ x % 1024 }
{
    x % 1024
}

// A name: where its line starts, and how many characters it has.
pub fn name_word(place: usize, chars: usize) -> u32
    requires { (place < 65536) × (chars < 512) }
    ensures { result ≡ place * 512 + chars }
{
    (place * 512 + chars) as u32
}

pub fn name_place(x: u32) -> u32
    ensures { result ≡ x / 512 }
{
    x / 512
}

pub fn name_chars(x: u32) -> u32
    ensures { result ≡ x % 512 }
{
    x % 512
}

// A predicate: its name, the number of its key's type, and that of its value's type where it has a value.
pub fn predicate_word(name: u32, key: u32) -> u32
    requires { (name < 256) × (key < 256) }
    ensures { result ≡ name * 131072 + key * 512 }
{
    name * 131072 + key * 512
}

pub fn with_value(predicate: u32, value: u32) -> u32
    requires { (predicate < 33554432) × (value < 256) }
    ensures { result ≡ predicate + value * 2 + 1 }
{
    predicate + value * 2 + 1
}

pub fn predicate_name(x: u32) -> u32
    ensures { result ≡ x / 131072 }
{
    x / 131072
}

pub fn predicate_key(x: u32) -> u32
    ensures { result ≡ x / 512 % 256 }
{
    x / 512 % 256
}

// The flag and the number apart: who asks makes one Option of both, with the type in it, by `then` in one line.
pub fn has_value(x: u32) -> bool
    ensures { result ≡ eqb (x % 2) 1 }
{
    x % 2 == 1
}

pub fn predicate_value(x: u32) -> u32
    ensures { result ≡ x / 2 % 256 }
{
    x / 2 % 256
}

// A line: where it starts, and how many bytes it has.
pub fn line_word(place: usize, size: usize) -> u32
    requires { (place < 65536) × (size ≤ 512) }
    ensures { result ≡ place * 1024 + size }
{
    (place * 1024 + size) as u32
}

pub fn line_place(x: u32) -> u32
    ensures { result ≡ x / 1024 }
{
    x / 1024
}

pub fn line_size(x: u32) -> u32
    ensures { result ≡ x % 1024 }
{
    x % 1024
}

// A node: its line, and whether it was named, which it is not at first.
pub fn node_word(place: usize, size: usize) -> u32
    requires { (place < 65536) × (size ≤ 512) }
    ensures { result ≡ (place * 1024 + size) * 2 }
{
    line_word(place, size) * 2
}

pub fn node_line(x: u32) -> u32
    ensures { result ≡ x / 2 }
{
    x / 2
}

pub fn is_named(x: u32) -> bool
    ensures { result ≡ eqb (x % 2) 1 }
{
    x % 2 == 1
}
