// What a diagnostic says, and how it is written.
#![tactic(auto)]

ghost use Rattle.std.specs.Prelude.{◌≡◌};
ghost use Rattle.messages.specs.Said.{CodeIs, WritesCode, WritesMessage, report_message};

mod shown;

use cells::{Ty, TyError, UnionDiff};
use shown::Piece::{Name, Number, Resolved, Text, Type};
use shown::View;
use work::word;

// One for each text of ty.rs, with the numbers and types in hand that it shows.
#[derive(Clone, Copy)]
pub enum Message {
    WildcardHead,
    BoundConstant,
    DeniedConstant,
    MatchedPatterns,
    DeniedPattern,
    DistanceOutside(u32),
    TermTooLong(u32),
    UnknownType,
    ValueShadowed,
    NoValue,
    NoAlternative(u32),
    NoField(u32),
    NotOneAlternative(u32),
    NotAUnion(Ty),
    NotAFact(Ty),
    NoFields(Ty),
    NoOrder(Ty),
    Mismatch(Ty, Ty),
    UnionMismatch(UnionDiff, Ty, Ty),
    Infinite,
}

impl From<TyError> for Message {
    ghost from_gives = { λ err m. m ≡ report_message err };

    fn from(err: TyError) -> Message {
        match err {
            TyError::Mismatch(e, g) => Message::Mismatch(e, g),
            TyError::UnionMismatch(d, e, g) => Message::UnionMismatch(d, e, g),
            TyError::UnknownField(name) => Message::NoField(name),
            TyError::Infinite => Message::Infinite,
        }
    }
}

#[tactic(auto, unfolding(format::specs::Bytes::ascii, meaning::specs::Diag::as_str, meaning::specs::Diag::code_of))]
fn code_of(m: Message) -> &'static str
    ensures { CodeIs m result.now }
{
    match m {
        Message::WildcardHead => "reject/wildcard-in-head",
        Message::BoundConstant | Message::DeniedConstant => "reject/bind-lhs",
        Message::MatchedPatterns | Message::DeniedPattern => "nyi/bind-unification",
        Message::DistanceOutside(_) => "reject/fuzzy-distance",
        Message::TermTooLong(_) => "reject/fuzzy-term",
        Message::UnknownType => "reject/unresolved-access",
        Message::ValueShadowed => "reject/value-shadowed",
        Message::NoValue => "reject/no-value",
        Message::NoAlternative(_) => "reject/unknown-alternative",
        Message::NoField(_) => "reject/unknown-field",
        Message::NotOneAlternative(_) => "reject/union-arity",
        Message::NotAUnion(_) => "reject/not-a-union",
        Message::NotAFact(_)
        | Message::NoFields(_)
        | Message::NoOrder(_)
        | Message::Mismatch(_, _)
        | Message::UnionMismatch(_, _, _) => "reject/type-mismatch",
        Message::Infinite => "reject/infinite-type",
    }
}

// The code of a message. The slice and the place are two parameters, as in crate writer.
pub fn code_text(out: &mut [u8], at: usize, m: Message) -> Option<usize>
    ensures { WritesCode out.old at m out.new result }
{
    shown::text(out, at, code_of(m))
}

// What a message says, in the file's names, with the bindings of this moment where a type is resolved. The view is made
// here: no caller has another use of it.
pub fn text(f: &[u8], w: &[u32], out: &mut [u8], at: usize, m: Message) -> Option<usize>
    ensures { WritesMessage f.now w.now out.old at m out.new result }
{
    macro_rules! say {
        ($($piece:expr),+) => { View { f, w }.write(out, at, &[$($piece),+]) };
    }
    // What a mismatch says first.
    macro_rules! found {
        ($e:expr, $g:expr $(, $piece:expr)*) => {
            say!(Text("expected "), Type($e), Text(", found "), Type($g) $(, $piece)*)
        };
    }
    match m {
        Message::WildcardHead => say!(Text("a wildcard head projects nothing")),
        Message::BoundConstant => say!(Text(
            "a literal cannot be bound to; put the variable on the left"
        )),
        Message::DeniedConstant => say!(Text(
            "nothing here can be denied; put the variable on the left"
        )),
        Message::MatchedPatterns => say!(Text(
            "matching two patterns against each other is not implemented yet"
        )),
        Message::DeniedPattern => say!(Text(
            "denying anything but a variable is not implemented yet"
        )),
        Message::DistanceOutside(d) => say!(
            Text("an edit distance of "),
            Number(d),
            Text(" is outside 1..="),
            Number(word(w, work::MAX_DISTANCE))
        ),
        Message::TermTooLong(n) => say!(
            Text("a fuzzy term of "),
            Number(n),
            Text(" characters is longer than the "),
            Number(word(w, work::MAX_TERM)),
            Text(" a match is built for")
        ),
        Message::UnknownType => say!(Text(
            "the type of this value is not known here, so its field cannot be resolved"
        )),
        Message::ValueShadowed => say!(Text(
            "this predicate has a key field called `value`, so `.value` is ambiguous"
        )),
        Message::NoValue => say!(Text("this predicate has no value")),
        Message::NoAlternative(x) => say!(Name(x), Text(" is not an alternative of this union")),
        Message::NoField(x) => say!(Name(x), Text(" is not a field here")),
        Message::NotOneAlternative(n) => say!(
            Text("a union value is one alternative, and this names "),
            Number(n)
        ),
        Message::NotAUnion(t) => say!(Text("only a union has alternatives; this is "), Type(t)),
        Message::NotAFact(t) => say!(Text("only a fact has a value; this is "), Type(t)),
        Message::NoFields(t) => say!(Type(t), Text(" has no fields")),
        Message::NoOrder(t) => say!(
            Resolved(t),
            Text(
                " has no order — it holds a reference, and a reference compares by which fact was written first"
            )
        ),
        Message::Mismatch(e, g) => found!(e, g),
        Message::UnionMismatch(UnionDiff::Absent(n, k), e, g) => found!(
            e,
            g,
            Text(": only one of them declares "),
            Name(n),
            Text(" = "),
            Number(k)
        ),
        Message::UnionMismatch(UnionDiff::Renamed(x, y, k), e, g) => found!(
            e,
            g,
            Text(": discriminant "),
            Number(k),
            Text(" is "),
            Name(x),
            Text(", not "),
            Name(y)
        ),
        Message::UnionMismatch(UnionDiff::Payload(n, k), e, g) => found!(
            e,
            g,
            Text(": alternative "),
            Name(n),
            Text(" = "),
            Number(k),
            Text(" carries a different payload")
        ),
        Message::Infinite => say!(Text("this pattern would have to contain itself")),
    }
}
