// Lines of hexadecimal and the forms of frames.
#![tactic(auto)]

mod forms;
mod lines;

pub use forms::{byte, full, half, is_frame, kind_of, may_stand, reference, reference_size};
pub use lines::{decode, pass};

#[derive(Clone, Copy, PartialEq, Eq)]
pub enum Kind {
    Limits,
    Name,
    SchemaType,
    Predicate,
    Node,
    Query,
}

// Card 6: a predicate reference has two bytes in the narrow edition and four in the wide one.
#[derive(Clone, Copy)]
pub enum Edition {
    Narrow,
    Wide,
}
