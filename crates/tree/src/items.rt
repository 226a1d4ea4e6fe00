ghost use Rattle.std.specs.Prelude.{◌<◌};

// So many items from a place in the file on; each names a node below `below`.
#[derive(Clone, Copy)]
pub struct Items {
    pub at: usize,
    pub n: u32,
    pub below: u32,
    pub ghost near: { at < 2147483648 },
}

// The statements from a place in the file up to another; each names nodes below `below`, and there is one.
#[derive(Drop)]
pub struct Stmts {
    pub at: usize,
    pub end: usize,
    pub below: u32,
    pub ghost near: { end < 2147483648 },
    pub ghost lower: { 0 < below },
}
