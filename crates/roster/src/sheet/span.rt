//! A span of a row.

/// The worker is with a model up to a part, counted from the interval's start; model 0 stands for idle.
#[derive(Clone, Copy)]
pub(crate) struct Span {
    pub(crate) end: u64,
    pub(crate) model: u32,
}
