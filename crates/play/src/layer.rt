//! What is laid over a calendar.

/// A delay by some ticks, or a closure from one tick up to but without another.
#[derive(Clone, Copy)]
pub(crate) enum Layer {
    Delay(u32),
    Closure(u32, u32),
}
