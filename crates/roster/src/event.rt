/// What can happen to a model.
#[derive(Clone, Copy)]
pub(crate) enum Event {
    /// one of its dates has come
    Date { tick: u32 },
    /// the deadline of its run has come
    Deadline,
    /// its run gets so many parts
    Service { parts: u64 },
    /// it is out for good
    Withdrawal,
}
