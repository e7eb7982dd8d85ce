use crate::task::Task;

/// An accepted query.
#[derive(Drop)]
pub(crate) struct Work {
    /// The node that it was addressed to.
    pub(crate) node: u64,
    /// What it cost, in units.
    pub(crate) cost: u64,
    /// What it asks for.
    pub(crate) task: Task,
}
