use dp_chain::{Line, Release};

/// What an accepted query asks for.
#[derive(Drop)]
pub(crate) enum Task {
    /// A release on the node's value.
    Release(Release),
    /// A child, whose value is what the line gives of the node's.
    Child(Line),
}
