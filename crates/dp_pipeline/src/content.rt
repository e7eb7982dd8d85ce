use crate::plan::Plans;
use crate::root::RootSpec;
use dp_domain::Texts;

/// Whether queries at a node leave those below it open.
#[derive(Clone, Copy, Debug, PartialEq, Eq)]
pub enum Siblings {
    /// They do.
    Open,
    /// They do not: what is below is frozen.
    Frozen,
}

/// What a pipeline's text says.
#[derive(Debug, Drop)]
pub(crate) struct Content {
    /// The version of the form.
    pub(crate) version: u64,
    /// The names of the columns.
    pub(crate) columns: Texts,
    /// Whether the first record of a data text is left out.
    pub(crate) header: bool,
    /// The smaller number of the ratio.
    pub(crate) p: u64,
    /// The greater number of the ratio.
    pub(crate) q: u64,
    /// The distance of data texts.
    pub(crate) distance: u64,
    /// The budget of the root.
    pub(crate) root: RootSpec,
    /// The releases by name.
    pub(crate) plans: Plans,
    /// The column that names persons, if there is one.
    pub(crate) user: Option<u32>,
    /// Whether siblings stay open, in version 2.
    pub(crate) siblings: Option<Siblings>,
}
