pub use dp_count::Items;

/// A text, as its bytes.
pub type Text = Items<u8>;

/// The cells of one record.
pub type Record = Items<Text>;

/// Texts in order.
pub type Texts = Items<Text>;

/// Records in order.
pub type Rows = Items<Record>;

/// Numbers in order, some of them missing.
pub type OptInts = Items<Option<i64>>;

/// Numbers in order.
pub type Ints = Items<i64>;

/// The numbers of a vector, one a cell.
pub type Cells = Items<i64>;

/// Category numbers in order, from 0.
pub type Cats = Items<u32>;
