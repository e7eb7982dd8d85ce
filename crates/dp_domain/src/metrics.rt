/// How far two values are from each other.
#[derive(Clone, Copy, Debug, PartialEq, Eq)]
pub enum Metric {
    /// How many elements have to be added or taken away to make one list the other, in any order.
    Symmetric,
    /// How many persons' records differ, in any order: the texts in the column of that number, from 0, name the
    /// persons.
    Users(u32),
    /// How many elements have to be changed to make one list the other of the same length, in any order.
    ChangeOne,
    /// The absolute difference of two numbers.
    Absolute,
    /// 0 for equal categories and 1 for different ones.
    Discrete,
    /// The sum of the absolute differences of the cells of two vectors of one length.
    L1,
}
