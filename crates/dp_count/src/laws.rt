//! The laws of the number of draw lists that meet a test. Each is the contract of a function that does nothing.
ghost use Rattle.dp_count.specs.CountingLaws.{ProductLaw, CutLaw, BlockLaw, RunLaw, WholeRunLaw, LongRunLaw, IntervalLaw, EitherLaw, WholeLaw, PartitionLaw};
ghost use Rattle.dp_count.specs.DrawListsLaw.{MembersLaw, OnceLaw, ListLaw, SetLaw, SetRatioLaw};
ghost use Rattle.dp_count.specs.Slots.{SlotsLaw, SlotsRatioLaw};
ghost use Rattle.dp_count.specs.Ratios.{RatioProductLaw, RatioGrowthLaw, RatioListLaw, RatioSumLaw};

/// The numbers of draw lists of joined shapes multiply.
pub fn product_law()
    ensures product { ProductLaw }
    ensures cut { CutLaw }
{}

/// A draw that is not looked at multiplies the number by its bound.
pub fn block_law()
    ensures { BlockLaw }
{}

/// How many lists of n draws begin with exactly, or at least, g draws below a limit.
pub fn run_law()
    ensures exact { RunLaw }
    ensures whole { WholeRunLaw }
    ensures long { LongRunLaw }
{}

/// How many draws lie in an interval.
pub fn interval_law()
    ensures { IntervalLaw }
{}

/// The numbers of tests that are never both met add, and all draw lists are the product of the bounds.
pub fn sum_law()
    ensures either { EitherLaw }
    ensures whole { WholeLaw }
{}

/// The numbers of several replies, none the same as another, add.
pub fn partition_law<R>()
    ensures { PartitionLaw R }
{}

/// Of several slots side by side, the number of draw lists with the wanted replies is the product of the slots'
/// numbers, and where each slot keeps a ratio, the whole keeps it at the sum of the exponents.
pub fn slots_law<R>()
    ensures product { SlotsLaw R }
    ensures ratio { SlotsRatioLaw R }
{}

/// How pairs of numbers that keep a ratio combine: by products, at greater exponents, and in lists.
pub fn ratio_law()
    ensures product { RatioProductLaw }
    ensures growth { RatioGrowthLaw }
    ensures list { RatioListLaw }
    ensures sum { RatioSumLaw }
{}

/// The list of all draw lists of a shape has each of them once and nothing else, and the number of those that meet a
/// test is the length of its filter by the test.
pub fn list_law()
    ensures members { MembersLaw }
    ensures once { OnceLaw }
    ensures counted { ListLaw }
{}

/// Of a set of replies: its number is the sum of the numbers of its replies, and a ratio that is kept at every reply is
/// kept at every set of replies.
pub fn set_law<R>()
    ensures sum { SetLaw R }
    ensures ratio { SetRatioLaw R }
{}

#[cfg(test)]
mod tests {
    use super::*;

    /// A call gives its law to the function that makes it.
    fn given<R>()
        ensures product { ProductLaw }
        ensures cut { CutLaw }
        ensures block { BlockLaw }
        ensures run { RunLaw }
        ensures interval { IntervalLaw }
        ensures either { EitherLaw }
        ensures partition { PartitionLaw R }
        ensures slots { SlotsLaw R }
        ensures slots_ratio { SlotsRatioLaw R }
        ensures ratio { RatioListLaw }
        ensures members { MembersLaw }
        ensures once { OnceLaw }
        ensures counted { ListLaw }
        ensures set { SetLaw R }
        ensures set_ratio { SetRatioLaw R }
    {
        product_law();
        block_law();
        run_law();
        interval_law();
        sum_law();
        partition_law::<R>();
        slots_law::<R>();
        ratio_law();
        list_law();
        set_law::<R>();
    }

    #[test]
    fn a_call_gives_its_law(_rt: HostRuntime) {
        given::<u64>();
    }
}
