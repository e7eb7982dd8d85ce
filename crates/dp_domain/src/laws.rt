//! The laws of the distance of two lists in any order, and of groups of their elements by a key. Each is the contract
//! of a function that does nothing. `E` and `F` are types of elements, `K` is a type of keys.
ghost use Rattle.dp_domain.specs.DistanceLaws.{SymmetricLaw, TriangleLaw, ReorderLaw, OrderLaw, SplitLaw, LeastSplitLaw, FilterMapLaw, MapLaw, FilterLaw, LengthLaw, SumLaw, EvenSumLaw, HistogramLaw, WiderLaw, SelfLaw};
ghost use Rattle.dp_domain.specs.GroupLaws.{PartsSymmetricLaw, PartsReorderLaw, PartsOrderLaw, MostPartsLaw, CoverPartsLaw, PartSumLaw, CoverSumLaw, PartsFilterLaw, FewLaw};

/// The distance is the same either way round, and a way round is no shorter.
pub fn distance_law<E>()
    ensures symmetric { SymmetricLaw E }
    ensures triangle { TriangleLaw E }
{}

/// Order plays no part, and the distance is 0 exactly for lists that are the same in another order.
pub fn order_law<E>()
    ensures reorder { ReorderLaw E }
    ensures none { OrderLaw E }
{}

/// Two lists have a common part, and what is left of them is as many elements as their distance, and never fewer.
pub fn split_law<E>()
    ensures split { SplitLaw E }
    ensures least { LeastSplitLaw E }
{}

/// A map, a filter and a map to at most one element do not raise the distance.
pub fn map_law<E, F>()
    ensures filter_map { FilterMapLaw E F }
    ensures map { MapLaw E F }
    ensures filter { FilterLaw E }
{}

/// Lengths, sums and histograms are apart by no more than the distance allows.
pub fn total_law<E>()
    ensures length { LengthLaw E }
    ensures sum { SumLaw E }
    ensures even_sum { EvenSumLaw E }
    ensures histogram { HistogramLaw E }
{}

/// Values within a distance are within every greater one, and a value is within 0 of itself by a metric that is used
/// with its domain.
pub fn wider_law()
    ensures wider { WiderLaw }
    ensures itself { SelfLaw }
{}

/// The number of groups that differ, by a key, is the same either way round and in any order, and 0 exactly for lists
/// that are the same in another order.
pub fn group_law<E, K>()
    ensures symmetric { PartsSymmetricLaw E K }
    ensures reorder { PartsReorderLaw E K }
    ensures none { PartsOrderLaw E K }
{}

/// Different keys give no more groups that differ, and as many where they cover both lists; their groups are together
/// no further apart than the lists, and as far where they cover both.
pub fn key_law<E, K>()
    ensures most { MostPartsLaw E K }
    ensures cover { CoverPartsLaw E K }
    ensures sum { PartSumLaw E K }
    ensures cover_sum { CoverSumLaw E K }
{}

/// A filter raises no number of groups that differ, and lists with few elements a group are no further apart than the
/// groups that differ allow.
pub fn few_law<E, K>()
    ensures filter { PartsFilterLaw E K }
    ensures few { FewLaw E K }
{}

#[cfg(test)]
mod tests {
    use super::*;

    /// A call gives its law to the function that makes it.
    fn given<E, F>()
        ensures triangle { TriangleLaw E }
        ensures order { OrderLaw E }
        ensures split { SplitLaw E }
        ensures filter_map { FilterMapLaw E F }
        ensures sum { SumLaw E }
        ensures wider { WiderLaw }
        ensures itself { SelfLaw }
        ensures groups { PartsSymmetricLaw E F }
        ensures keys { PartSumLaw E F }
        ensures few { FewLaw E F }
    {
        distance_law::<E>();
        order_law::<E>();
        split_law::<E>();
        map_law::<E, F>();
        total_law::<E>();
        wider_law();
        group_law::<E, F>();
        key_law::<E, F>();
        few_law::<E, F>();
    }

    #[test]
    fn a_call_gives_its_law(_rt: HostRuntime) {
        given::<u64, i64>();
    }
}
