/// Why two parts are not joined.
#[derive(Clone, Copy, Debug, PartialEq, Eq)]
pub enum JoinFault {
    /// The two domains differ, be it in a bound or a size alone.
    Kind,
    /// The two domains are equal, and the metrics differ.
    Metric,
}

/// Why a release has no cost.
#[derive(Clone, Copy, Debug, PartialEq, Eq)]
pub enum CostFault {
    /// A part's stability map or privacy map, or the sum of the losses, passes 2^32.
    Distance,
    /// There is a loss, and a release takes more than 2^20 draws.
    Draws,
}
