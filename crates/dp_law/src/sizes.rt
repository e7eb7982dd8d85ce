ghost use Rattle.std.specs.Prelude.{◌≡◌};
ghost use Rattle.dp_law.specs.Making.{list_metric, is_list_metric};

use dp_domain::Metric;

/// The metric of a list: `Symmetric` without a size, `ChangeOne` with one.
pub fn list_metric(size: Option<u32>) -> Metric
    ensures { result ≡ list_metric size }
{
    match size {
        None => Metric::Symmetric,
        Some(_) => Metric::ChangeOne,
    }
}

/// Whether the metric is that of a list of the size.
pub fn is_list_metric(size: Option<u32>, metric: Metric) -> bool
    ensures { result ≡ is_list_metric size metric }
{
    match size {
        None => matches!(metric, Metric::Symmetric),
        Some(_) => matches!(metric, Metric::ChangeOne),
    }
}

#[cfg(test)]
mod tests {
    use super::*;

    #[test]
    fn a_size_decides_the_metric(rt: HostRuntime) {
        assert_eq!(rt; list_metric(None), Metric::Symmetric);
        assert_eq!(rt; list_metric(Some(3)), Metric::ChangeOne);
        assert!(rt; is_list_metric(None, Metric::Symmetric));
        assert!(rt; !is_list_metric(None, Metric::ChangeOne));
        assert!(rt; is_list_metric(Some(3), Metric::ChangeOne));
        assert!(rt; !is_list_metric(Some(3), Metric::L1));
    }
}
