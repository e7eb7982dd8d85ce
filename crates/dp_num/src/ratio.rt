ghost use Rattle.std.specs.Prelude.{◌≡◌, ◌≤◌, ◌<◌, ◌^◌, ◌+◌, ◌*◌, Some, is_ok, IfOk};
ghost use Rattle.std.specs.Result.{result_ok};
ghost use Rattle.dp_num.specs.Limits.{is_ratio, powers, powers_within, ArePowers};

use crate::Bound;

/// The greatest number of a ratio.
const MOST: u64 = 65_536;

/// The greatest sum of two powers.
const MOST_SUM: u64 = 4_611_686_018_427_387_904;

/// The ratio p/q, where 1 ≤ p < q ≤ 65,536.
#[derive(Clone, Copy, Debug, PartialEq, Eq)]
pub struct Ratio {
    /// The smaller number.
    pub p: u64,
    /// The greater number.
    pub q: u64,
    pub ghost positive: { 1 ≤ p },
    pub ghost below_one: { p < q },
    pub ghost small: { q ≤ 65536 },
}

impl Ratio {
    /// The ratio p/q. `Bound` comes exactly where not 1 ≤ p < q ≤ 65,536.
    pub fn new(p: u64, q: u64) -> Result<Ratio, Bound>
        ensures exactly { is_ok result ≡ is_ratio p q }
        ensures numbers { IfOk result (λ ratio. (ratio.p ≡ p) × (ratio.q ≡ q)) }
    {
        if p < 1 || p >= q || q > MOST {
            return Err(Bound);
        }
        Ok(Ratio { p, q })
    }

    /// The smaller number.
    pub fn p(&self) -> u64
        ensures { result ≡ self.now.p }
    {
        self.p
    }

    /// The greater number.
    pub fn q(&self) -> u64
        ensures { result ≡ self.now.q }
    {
        self.q
    }

    /// p^u and q^u, the numbers of a ratio again. `Bound` comes exactly where u = 0 or q^u + p^u > 2^62; so u is at
    /// most 62 where they stand.
    pub fn powers(&self, u: u64) -> Result<(u64, u64), Bound>
        ensures given { result_ok result ≡ powers self.now.p self.now.q u }
        ensures facts { IfOk result (ArePowers self.now.p self.now.q u) }
    {
        if u == 0 {
            return Err(Bound);
        }
        let mut low = self.p;
        let mut high = self.q;
        for _exponent in 1..u {
            let (next_low, next_high) = self.next_powers(low, high)?;
            low = next_low;
            high = next_high;
        }
        Ok((low, high))
    }

    /// The powers at the next exponent, where their sum is at most 2^62.
    fn next_powers(&self, low: u64, high: u64) -> Result<(u64, u64), Bound>
        requires { high + low ≤ 2 ^ 62 }
        ensures { result_ok result ≡ powers_within (low * self.now.p) (high * self.now.q) }
    {
        let Some(next_low) = low.checked_mul(self.p) else {
            return Err(Bound);
        };
        let Some(next_high) = high.checked_mul(self.q) else {
            return Err(Bound);
        };
        if next_high > MOST_SUM || next_low > MOST_SUM - next_high {
            return Err(Bound);
        }
        Ok((next_low, next_high))
    }
}

#[cfg(test)]
mod tests {
    use super::*;

    #[test]
    fn a_ratio_is_below_one_and_has_small_numbers(rt: HostRuntime) {
        assert!(rt; Ratio::new(1, 65_536).is_ok());
        for (p, q) in [(65_536, 65_537), (3, 3), (0, 2)] {
            assert_eq!(rt; Ratio::new(p, q), Err(Bound));
        }
    }

    #[test]
    fn powers_stand_up_to_their_sum(rt: HostRuntime) -> Result<(), Bound> {
        let half = Ratio::new(1, 2)?;
        assert_eq!(rt; (half.p(), half.q()), (1, 2));
        assert_eq!(rt; half.powers(61), Ok((1, 2_305_843_009_213_693_952)));
        assert_eq!(rt; half.powers(62), Err(Bound));
        assert_eq!(rt; half.powers(0), Err(Bound));
        assert_eq!(rt; half.powers(18_446_744_073_709_551_615), Err(Bound));
        Ok(())
    }
}
