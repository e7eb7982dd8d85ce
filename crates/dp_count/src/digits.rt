ghost use Rattle.std.specs.Prelude.{◌≡◌, ◌≤◌, ◌<◌, ◌^◌, ◌+◌, ◌*◌, ◌-◌, if◌then◌else◌, None, IfSome};
ghost use Rattle.std.specs.Char.{is_ascii_digit};
ghost use Rattle.dp_count.specs.Digits.{decimal, short_decimal, signed_decimal, word, IsWithin, without_sign, with_sign};

/// The number that one or more ASCII digits spell, where they are nothing else and it is below 2^64.
pub fn decimal(bytes: &[u8]) -> Option<u64>
    ensures { result ≡ word (decimal bytes.now) }
{
    if bytes.is_empty() {
        return None;
    }
    let mut number = 0;
    for byte in bytes {
        number = with_digit(number, *byte)?;
    }
    Some(number)
}

/// The number that 1 to `longest` ASCII digits spell, where the bytes are nothing else. At most 19 digits fit.
pub fn short_decimal(bytes: &[u8], longest: usize) -> Option<u64>
    requires { longest ≤ 19 }
    ensures number { result ≡ short_decimal longest bytes.now }
    ensures below { IfSome result (λ n. n < 10 ^ longest) }
{
    if bytes.len() > longest {
        return None;
    }
    decimal(bytes)
}

/// The number that an optional `-` and 1 to `longest` ASCII digits spell. At most 18 digits fit.
pub fn signed_decimal(bytes: &[u8], longest: usize) -> Option<i64>
    requires { longest ≤ 18 }
    ensures number { result ≡ signed_decimal longest bytes.now }
    ensures within { IfSome result (IsWithin (10 ^ longest)) }
{
    let (negative, digits) = without_sign(bytes);
    let number = short_decimal(digits, longest)?;
    Some(with_sign(negative, number))
}

/// Whether the bytes begin with a `-`, and the bytes after it, or else all.
pub fn without_sign(bytes: &[u8]) -> (bool, &[u8])
    ensures { (result.0, result.1.now) ≡ without_sign bytes.now }
{
    let Some((first, rest)) = bytes.split_first() else {
        return (false, bytes);
    };
    if *first == b'-' {
        (true, rest)
    } else {
        (false, bytes)
    }
}

/// The number, with a `-` before it or without.
pub fn with_sign(negative: bool, number: u64) -> i64
    requires { number < 2 ^ 63 }
    ensures { result ≡ with_sign negative number }
{
    if negative {
        -(number as i64)
    } else {
        number as i64
    }
}

/// The number with one more digit at its end.
fn with_digit(number: u64, byte: u8) -> Option<u64>
    ensures { result ≡ (if is_ascii_digit byte then word (Some (10 * number + (byte - 48))) else None) }
{
    if !byte.is_ascii_digit() {
        return None;
    }
    number.checked_mul(10)?.checked_add(u64::from(byte - b'0'))
}

#[cfg(test)]
mod tests {
    use super::*;

    #[test]
    fn digits_and_nothing_else_spell_a_number(rt: HostRuntime) {
        for (text, number) in [
            ("", None),
            ("0", Some(0)),
            ("007", Some(7)),
            ("12x", None),
            ("+5", None),
            ("-5", None),
            (" 5", None),
            ("18446744073709551615", Some(18446744073709551615)),
            ("18446744073709551616", None),
            ("00000000000000000000012", Some(12)),
        ] {
            assert_eq!(rt; decimal(text.as_bytes()), number, "{text}");
        }
    }

    #[test]
    fn a_short_number_has_at_most_so_many_digits(rt: HostRuntime) {
        for (text, number) in [
            ("9999999999999999999", Some(9999999999999999999)),
            ("00000000000000000001", None),
        ] {
            assert_eq!(rt; short_decimal(text.as_bytes(), 19), number, "{text}");
        }
    }

    #[test]
    fn a_minus_sign_may_stand_before_the_digits(rt: HostRuntime) {
        for (text, number) in [
            ("-0", Some(0)),
            ("-12", Some(-12)),
            ("12", Some(12)),
            ("-", None),
            ("--1", None),
            ("-999999999999999999", Some(-999999999999999999)),
            ("-1000000000000000000", None),
        ] {
            assert_eq!(rt; signed_decimal(text.as_bytes(), 18), number, "{text}");
        }
    }
}
