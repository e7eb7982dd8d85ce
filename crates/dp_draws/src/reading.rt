ghost use Rattle.std.specs.Prelude.{◌≡◌, IfOk};
ghost use Rattle.dp_draws.specs.Numbers.{drawn_numbers, is_blank};

use crate::{Draws, Replay};
use dp_count::{NoMemory, short_decimal};
use std::alloc::Global;

/// The greatest number of digits of a number in a file of draws.
const MOST_DIGITS: usize = 19;

/// The source of the numbers that a file of draws spells. Its tokens stand between spaces, tabs, line feeds and
/// carriage returns; a token of 1 to 19 ASCII digits is a number. The first other token ends the list.
pub fn read_draws(alloc: Global, bytes: &[u8]) -> Result<Replay, NoMemory>
    ensures state { IfOk result (λ replay. ⟦<Replay as Draws>⟧.state replay ≡ drawn_numbers bytes.now) }
    ensures faults { IfOk result (λ replay. ⟦<Replay as Draws>⟧.faults replay ≡ 0) }
{
    Ok(Replay::new(numbers(alloc, bytes)?))
}

/// The numbers that a file of draws spells.
fn numbers(alloc: Global, bytes: &[u8]) -> Result<Vec<u64>, NoMemory>
    ensures { IfOk result (λ numbers. numbers.items ≡ drawn_numbers bytes.now) }
{
    let mut numbers = Vec::new(alloc);
    let tokens = bytes
        .split(|byte| is_blank(*byte))
        .filter(|token| !token.is_empty());
    for token in tokens {
        let Some(number) = short_decimal(token, MOST_DIGITS) else {
            return Ok(numbers);
        };
        numbers.push(number)?;
    }
    Ok(numbers)
}

/// Whether the byte is a space, a tab, a line feed or a carriage return.
#[tactic(auto, unfolding(crate::specs::Numbers::is_blank))]
fn is_blank(byte: u8) -> bool
    ensures { result ≡ is_blank byte }
{
    matches!(byte, b' ' | b'\t' | b'\n' | b'\r')
}

#[cfg(test)]
mod tests {
    use super::*;
    use std::test::Fail;

    #[test]
    fn a_file_spells_the_numbers_before_the_first_other_token(rt: HostRuntime) -> Result<(), Fail> {
        for (text, wanted) in [
            ("", [].as_slice()),
            ("1 0\t2\r\n03\n", [1, 0, 2, 3].as_slice()),
            (" \n\r\t 7", [7].as_slice()),
            ("1 x 2", [1].as_slice()),
            ("1 -2", [1].as_slice()),
            ("4 +5", [4].as_slice()),
            ("7,8", [].as_slice()),
            ("7\u{b}8", [].as_slice()),
            ("9999999999999999999 5", [9999999999999999999, 5].as_slice()),
            ("5 00000000000000000001 6", [5].as_slice()),
        ] {
            let Ok(found) = numbers(rt.alloc(), text.as_bytes()) else {
                return Err(Fail::from("memory ran out"));
            };
            assert_eq!(rt; found.as_slice(), wanted, "{text}");
        }
        Ok(())
    }

    #[test]
    fn a_file_is_replayed(rt: HostRuntime) {
        let read = read_draws(rt.alloc(), b"1 2 x");
        assert!(rt; read.is_ok());
        if let Ok(mut source) = read {
            assert_eq!(rt; source.below(2), Ok(1));
            assert_eq!(rt; source.below(3), Ok(2));
            assert!(rt; source.below(3).is_err());
        }
    }
}
