ghost use Rattle.std.specs.Prelude.{◌≡◌, ◌<◌, ◌≤◌, ◌^◌, length};
ghost use Rattle.dp_draws.specs.ChaChaDraws.{first_taken, most_turns, seed_state};

use crate::Draws;
use dp_count::Failed;
use rand_chacha::ChaCha20Rng;
use rand_core::SeedableRng;
use rand_core::utils::next_u64_via_u32;

/// How many numbers in a row may not be taken before a draw fails.
const MOST_TURNS: u32 = 128;

/// A source that draws from the word stream of ChaCha20 with the number 0. One turn reads two words, of which the
/// first is the low half of a number and the second its high half. The number is taken where it is below the greatest
/// multiple of the bound that is at most 2^64, and the draw is then its remainder by the bound.
#[derive(Debug, Drop)]
pub struct ChaChaDraws {
    rng: ChaCha20Rng,
    failed: u64,
    ghost whole_key: { length rng.key ≡ 8 },
    ghost first_stream: { rng.stream ≡ 0 },
    ghost few: { failed < 2 ^ 64 },
}

impl ChaChaDraws {
    /// The source of a seed. Its state is the key, which is the seed's bytes as eight words, each lowest byte first,
    /// followed by the place 0. It has met no fault.
    pub fn new(seed: [u8; 32]) -> ChaChaDraws
        ensures state { ⟦<ChaChaDraws as Draws>⟧.state result ≡ seed_state seed }
        ensures faults { ⟦<ChaChaDraws as Draws>⟧.faults result ≡ 0 }
    {
        ChaChaDraws {
            rng: ChaCha20Rng::from_seed(seed),
            failed: 0,
        }
    }
}

impl Draws for ChaChaDraws {
    ghost use Rattle.dp_draws.specs.Views.{chacha_state, chacha_faults};
    ghost use Rattle.dp_draws.specs.ChaChaDraws.{chacha_step};
    ghost use Rattle.dp_draws.specs.ChaChaProof.{chacha_below};

    ghost state = { chacha_state };

    ghost step = { chacha_step };

    ghost faults = { chacha_faults };

    fn below(&mut self, m: u64) -> Result<u64, Failed> {
        if let Some(draw) = first_taken(&mut self.rng, m) {
            return Ok(draw);
        }
        self.failed = self.failed.saturating_add(1);
        Err(Failed)
    }

    ghost draw_below = { chacha_below };

    ghost few_faults = { λ source. source.few };
}

/// The draw of the first number that is taken, where one of the next 128 is.
fn first_taken(rng: &mut ChaCha20Rng, m: u64) -> Option<u64>
    requires { 1 ≤ m }
    ensures { first_taken most_turns m rng.old ≡ record { draw = result; after = rng.new } }
{
    let bound = u128::from(m);
    let taken_below = bound * (0x1_0000_0000_0000_0000 / bound);
    for _turn in 0..MOST_TURNS {
        let number = next_u64_via_u32(rng);
        if u128::from(number) < taken_below {
            return Some(number % m);
        }
    }
    None
}

#[cfg(test)]
mod tests {
    use super::*;

    // The key stream of RFC 8439 for a key of zeros begins with the bytes 76 b8 e0 ad a0 f1 3d 90 and
    // 40 5d 6a e5 53 86 bd 28 (appendix A.1, test vector 1; vector 2 has its second block).
    const FIRST_NUMBERS: [u64; 16] = [
        0x903d_f1a0_ade0_b876,
        0x28bd_8653_e56a_5d40,
        0x1aed_8da0_b819_d2bd,
        0xc70d_778b_ccef_36a8,
        0x8d48_5751_7c59_41da,
        0x374a_d8b8_3fe0_2477,
        0x1ca1_1815_f4b8_436a,
        0x8665_eeb2_69b6_87c3,
        0x7a38_5155_bee7_079f,
        0x0d08_2d73_7c97_ba98,
        0x6965_e348_a029_0fcb,
        0xed7a_ee32_3e53_c612,
        0x434e_e69c_7621_b729,
        0xd539_d874_b033_71d5,
        0x45fb_0a51_281f_ed31,
        0x6f4d_794b_1f0a_e1ac,
    ];

    #[test]
    fn a_key_of_zeros_gives_the_published_words(rt: HostRuntime) {
        let mut source = ChaChaDraws::new([0; 32]);
        for number in FIRST_NUMBERS {
            assert_eq!(rt; source.below(1 << 62), Ok(number % (1 << 62)));
        }
        let mut again = ChaChaDraws::new([0; 32]);
        assert_eq!(rt; again.below(3), Ok(0));
        assert_eq!(rt; again.failed, 0);
    }

    #[test]
    fn a_number_past_the_last_whole_multiple_of_the_bound_is_left_out(rt: HostRuntime) {
        // Four times this bound is at most 2^64, and five times is more.
        let bound = 0x3333_3333_3333_3334;
        let mut source = ChaChaDraws::new([0; 32]);
        for number in FIRST_NUMBERS {
            if number < 4 * bound {
                assert_eq!(rt; source.below(bound), Ok(number % bound));
            }
        }
        assert!(rt; FIRST_NUMBERS[11] >= 4 * bound && FIRST_NUMBERS[13] >= 4 * bound);
    }
}
