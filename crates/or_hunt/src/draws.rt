//! The numbers that are drawn of a seed.
ghost use Rattle.std.specs.Prelude.{◌≡◌, ◌≤◌, ◌<◌, ◌/◌, ◌%◌, ◌^◌, length};
ghost use Rattle.std.specs.List.{All};
ghost use Rattle.or_hunt.specs.Draws.{next_state, state, greatest, exponents, first_state, chosen, most_turns};

use arrayvec::ArrayVec;

/// The state after one draw more.
#[inline]
pub(crate) fn next_state(x: u64) -> u64
    ensures { result ≡ next_state x }
{
    x.wrapping_mul(6_364_136_223_846_793_005)
        .wrapping_add(1_442_695_040_888_963_407)
}

// The state behind the draws that are not used.
fn unused_state(seed: u32) -> u64
    ensures { result ≡ state seed 3 }
{
    next_state(next_state(next_state(u64::from(seed))))
}

// The greatest exponent of a core's stretches.
fn greatest(x: u64) -> u32
    ensures { result ≡ greatest x }
{
    ((x >> 59) % 11) as u32
}

/// The draws of a seed for so many cores: the greatest exponent of each, and the state behind these draws.
#[tactic(auto, using(crate::proofs::Drawing::drawing))]
pub(crate) fn begin(seed: u32, cores: u32) -> (ArrayVec<u32, 8>, u64)
    requires { cores ≤ 8 }
    ensures exponents { result.0.items ≡ exponents seed cores }
    ensures many { length result.0.items ≡ cores }
    ensures small { All (λ exponent. exponent < 11) result.0.items }
    ensures state { result.1 ≡ first_state seed cores }
{
    let mut exponents = ArrayVec::new();
    let mut x = unused_state(seed);
    for _ in 0..cores {
        x = next_state(x);
        exponents.push(greatest(x));
    }
    (exponents, x)
}

/// The index among so many cores that a draw chooses.
pub(crate) fn chosen_index(x: u64, many: usize) -> usize
    requires { 0 < many }
    ensures { result ≡ (x / 2 ^ 33) % many }
{
    ((x >> 33) % many as u64) as usize
}

/// The most turns of a stretch of a core with this greatest exponent, which is at most 10.
pub(crate) fn most_turns(exponent: u32, x: u64) -> u32
    requires { exponent ≤ 10 }
    ensures value { result ≡ most_turns exponent x }
    ensures some { 0 < result }
{
    1 << ((x >> 59) % u64::from(1 + exponent))
}
