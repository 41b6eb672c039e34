//! Syndromes of up to 16 lines in one number: four bits for each, those of line 0 the least significant.

ghost use Rattle.std.specs.Prelude.{◌≡◌, ◌<◌, ◌↔◌, ℕ, IsTrue};
ghost use Rattle.dmr_bptc.specs.Sums.{syndrome_at, failing_lines};

/// Returns the first line that fails. One must fail.
pub(crate) fn first_failing(syndromes: u64) -> usize
    requires { 0 < syndromes }
    ensures before { (line : ℕ) → line < result → syndrome_at syndromes line ≡ 0 }
    ensures fails { 0 < syndrome_at syndromes result }
    ensures small { result < 16 }
{
    (syndromes.trailing_zeros() / 4) as usize
}

/// Reports whether more than `most` lines fail.
pub(crate) fn more_fail_than(syndromes: u64, most: u32) -> bool
    ensures { IsTrue result ↔ most < failing_lines syndromes }
{
    let mut rest = syndromes;
    for _ in 0..most {
        if rest == 0 {
            return false;
        }
        rest = (rest >> (4 * first_failing(rest))) >> 4;
    }
    rest != 0
}
