// Alignment to a power of two, and where a run ends: sums and shifts that never wrap.
ghost use Rattle.std.specs.Prelude.{◌≡◌, ◌+◌, ◌-◌, ◌*◌, ◌/◌, ◌^◌, min, ◌<◌};
ghost use Rattle.words.specs.Run.{aligned, misfit};

// The lowest multiple of 2^align_log2 that is base or more, by shifts: std's next_multiple_of divides.
pub fn align_up_log2(base: usize, align_log2: usize) -> usize
    requires { (align_log2 < 64) × (base + 2 ^ align_log2 < 2 ^ 64) }
    ensures { result ≡ (base + (2 ^ align_log2 - 1)) / 2 ^ align_log2 * 2 ^ align_log2 }
{
    let low = (1 << align_log2) - 1;
    ((base + low) >> align_log2) << align_log2
}

// Whether base is a multiple of 2^align_log2.
pub fn is_aligned_log2(base: usize, align_log2: usize) -> bool
    requires { align_log2 < 64 }
    ensures { result ≡ aligned align_log2 base }
{
    base & ((1 << align_log2) - 1) == 0
}

// Whether 2^align_log2 is no alignment of a map of cap positions: it is never computed where it does not fit.
pub fn misfits(cap: usize, align_log2: usize) -> bool
    ensures { result ≡ misfit cap align_log2 }
{
    64 <= align_log2 || cap < (1 << align_log2)
}

// Where a run ends: base + size, or the largest number where the sum is more, so that a huge size never looks short.
pub fn run_end(base: usize, size: usize) -> usize
    ensures { result ≡ min (base + size) (2 ^ 64 - 1) }
{
    base.saturating_add(size)
}
