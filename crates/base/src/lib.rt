// Finite sums of the numbers of a lent slice, and a slice of zeros.
#![tactic(auto)]

ghost use Rattle.std.specs.Prelude.{◌≡◌, ℕ, ◌+◌, ◌*◌, ◌≤◌, ◌<◌, length, replicate};
ghost use Rattle.base.specs.Sum.{sum, strided};

// The number of k below `count` for which index start + stride × k is inside
// a slice of length `len`.
fn count_inside(len: usize, start: usize, stride: usize, count: u32) -> u32
    ensures few { result ≤ count }
    ensures inside { (k : ℕ) → k < result → start + stride * k < len }
    ensures outside { (k : ℕ) → result ≤ k → k < count → len ≤ start + stride * k }
{
    if len <= start {
        return 0;
    }
    if stride == 0 {
        return count;
    }
    let most = (len - 1 - start) / stride;
    if most < count as usize {
        most as u32 + 1
    } else {
        count
    }
}

// The sum of s at the indices start + stride × k for k below `count`;
// indices past the end add nothing. A row of a table has stride 1, a column the width of a row.
// The count has 32 bits, so no sum wraps.
#[tactic(auto, using(crate::proofs::SumLaws::sum_start, crate::proofs::SumLaws::sum_step, crate::proofs::SumLaws::sum_inside))]
pub fn sum_of(s: &[u32], start: usize, stride: usize, count: u32) -> u64
    ensures { result ≡ sum (strided s.now start stride) count }
{
    let inside = count_inside(s.len(), start, stride, count);
    let mut total: u64 = 0;
    for k in 0..inside {
        total += u64::from(s[start + stride * k as usize]);
    }
    total
}

// Writes 0 to every place of a slice.
pub fn clear(row: &mut [u32])
    ensures { row.new ≡ replicate (length row.old) 0 }
{
    row.fill(0);
}
