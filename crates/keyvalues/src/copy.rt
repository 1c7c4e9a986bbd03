// Items copied from one list into another.
ghost use Rattle.std.specs.Prelude.{◌≡◌, ◌+◌, ltb};
ghost use Rattle.keyvalues.specs.View.{copied};

// Do n items from a place on go past the end?
fn passes(end: usize, at: usize, n: usize) -> bool
    ensures { result ≡ ltb end (at + n) }
{
    end < n || end - n < at
}

// n items of src, from the place `from` on, go to dst from the place `to` on. Where they do not fit, nothing is copied.
#[tactic(auto, unfolding(crate::specs::View::copied))]
pub fn copy<T: Copy>(dst: &mut [T], to: usize, src: &[T], from: usize, n: usize)
    ensures { dst.new ≡ copied dst.old to src.now from n }
{
    if passes(dst.len(), to, n) || passes(src.len(), from, n) {
        return;
    }
    dst[to..to + n].copy_from_slice(&src[from..from + n]);
}
