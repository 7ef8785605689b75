// A child's words among those of its map.
ghost use Rattle.std.specs.Prelude.{◌≡◌, suc, ◌≤◌, ◌<◌, length};
ghost use Rattle.words.specs.Sizes.{words};
ghost use Rattle.words.specs.Tree.{child};

use words::sizes;

// The words of child i, where each child has the level j.
pub(crate) fn child(j: usize, s: &[u16], i: usize) -> &[u16]
    requires { (j ≤ 5) × (length s.now ≡ words (suc j)) × (i < 16) }
    ensures { (result.now ≡ child j s.now i) × (length result.now ≡ words j) }
{
    let size = sizes::words_of(j);
    let from = 1 + i * size;
    &s[from..from + size]
}
