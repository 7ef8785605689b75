// Whether a map is true.
ghost use Rattle.std.specs.Prelude.{◌≡◌, ◌≤◌, length};
ghost use Rattle.words.specs.Sizes.{words};
ghost use Rattle.words.specs.Tree.{true?};

use crate::child::child;
use words::word;

// Whether each summary bit is set exactly where the child's own word is not 0.
pub fn check(k: usize, s: &[u16]) -> bool
    requires { (k ≤ 6) × (length s.now ≡ words k) }
    ensures { result ≡ true? k s.now }
{
    if k == 0 {
        return true;
    }
    let w = s[0];
    // by number: a child's bit and its words are both found by it
    for i in 0..16 {
        let below = child(k - 1, s, i);
        if word::test(w, i) != (below[0] != 0) {
            return false;
        }
        if !check(k - 1, below) {
            return false;
        }
    }
    true
}
