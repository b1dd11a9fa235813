// Numbers of pairs of types, and the words that their bits take.
ghost use Rattle.std.specs.Prelude.{◌≡◌, ◌<◌, ◌≤◌};
ghost use Rattle.objects.specs.Bounds.{max_types, pairs_of, pair_words};
ghost use Rattle.pair_marks.specs.Pairs.{pair};

use objects::TypeKey;

// Bits of a word.
const BITS: usize = u32::BITS as usize;

// How many pairs of n types there are.
fn pairs_of(n: usize) -> usize
    requires { n ≤ max_types }
    ensures { result ≡ pairs_of n }
{
    (n * n - n) / 2
}

// The words that they take, a bit each.
pub fn pair_words(n: usize) -> usize
    requires { n ≤ max_types }
    ensures { result ≡ pair_words n }
{
    pairs_of(n).div_ceil(BITS)
}

// The number of the pair of x and y, whichever is named first.
pub fn pair_number(x: TypeKey, y: TypeKey) -> usize
    requires { (x.0 < max_types) × (y.0 < max_types) }
    ensures { result ≡ pair x y }
{
    let a = x.0 as usize;
    let b = y.0 as usize;
    if a < b {
        pairs_of(b) + a
    } else {
        pairs_of(a) + b
    }
}
