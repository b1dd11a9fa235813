// Marks in lent words, one bit each: 0 until it is set.
ghost use Rattle.std.specs.Prelude.{◌≡◌, false, ◌/◌, ◌<◌, length, replicate};
ghost use Rattle.pair_marks.specs.Marks.{met, meet};

pub fn is_met(marks: &[u32], p: usize) -> bool
    requires { p / 32 < length marks.now }
    ensures { result ≡ met marks.now p }
{
    let w = marks[p / 32];
    (w >> (p % 32)) % 2 == 1
}

pub fn set_met(marks: &mut [u32], p: usize)
    requires { (p / 32 < length marks.old) × (met marks.old p ≡ false) }
    ensures { marks.new ≡ meet marks.old p }
{
    marks[p / 32] += 1u32 << (p % 32);
}

// Every word is 0 again: one store for each, whichever were set.
pub fn clear(marks: &mut [u32])
    ensures { marks.new ≡ replicate (length marks.old) 0 }
{
    marks.fill(0);
}
