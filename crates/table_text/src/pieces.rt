// Pieces of a text that are written one after the other.
ghost use Rattle.std.specs.Prelude.{ℕ, ◌+◌, ◌≤◌, ◌<◌, length};
ghost use Rattle.objects.specs.Bounds.{word_values};
ghost use Rattle.objects.specs.Lists.{Bytes};
ghost use Rattle.print.specs.Written.{Wrote};
ghost use Rattle.table_text.specs.Rows.{pieces_from};
ghost use Rattle.table_text.specs.Pieces.{MayPut, Puts};

// The pieces of `count` numbers from a first one on. `put` writes that of a number at a place, and answers the place behind it.
pub fn put_pieces<F: Fn(&mut [u8], usize, u32) -> usize>(
    out: &mut [u8],
    at: usize,
    first: u32,
    count: u32,
    put: F,
) -> usize
    requires small { first + count < word_values }
    requires may_put { (f : ℕ → Bytes) × MayPut f first count (λ o i k. F.pre put o i k) (length out.old) × Puts f first count (λ o i k r o'. F.post put o i k r o') × (at + length (pieces_from f first count) ≤ length out.old) }
    ensures { (f : ℕ → Bytes) → Puts f first count (λ o i k r o'. F.post put o i k r o') → Wrote out.old at (pieces_from f first count) out.new result }
{
    let mut i = at;
    for j in 0..count {
        i = put(out, i, first + j);
    }
    i
}
