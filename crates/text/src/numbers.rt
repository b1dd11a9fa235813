// Numbers in base ten, read byte by byte up to a bound.
ghost use Rattle.std.specs.Prelude.{◌≡◌};
ghost use Rattle.text.specs.Bytes.{number};
ghost use Rattle.text.specs.Lines.{fields};
ghost use Rattle.text.specs.Readers.{field};
ghost use Rattle.text.specs.Cursors.{part, num_read};
ghost use Rattle.text.specs.Runs.{pushed, digits_left};

use crate::Cursor;
use crate::bytes::digit;
use crate::scan::{behind, byte, stop};

// v with one more digit, if the number stays at most max.
pub fn push(v: u64, b: u64, max: u64) -> Option<u64>
    ensures { result ≡ pushed v b max }
{
    if b < 48 || 57 < b || max / 10 < v {
        return None;
    }
    let d = b - 48;
    let t = v * 10;
    if max - t < d { None } else { Some(t + d) }
}

// The number of the digits from a place up to the field's end. By a while, since the cursor goes on where it ends.
pub fn digits(s: &[u8], at: usize, end: usize, max: u64) -> Option<(u64, Cursor)>
    ensures { num_read s.now result ≡ digits_left max 0 (part s.now at end) }
{
    let stop = stop(s, end);
    let mut i = at;
    let mut v: u64 = 0;
    while i < stop {
        let b = u64::from(s[i]);
        if b == 9 {
            return Some((v, Cursor::line(i + 1, end)));
        }
        v = push(v, b, max)?;
        i += 1;
    }
    Some((v, Cursor::ended(i, end)))
}

// The number of the field from a place on: no empty field, no leading zero.
pub fn number_at(s: &[u8], at: usize, end: usize, max: u64) -> Option<(u64, Cursor)>
    ensures { num_read s.now result ≡ field (number max) (fields (part s.now at end)) }
{
    let b = byte(s, at, end);
    if !digit(b) {
        return None;
    }
    if b != 48 {
        return digits(s, at, end, max);
    }
    let rest = behind(s, at + 1, end)?;
    Some((0, rest))
}
