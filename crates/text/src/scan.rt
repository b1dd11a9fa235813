// One pass over a line's bytes: where a run of them ends, and what stands there. No byte at or past `end` changes what is found, and none past the text
// is read.
ghost use Rattle.std.specs.Prelude.{◌≡◌, ◌+◌, ◌≤◌, ℕ, Bool, length};
ghost use Rattle.text.specs.Bytes.{between, is_name_byte, is_blank};
ghost use Rattle.text.specs.Lines.{fields};
ghost use Rattle.text.specs.Cursors.{part, line_end, past_read, exactly};
ghost use Rattle.text.specs.Runs.{other, run_end, Tells, Met, Ended, EndsAt, stop_at, byte_in, past_tab};

use crate::Cursor;
use crate::bytes::{name_byte, within};

// An end that lies within the text.
pub fn stop(s: &[u8], end: usize) -> usize
    ensures { result ≡ stop_at s.now end }
{
    end.min(s.len())
}

// The byte at a place, and 256 where none is left.
pub fn byte(s: &[u8], at: usize, end: usize) -> u64
    ensures { result ≡ byte_in s.now at end }
{
    if at < stop(s, end) {
        u64::from(s[at])
    } else {
        256
    }
}

// Where the bytes that pass a test end, from a place up to an end. By a while, since the answer is where it ends, also behind the end.
fn run<F: Fn(u64) -> bool>(s: &[u8], at: usize, end: usize, passes: F) -> usize
    requires { F.IsAlwaysCallable passes }
    ensures { (p : ℕ → Bool) → Tells (F.post passes) p → result ≡ run_end p s.now at end }
{
    let stop = stop(s, end);
    let mut i = at;
    while i < stop {
        if !passes(u64::from(s[i])) {
            return i;
        }
        i += 1;
    }
    i
}

// The same, if a byte that fails the test is met before some end: no end is then looked for, so that there is no range to go over.
fn run_met<F: Fn(u64) -> bool>(s: &[u8], at: usize, passes: F) -> usize
    requires callable { F.IsAlwaysCallable passes }
    requires ended { (p : ℕ → Bool) × Tells (F.post passes) p × Ended p s.now at }
    ensures { (p : ℕ → Bool) → Tells (F.post passes) p → EndsAt p s.now at result }
{
    let mut i = at;
    while passes(u64::from(s[i])) {
        i += 1;
    }
    i
}

// Whether the separator is one of eight bytes. Each of them is looked at, so that the compiler can compare all at once.
fn met_in_eight(s: &[u8], i: usize, sep: u64) -> bool
    requires { i + 8 ≤ length s.now }
    ensures { Met s.now i 8 sep result }
{
    let mut met = false;
    for k in 0..8 {
        met |= u64::from(s[i + k]) == sep;
    }
    met
}

// Where the separator stands first, or the end. Eight bytes a turn, as this is done for each byte of the text; by a while, since what is left begins where it ends.
pub fn until(s: &[u8], at: usize, end: usize, sep: u64) -> usize
    ensures { result ≡ run_end (other sep) s.now at end }
{
    let stop = stop(s, end);
    if stop <= at {
        return at;
    }
    let mut i = at;
    while 8 <= stop - i {
        if met_in_eight(s, i, sep) {
            return run_met(s, i, |b| b != sep);
        }
        i += 8;
    }
    run(s, i, end, |b| b != sep)
}

// Where the line that begins at a place ends: at its newline, or at the end of the text.
pub fn line_end(s: &[u8], from: usize) -> usize
    ensures { result ≡ line_end s.now from }
{
    until(s, from, s.len(), 10)
}

// Where the bytes of a name end. Mostly a newline stands at the end: it is none of them, so no end is looked for before it.
pub fn name_end(s: &[u8], at: usize, end: usize) -> usize
    ensures { result ≡ run_end is_name_byte s.now at end }
{
    let stop = stop(s, end);
    if at < stop && byte(s, stop, s.len()) == 10 {
        return run_met(s, at, |b| name_byte(b));
    }
    run(s, at, end, |b| name_byte(b))
}

// Where the printable bytes from `low` on end.
pub fn plain_end(s: &[u8], at: usize, end: usize, low: u64) -> usize
    ensures { result ≡ run_end (between low 126) s.now at end }
{
    run(s, at, end, |b| within(low, 126, b))
}

// The cursor behind a field that ends at `to`, if it does end there.
pub fn behind(s: &[u8], to: usize, end: usize) -> Option<Cursor>
    ensures { result ≡ past_tab s.now to end }
{
    if stop(s, end) <= to {
        return Some(Cursor::ended(to, end));
    }
    if u64::from(s[to]) == 9 {
        Some(Cursor::line(to + 1, end))
    } else {
        None
    }
}

// Whether a part is `_` alone.
pub fn blank(s: &[u8], from: usize, to: usize) -> bool
    ensures { result ≡ is_blank (part s.now from to) }
{
    let stop = stop(s, to);
    from < stop && u64::from(s[from]) == 95 && stop == from + 1
}

// The field from a place on, which must be w. A tab in w matches none.
pub fn word_at(s: &[u8], at: usize, end: usize, w: &[u8]) -> Option<Cursor>
    ensures { past_read s.now result ≡ exactly w.now (fields (part s.now at end)) }
{
    let mut i = at;
    for j in 0..w.len() {
        let b = byte(s, i, end);
        if b == 9 || b != u64::from(w[j]) {
            return None;
        }
        i += 1;
    }
    behind(s, i, end)
}
