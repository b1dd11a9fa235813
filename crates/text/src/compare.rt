// Comparing texts by their bytes: whole slices, and parts of them that are given by a place and a length.
ghost use Rattle.std.specs.Prelude.{◌≡◌, ◌+◌, ◌≤◌, ◌<◌, length, get_or, take, drop};
ghost use Rattle.text.specs.Bytes.{same_bytes};
ghost use Rattle.text.specs.Compare.{fours, four_of, DifferFour, order_of};

use crate::scan::stop;
use std::cmp::Ordering;

// ---- four bytes

// Four bytes as one number, which the compiler makes one load. The first has the most weight.
pub fn four(s: &[u8], i: usize) -> u64
    requires { i + 4 ≤ length s.now }
    ensures value { result ≡ four_of (get_or s.now i 0) (get_or s.now (i + 1) 0) (get_or s.now (i + 2) 0) (get_or s.now (i + 3) 0) }
    ensures upper_bound { result < fours }
{
    let a = u64::from(s[i]);
    let b = u64::from(s[i + 1]);
    let c = u64::from(s[i + 2]);
    let d = u64::from(s[i + 3]);
    a * 16_777_216 + b * 65_536 + c * 256 + d
}

// Whether two texts differ in the four bytes from a place on.
fn differ_four(a: &[u8], b: &[u8], i: usize) -> bool
    requires { (i + 4 ≤ length a.now) × (i + 4 ≤ length b.now) }
    ensures { DifferFour a.now b.now i result }
{
    four(a, i) != four(b, i)
}

// ---- whole texts

// Fewer than four bytes: the first, the middle and the last are all of them.
fn same_short(a: &[u8], b: &[u8]) -> bool
    requires { (length a.now ≡ length b.now) × (length a.now < 4) }
    ensures { result ≡ same_bytes a.now b.now }
{
    let n = a.len();
    n == 0 || (a[0] == b[0] && a[n / 2] == b[n / 2] && a[n - 1] == b[n - 1])
}

// Texts of one length: the last four bytes first, then four bytes a turn from the front, up to those.
fn same_bytes(a: &[u8], b: &[u8]) -> bool
    requires { length a.now ≡ length b.now }
    ensures { result ≡ same_bytes a.now b.now }
{
    let n = a.len();
    if n < 4 {
        return same_short(a, b);
    }
    let last = n - 4;
    if differ_four(a, b, last) {
        return false;
    }
    for i in (0..last).step_by(4) {
        if differ_four(a, b, i) {
            return false;
        }
    }
    true
}

// The length and the last byte tell most names apart, also those that begin alike.
pub fn same(a: &[u8], b: &[u8]) -> bool
    ensures { result ≡ same_bytes a.now b.now }
{
    let n = a.len();
    n == b.len() && (n == 0 || (a[n - 1] == b[n - 1] && same_bytes(a, b)))
}

// Four bytes a turn, whose numbers are in the order of the bytes, while both have four. By a while, since what is left begins where it ends.
pub fn order(a: &[u8], b: &[u8]) -> Ordering
    ensures { result ≡ order_of a.now b.now }
{
    let n = stop(a, b.len());
    let mut i: usize = 0;
    while 4 <= n - i {
        let x = four(a, i);
        let y = four(b, i);
        if x < y {
            return Ordering::Less;
        }
        if y < x {
            return Ordering::Greater;
        }
        i += 4;
    }
    a[i..].cmp(&b[i..])
}

// ---- parts

// n bytes from a place, or as many as there are.
pub fn span(s: &[u8], at: usize, n: usize) -> &[u8]
    ensures { result.now ≡ take n (drop at s.now) }
{
    let from = at.min(s.len());
    let end = from + n.min(s.len() - from);
    &s[from..end]
}

// The lengths come first, so that parts of different lengths are told apart without a call.
pub fn same_across(s: &[u8], a: usize, an: usize, t: &[u8], b: usize, bn: usize) -> bool
    ensures { result ≡ same_bytes (take an (drop a s.now)) (take bn (drop b t.now)) }
{
    let x = span(s, a, an);
    let y = span(t, b, bn);
    x.len() == y.len() && same(x, y)
}

pub fn same_part(s: &[u8], a: usize, an: usize, b: usize, bn: usize) -> bool
    ensures { result ≡ same_bytes (take an (drop a s.now)) (take bn (drop b s.now)) }
{
    same_across(s, a, an, s, b, bn)
}

pub fn compare_part(s: &[u8], a: usize, an: usize, b: usize, bn: usize) -> Ordering
    ensures { result ≡ order_of (take an (drop a s.now)) (take bn (drop b s.now)) }
{
    order(span(s, a, an), span(s, b, bn))
}

// Whether w stands at a place.
pub fn starts(s: &[u8], at: usize, w: &[u8]) -> bool
    ensures { result ≡ same_bytes (take (length w.now) (drop at s.now)) w.now }
{
    same(span(s, at, w.len()), w)
}
