// Marks for names (specs/Marks.antt): two bits are set where a name was met, so that a name that lacks one of them is new and need not be compared.
ghost use Rattle.std.specs.Prelude.{◌≡◌, false, ◌≢◌, ◌+◌, ◌/◌, ◌<◌, ◌≤◌, length};
ghost use Rattle.objects.specs.Bounds.{max_elements};
ghost use Rattle.objects.specs.Rows.{members_from};
ghost use Rattle.text.specs.Hash.{hashes};
ghost use Rattle.clashes.specs.Marks.{numbers, fields_number, all_marks, bit_words, place_of, high_place, low_place, bit_at, MarkedAt, Grows, Met, Noted};

use objects::ObjKey;
use objects::bounds::MAX_TYPES;
use objects::rows::word;
use text::hash::{HASHES, name_hash};

// Marks of one half, hashes to a mark, and the words of both halves.
const HALF: u64 = 16_384;

const SPREAD: u64 = HASHES / HALF;

pub const BIT_WORDS: usize = 2 * HALF as usize / 32;

// A type's own names are marked under its number, the fields of a struct under a number further on.
const FIELDS_FROM: u32 = MAX_TYPES as u32;

// ---- places

// The number under which the fields of a struct are marked.
pub fn fields_number(u: u32) -> u32
    ensures value { result ≡ fields_number u }
    ensures upper_bound { result < numbers }
{
    FIELDS_FROM + u % FIELDS_FROM
}

// The place of a hash under a number.
pub fn place(k: u32, h: u64) -> u64
    requires { (k < numbers) × (h < hashes) }
    ensures value { result ≡ place_of k h }
    ensures upper_bound { result < hashes }
{
    (h + k as u64 * 2_654_435) * 69_069 % HASHES
}

fn high(p: u64) -> usize
    requires { p < hashes }
    ensures value { result ≡ high_place p }
    ensures upper_bound { result < all_marks }
{
    (p / SPREAD) as usize
}

fn low(p: u64) -> usize
    requires { p < hashes }
    ensures value { result ≡ low_place p }
    ensures upper_bound { result < all_marks }
{
    (HALF + (p + p / 65_536) % HALF) as usize
}

// ---- marks

// The mark at a place, a bit of its word: 0 until it is set.
fn bit(marks: &[u32], i: usize) -> u32
    ensures { result ≡ bit_at marks.now i }
{
    (word(marks, i / 32) >> (i % 32)) % 2
}

// Sets that mark. The others of the word stay, and it stays if it was set.
fn set_bit(marks: &mut [u32], i: usize)
    requires { i / 32 < length marks.old }
    ensures { Grows marks.old marks.new × (bit_at marks.new i ≢ 0) }
{
    marks[i / 32] |= 1u32 << (i % 32);
}

// Whether the place has its two marks.
pub fn marked(marks: &[u32], p: u64) -> bool
    requires { p < hashes }
    ensures { result ≡ false → MarkedAt marks.now p → ⊥ }
{
    bit(marks, high(p)) != 0 && bit(marks, low(p)) != 0
}

fn mark(marks: &mut [u32], p: u64)
    requires { (bit_words ≤ length marks.old) × (p < hashes) }
    ensures { Grows marks.old marks.new × MarkedAt marks.new p }
{
    set_bit(marks, high(p));
    set_bit(marks, low(p));
}

// The place is marked. Answers whether it was before.
pub fn meet(marks: &mut [u32], p: u64) -> bool
    requires { (bit_words ≤ length marks.old) × (p < hashes) }
    ensures { Met marks.old p marks.new result }
{
    let before = marked(marks, p);
    mark(marks, p);
    before
}

// The names of n members from a first one on are marked under a number.
pub fn meet_all(text: &[u8], rows: &[u32], marks: &mut [u32], k: u32, first: u32, n: u32)
    requires { (bit_words ≤ length marks.old) × (k < numbers) × (first + n ≤ max_elements) }
    ensures { Noted marks.old k (members_from text.now rows.now first n) marks.new }
{
    for i in 0..n {
        let h = name_hash(text, rows, ObjKey(first + i));
        let _ = meet(marks, place(k, h));
    }
}
