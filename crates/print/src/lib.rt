// Writes answer lines into a buffer: each is a word and decimal numbers. A function that writes takes the place to write at and answers the place
// behind what it wrote; there must be room.
#![tactic(auto)]

ghost use Rattle.std.specs.Prelude.{◌≡◌, ◌∷◌, ◌+◌, ◌≤◌, length, take};
ghost use Rattle.text.specs.Bytes.{decimal};
ghost use Rattle.print.specs.Written.{max_word, max_fields, number_line, line_end, Wrote};

pub fn decimal_length(n: u32) -> usize
    ensures { result ≡ length (decimal n) }
{
    let mut count: usize = 1;
    let mut rest = n;
    while 10 <= rest {
        rest /= 10;
        count += 1;
    }
    count
}

// The length of the line of the word and the first n numbers.
pub fn line_length(word: &[u8], ns: &[u32], n: usize) -> usize
    requires { (length word.now ≤ max_word) × (n ≤ max_fields) × (n ≤ length ns.now) }
    ensures { result ≡ length (number_line word.now (take n ns.now)) }
{
    let mut total = word.len() + 1;
    for x in &ns[..n] {
        let digits = decimal_length(*x);
        total += 1 + digits;
    }
    total
}

pub fn put_word(out: &mut [u8], at: usize, w: &[u8]) -> usize
    requires { at + length w.now ≤ length out.old }
    ensures { Wrote out.old at w.now out.new result }
{
    // Byte by byte: a copy of a whole slice is a call of memmove, and the archive asks no host for that.
    for j in 0..w.len() {
        out[at + j] = w[j];
    }
    at + w.len()
}

// The digits are found last first, so they fill an array from its end. By hand, since `write!` goes to a String or a writer, and the library has no heap.
pub fn put_decimal(out: &mut [u8], at: usize, n: u32) -> usize
    requires { at + length (decimal n) ≤ length out.old }
    ensures { Wrote out.old at (decimal n) out.new result }
{
    let mut text = [0u8; 20];
    let mut i: usize = 20;
    let mut rest = n;
    while 0 < i {
        i -= 1;
        if rest < 10 {
            text[i] = glyph(rest);
            return put_word(out, at, &text[i..]);
        }
        text[i] = glyph(rest % 10);
        rest /= 10;
    }
    put_word(out, at, &text)
}

// A tab and a number.
pub fn put_field(out: &mut [u8], at: usize, n: u32) -> usize
    requires { at + length (9 ∷ decimal n) ≤ length out.old }
    ensures { Wrote out.old at (9 ∷ decimal n) out.new result }
{
    out[at] = 9;
    put_decimal(out, at + 1, n)
}

// What stands behind the word in the line of the numbers.
fn put_fields(out: &mut [u8], at: usize, ns: &[u32]) -> usize
    requires { at + length (line_end ns.now) ≤ length out.old }
    ensures { Wrote out.old at (line_end ns.now) out.new result }
{
    let mut i = at;
    for x in ns {
        i = put_field(out, i, *x);
    }
    out[i] = 10;
    i + 1
}

// The line of the word and the first n numbers.
pub fn put_line(out: &mut [u8], at: usize, word: &[u8], ns: &[u32], n: usize) -> usize
    requires { (n ≤ length ns.now) × (at + length (number_line word.now (take n ns.now)) ≤ length out.old) }
    ensures { Wrote out.old at (number_line word.now (take n ns.now)) out.new result }
{
    let i = put_word(out, at, word);
    put_fields(out, i, &ns[..n])
}

// The digit of a number below ten.
fn glyph(d: u32) -> u8
    requires { d ≤ 9 }
    ensures { result ≡ 48 + d }
{
    b'0' + d as u8
}
