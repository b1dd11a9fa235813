// What typeask reads, by its lines: where the table ends, and where each question does.
#![tactic(auto)]

ghost use Rattle.std.specs.Prelude.{◌≡◌, ◌≤◌, length};
ghost use Rattle.text.specs.Bytes.{ascii, same_bytes};
ghost use Rattle.input.specs.Parts.{Splits, Follows};

use text::compare::same;
use text::scan::line_end;

// Whether a line is exactly `Q`.
fn is_q(line: &[u8]) -> bool
    ensures { result ≡ same_bytes line.now (ascii "Q") }
{
    same(line, b"Q")
}

// Where the table ends, and where the questions begin: the first line that is exactly `Q` and has its newline parts them. With none all of the input is the table.
pub fn split(input: &[u8]) -> Option<(usize, usize)>
    ensures { Splits input.now result }
{
    let mut at: usize = 0;
    // A loop, since the place moves by a line.
    loop {
        let end = line_end(input, at);
        if end == input.len() {
            return None;
        }
        if is_q(&input[at..end]) {
            return Some((at, end + 1));
        }
        at = end + 1;
    }
}

// Where the question that begins at a place ends, and where those behind it begin; none if no question is left. The last one may lack its newline.
pub fn next_question(input: &[u8], at: usize) -> Option<(usize, usize)>
    requires { at ≤ length input.now }
    ensures { Follows input.now at result }
{
    let end = line_end(input, at);
    if end < input.len() {
        return Some((end, end + 1));
    }
    if at < end {
        return Some((end, end));
    }
    None
}
