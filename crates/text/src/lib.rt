// The text of a table: its lines, the fields of a line, and what the bytes of a field say. A cursor goes through the fields of one line and hands itself
// on; every reader of it is a reader by fields (specs/Readers.antt).
#![tactic(auto)]

pub mod bytes;
pub mod compare;
pub mod hash;
pub mod numbers;
pub mod scan;

ghost use Rattle.std.specs.Prelude.{◌≡◌, not, true, false};
ghost use Rattle.std.proofs.Math.Option.{some};
ghost use Rattle.objects.specs.Lists.{when};
ghost use Rattle.text.specs.Bytes.{is_name, is_path, is_tag, number};
ghost use Rattle.text.specs.Readers.{field};
ghost use Rattle.text.specs.Cursors.{fields_left, part_read, num_read, past_read, exactly};
ghost use Rattle.text.specs.Runs.{closed_at, Exact};

use objects::bounds::{MAX_NAME, MAX_PATH, MAX_TAG};

// What is left of a line: its bytes from `at` up to `end`, if there are fields left at all.
#[derive(Clone, Copy)]
pub struct Cursor {
    pub at: usize,
    pub end: usize,
    pub more: bool,
}

// A field's bytes, from one place up to another, and the cursor behind it.
#[derive(Clone, Copy)]
pub struct Part {
    pub from: usize,
    pub to: usize,
    pub rest: Cursor,
}

impl Cursor {
    // All of the line whose bytes go from one place up to another.
    pub fn line(from: usize, end: usize) -> Cursor
        ensures { result ≡ record { at = from; end = end; more = true } }
    {
        Cursor {
            at: from,
            end,
            more: true,
        }
    }

    // Behind the last field of a line.
    pub fn ended(at: usize, end: usize) -> Cursor
        ensures { result ≡ record { at = at; end = end; more = false } }
    {
        Cursor {
            at,
            end,
            more: false,
        }
    }

    // Whether no field is left.
    pub fn done(self) -> bool
        ensures { result ≡ not self.more }
    {
        !self.more
    }

    pub fn field(self, s: &[u8]) -> Option<Part>
        ensures result_value { part_read s.now result ≡ field some (fields_left s.now self) }
        ensures exact { Exact s.now result }
    {
        if !self.more {
            return None;
        }
        let to = scan::until(s, self.at, self.end, 9);
        let rest = scan::behind(s, to, self.end)?;
        Some(Part {
            from: self.at,
            to,
            rest,
        })
    }

    pub fn number(self, s: &[u8], max: u64) -> Option<(u64, Cursor)>
        ensures { num_read s.now result ≡ field (number max) (fields_left s.now self) }
    {
        if !self.more {
            return None;
        }
        numbers::number_at(s, self.at, self.end, max)
    }

    // The next field, if it ends at `to` and has 1 to max bytes.
    fn closed(self, s: &[u8], to: usize, max: usize) -> Option<Part>
        ensures { result ≡ closed_at s.now self to max }
    {
        if !self.more || to <= self.at || max < to - self.at {
            return None;
        }
        let rest = scan::behind(s, to, self.end)?;
        Some(Part {
            from: self.at,
            to,
            rest,
        })
    }

    pub fn name(self, s: &[u8]) -> Option<Part>
        ensures result_value { part_read s.now result ≡ field (λ b. when (is_name b) b) (fields_left s.now self) }
        ensures exact { Exact s.now result }
    {
        let stop = scan::name_end(s, self.at, self.end);
        let p = self.closed(s, stop, MAX_NAME)?;
        if bytes::digit(u64::from(s[p.from])) {
            None
        } else {
            Some(p)
        }
    }

    pub fn path(self, s: &[u8]) -> Option<Part>
        ensures result_value { part_read s.now result ≡ field (λ b. when (is_path b) b) (fields_left s.now self) }
        ensures exact { Exact s.now result }
    {
        let stop = scan::plain_end(s, self.at, self.end, 33);
        let p = self.closed(s, stop, MAX_PATH)?;
        if scan::blank(s, p.from, p.to) {
            None
        } else {
            Some(p)
        }
    }

    pub fn tag(self, s: &[u8]) -> Option<Part>
        ensures result_value { part_read s.now result ≡ field (λ b. when (is_tag b) b) (fields_left s.now self) }
        ensures exact { Exact s.now result }
    {
        let stop = scan::plain_end(s, self.at, self.end, 32);
        self.closed(s, stop, MAX_TAG)
    }

    // The fixed word w, which must be the whole field.
    pub fn word(self, s: &[u8], w: &[u8]) -> Option<Cursor>
        ensures { past_read s.now result ≡ exactly w.now (fields_left s.now self) }
    {
        if !self.more {
            return None;
        }
        scan::word_at(s, self.at, self.end, w)
    }
}
