// Whether a type contains itself by value: types are met once, in a queue, and each is looked at in turn.
ghost use Rattle.std.specs.Prelude.{◌<◌, ◌≤◌, length};
ghost use Rattle.objects.specs.Bounds.{max_types};
ghost use Rattle.objects.specs.Rows.{type_count};
ghost use Rattle.objects.specs.Laid.{Laid};
ghost use Rattle.cycles.specs.Contents.{content_total, Within, Back};
ghost use Rattle.cycles.specs.Ranking.{Ranks};
ghost use Rattle.cycles.specs.Search.{Decides, Queued, Pushed, Meets, Searched};
ghost use Rattle.cycles.specs.Contained.{Finds};

use crate::contents::{content, content_total};
use crate::ranks::rank;
use objects::TypeKey;
use objects::bounds::MAX_TYPES;
use objects::rows::{type_count, type_word, word};

// A type that was not met is marked and goes to the end of the queue. Answers the new end.
fn push(marks: &mut [u32], queue: &mut [u32], end: usize, e: TypeKey) -> usize
    requires { (max_types ≤ length marks.old) × (max_types ≤ length queue.old) × (e.0 < max_types) × Queued marks.old queue.old end }
    ensures { Pushed e.0 marks.old queue.old end marks.new queue.new result }
{
    let x = e.0;
    if word(marks, x as usize) == 0 {
        marks[x as usize] = 1;
        queue[end] = x;
        end + 1
    } else {
        end
    }
}

// All that x contains is met.
fn meet(rows: &[u32], marks: &mut [u32], queue: &mut [u32], end: usize, x: TypeKey) -> usize
    requires { (max_types ≤ length marks.old) × (max_types ≤ length queue.old) × Laid rows.now × Within rows.now × (x.0 < type_count rows.now) × Queued marks.old queue.old end }
    ensures { Meets rows.now x (content_total rows.now x) marks.old queue.old end marks.new queue.new result }
{
    let mut after = end;
    for i in 0..content_total(rows, x) {
        let e = content(rows, x, i);
        after = push(marks, queue, after, e);
    }
    after
}

// Looks at what is in the queue, in order, until t is met or nothing is left. Each turn takes one type, and none is taken twice.
fn look(rows: &[u32], marks: &mut [u32], queue: &mut [u32], start: usize, t: TypeKey) -> bool
    requires { (max_types ≤ length marks.old) × (max_types ≤ length queue.old) × Laid rows.now × Within rows.now × Searched rows.now t marks.old queue.old start 0 }
    ensures { Decides (Back rows.now t) result }
{
    let mut end = start;
    let mut done: usize = 0;
    // a `while`, since the queue grows on the way
    while done < end {
        let x = word(queue, done);
        if x == t.0 {
            return true;
        }
        end = meet(rows, marks, queue, end, TypeKey(x));
        done += 1;
    }
    false
}

// Whether a chain leads from what t contains back to t.
fn leads_back(rows: &[u32], t: TypeKey) -> bool
    requires { Laid rows.now × Within rows.now × (t.0 < type_count rows.now) }
    ensures { Decides (Back rows.now t) result }
{
    let mut marks = [0u32; MAX_TYPES];
    let mut queue = [0u32; MAX_TYPES];
    let end = meet(rows, &mut marks, &mut queue, 0, t);
    look(rows, &mut marks, &mut queue, end, t)
}

// A type with a rank does not contain itself.
fn on_cycle(rows: &[u32], t: TypeKey) -> bool
    requires { Ranks rows.now × (t.0 < type_count rows.now) }
    ensures { Decides (Back rows.now t) result }
{
    rank(rows, t) == 0 && leads_back(rows, t)
}

// The line of the least type that contains itself. A search is linear in the contents, and only a type without rank asks for one: in the worst case, where
// nearly all types merely lead to a cycle, the whole is quadratic.
pub fn first_back(rows: &[u32]) -> Option<u32>
    requires { Ranks rows.now }
    ensures { Finds rows.now result }
{
    for t in 0..type_count(rows) {
        let k = TypeKey(t);
        if on_cycle(rows, k) {
            return Some(type_word(rows, k, 6));
        }
    }
    None
}
