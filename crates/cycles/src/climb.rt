// Ranks given to contents first: from a type down to those of its contents that have none, and back. Each type is gone through once. What is left without a
// rank is not looked at here; the passes (src/ranks.rt) find it.
ghost use Rattle.std.specs.Prelude.{◌<◌, ◌≤◌, length};
ghost use Rattle.objects.specs.Bounds.{max_types};
ghost use Rattle.objects.specs.Rows.{type_count};
ghost use Rattle.objects.specs.Laid.{Laid};
ghost use Rattle.cycles.specs.Ranking.{Ranking, Advanced};
ghost use Rattle.cycles.specs.Climb.{climb_words};

use crate::contents::content;
use crate::ranks::{first_waiting, give, rank};
use objects::TypeKey;
use objects::bounds::{MAX_MEMBERS, MAX_TYPES};
use objects::rows::{type_count, word};

// The scratch words: for each type whether it was met, then for each how many of its contents were looked at, then the types on the way from the first.
const LOOKED_AT: usize = MAX_TYPES;

const WAY_AT: usize = LOOKED_AT + MAX_TYPES;

const CLIMB_WORDS: usize = WAY_AT + MAX_TYPES;

// More than there are types, and contents of types: those that are no members are fewer than the types.
const MAX_STEPS: u32 = (2 * MAX_TYPES + MAX_MEMBERS) as u32;

// How long the way is, and the next rank.
#[derive(Clone, Copy)]
pub struct Climb {
    pub top: usize,
    pub next: u32,
}

// The way goes on to e, unless e was met.
fn push(scratch: &mut [u32], top: usize, e: TypeKey) -> usize
    requires { (climb_words ≤ length scratch.old) × (top ≤ max_types) }
    ensures { result ≤ max_types }
{
    let x = e.0 as usize;
    if MAX_TYPES <= x || MAX_TYPES <= top || scratch[x] != 0 {
        return top;
    }
    scratch[x] = 1;
    scratch[WAY_AT + top] = e.0;
    top + 1
}

// The last type of the way: the way goes on to its next content without rank, or, where there is none, the type gets a rank and the way goes back.
fn visit(rows: &mut [u32], scratch: &mut [u32], top: usize, next: u32, t: TypeKey) -> Climb
    requires { Ranking rows.old next × (t.0 < type_count rows.old) × (climb_words ≤ length scratch.old) × (0 < top) × (top ≤ max_types) }
    ensures advanced { Advanced rows.old rows.new result.next }
    ensures top_le_max_types { result.top ≤ max_types }
{
    let at = LOOKED_AT + t.0 as usize;
    match first_waiting(rows, t, scratch[at]) {
        Some(i) => {
            scratch[at] = i + 1;
            Climb {
                top: push(scratch, top, content(rows, t, i)),
                next,
            }
        }
        None => Climb {
            top: top - 1,
            next: give(rows, next, t),
        },
    }
}

fn step(rows: &mut [u32], scratch: &mut [u32], top: usize, next: u32) -> Climb
    requires { Ranking rows.old next × (climb_words ≤ length scratch.old) × (0 < top) × (top ≤ max_types) }
    ensures advanced { Advanced rows.old rows.new result.next }
    ensures top_le_max_types { result.top ≤ max_types }
{
    let x = word(scratch, WAY_AT + (top - 1));
    if x < type_count(rows) {
        visit(rows, scratch, top, next, TypeKey(x))
    } else {
        Climb { top: top - 1, next }
    }
}

// From a type on, unless it was met.
fn climb_from(rows: &mut [u32], scratch: &mut [u32], next: u32, t: TypeKey) -> u32
    requires { Ranking rows.old next × (climb_words ≤ length scratch.old) }
    ensures { Advanced rows.old rows.new result }
{
    let mut after = next;
    let mut top = push(scratch, 0, t);
    for _ in 0..MAX_STEPS {
        if top == 0 {
            return after;
        }
        let c = step(rows, scratch, top, after);
        top = c.top;
        after = c.next;
    }
    after
}

fn climb_new(rows: &mut [u32], scratch: &mut [u32], next: u32, t: TypeKey) -> u32
    requires { Ranking rows.old next × (climb_words ≤ length scratch.old) }
    ensures { Advanced rows.old rows.new result }
{
    if rank(rows, t) == 0 {
        climb_from(rows, scratch, next, t)
    } else {
        next
    }
}

fn climb_all(rows: &mut [u32], scratch: &mut [u32], next: u32) -> u32
    requires { Ranking rows.old next × (climb_words ≤ length scratch.old) }
    ensures { Advanced rows.old rows.new result }
{
    let mut after = next;
    for t in 0..type_count(rows) {
        after = climb_new(rows, scratch, after, TypeKey(t));
    }
    after
}

// The types that have no rank yet.
pub fn rest(rows: &mut [u32], next: u32) -> u32
    requires { Ranking rows.old next }
    ensures { Advanced rows.old rows.new result }
{
    let mut scratch = [0u32; CLIMB_WORDS];
    climb_all(rows, &mut scratch, next)
}
