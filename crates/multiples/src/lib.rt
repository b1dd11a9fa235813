// Level records: "`consolidate_multiples` works over a lent row of embedded-type records". What a search by levels keeps of a type that a level reaches, and
// the mark on the first of two records of one type.
#![tactic(auto)]

ghost use Rattle.std.specs.Prelude.{◌≡◌};
ghost use Rattle.multiples.specs.Records.{consolidated};

use objects::bounds::MAX_TYPES;
use objects::{ObjKey, TypeKey};

// The most records that a search is lent: two for each type.
pub const MAX_RECORDS: usize = 2 * MAX_TYPES;

// goscript's EmbeddedType: what a search by levels keeps of a type that a level reaches.
#[derive(Clone, Copy, PartialEq, Eq)]
pub struct EmbeddedType {
    pub typ: TypeKey,
    // the record that it was reached from
    pub parent: u32,
    // the place of the embedded field there
    pub place: u32,
    // 1 if a pointer was removed on the way; a word, since any record may be lent
    pub indirect: u32,
    // 1 if the level has another record of the type, further on; a word too
    pub multiples: u32,
    // the member that the embedded field is
    pub key: ObjKey,
    // how many steps lead to it
    pub level: u32,
    // of record k: the number of type k's first record and one, 0 for none
    pub first: u32,
}

impl EmbeddedType {
    // What a row of records is filled with before a search.
    pub const EMPTY: EmbeddedType = EmbeddedType {
        typ: TypeKey(0),
        parent: 0,
        place: 0,
        indirect: 0,
        multiples: 0,
        key: ObjKey(0),
        level: 0,
        first: 0,
    };
}

// Another walk of the level comes to type t: its first record is marked.
pub fn consolidate_multiples(level: &mut [EmbeddedType], t: TypeKey)
    ensures { level.new ≡ consolidated level.old t }
{
    for r in level.iter_mut() {
        if r.typ == t {
            r.multiples = 1;
            return;
        }
    }
}
