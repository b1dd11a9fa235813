// The list of methods of an interface, read off the rows from position to position, in the order of the list. No caller knows where in the rows a method of a
// list stands: a list is read in a loop from `first_position` by `next_position` below `positions_end`, and a place in the list is how many were read before.
#![tactic(auto)]

ghost use Rattle.std.specs.Prelude.{◌≡◌, ◌<◌};
ghost use Rattle.objects.specs.Rows.{type_count};
ghost use Rattle.objects.specs.Types.{first_read};
ghost use Rattle.objects.specs.Laid.{Laid};
ghost use Rattle.method_lists.specs.Positions.{first_position, positions_end, next_position, method_at};

use objects::rows::{first_member, member_total};
use objects::{ObjKey, TypeKey};

// Where the list of i begins.
pub fn first_position(rows: &[u32], i: TypeKey) -> u32
    ensures { result ≡ first_position rows.now i }
{
    0
}

// Behind the last of its positions.
pub fn positions_end(rows: &[u32], i: TypeKey) -> u32
    ensures { result ≡ positions_end rows.now i }
{
    member_total(rows, i)
}

// The position of the next method.
pub fn next_position(rows: &[u32], i: TypeKey, at: u32) -> u32
    requires { Laid rows.now × (i.0 < type_count rows.now) × (at < positions_end rows.now i) }
    ensures { result ≡ next_position rows.now i at }
{
    at + 1
}

// The method at a position, where the first of the interface's members was read before, for a loop.
pub fn method_in(rows: &[u32], i: TypeKey, first: u32, at: u32) -> ObjKey
    requires first_value { first ≡ first_read rows.now i }
    requires laid { Laid rows.now × (i.0 < type_count rows.now) × (at < positions_end rows.now i) }
    ensures { result ≡ method_at rows.now i at }
{
    ObjKey(first + at)
}

// The method at a position.
pub fn method_at(rows: &[u32], i: TypeKey, at: u32) -> ObjKey
    requires { Laid rows.now × (i.0 < type_count rows.now) × (at < positions_end rows.now i) }
    ensures { result ≡ method_at rows.now i at }
{
    method_in(rows, i, first_member(rows, i), at)
}
