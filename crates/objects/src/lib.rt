// The keys of a type table, as goscript's objects.rs has them, the direction of a channel, what a type's row says, and why a table or a question is refused. A
// type number, a member number and a package number are each a kind of their own, so that none is read as another.
#![tactic(auto)]

pub mod bounds; // the numbers that bound a table
pub mod kinds; // the numbers of kinds
pub mod refusals; // why something is refused
pub mod rows; // the readers of a loaded table
pub mod writers; // what adds a line to it

#[derive(Clone, Copy, PartialEq, Eq)]
pub struct TypeKey(pub u32);

#[derive(Clone, Copy, PartialEq, Eq)]
pub struct ObjKey(pub u32);

// "pkg is a number or `-` for none": a member's package is an Option of it.
#[derive(Clone, Copy, PartialEq, Eq)]
pub struct PackageKey(pub u32);

// "A channel carries its direction d: 0 both ways, 1 send only, 2 receive only."
#[derive(Clone, Copy, PartialEq, Eq)]
pub enum Dir {
    Both,
    Send,
    Receive,
}

// The eleven kinds, in the order of document 01. Members and elements of a tuple are said by the first and their count.
#[derive(Clone, Copy)]
pub enum Type {
    Basic(u32),
    Array(u32, TypeKey),
    Slice(TypeKey),
    Pointer(TypeKey),
    Map(TypeKey, TypeKey),
    Chan(Dir, TypeKey),
    Tuple(u32, u32),
    Func(bool, TypeKey, TypeKey),
    Struct(u32, u32),
    Iface(u32, u32),
    Named(TypeKey, u32, u32),
}
