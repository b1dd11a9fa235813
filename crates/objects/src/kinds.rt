// The kinds that code asks for by their numbers: the first word of a type's row, in the order of `Type` (`kind_number`, specs/Table.antt).

pub const SLICE: u32 = 2;

pub const POINTER: u32 = 3;

pub const CHAN: u32 = 5;

pub const TUPLE: u32 = 6;

pub const FUNC: u32 = 7;

pub const STRUCT: u32 = 8;

pub const IFACE: u32 = 9;

pub const NAMED: u32 = 10;
