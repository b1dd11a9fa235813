// The basic types by their numbers, in goscript's order.
ghost use Rattle.std.specs.Prelude.{◌≡◌};
ghost use Rattle.rules.specs.Identity.{real_type};

// "`T basic k` (0 to 27, the order of `BasicType`)"
#[derive(Clone, Copy, PartialEq, Eq)]
pub struct BasicType(pub u32);

impl BasicType {
    pub const INVALID: BasicType = BasicType(0);
    // predeclared types
    pub const BOOL: BasicType = BasicType(1);

    pub const INT: BasicType = BasicType(2);

    pub const INT8: BasicType = BasicType(3);

    pub const INT16: BasicType = BasicType(4);

    pub const INT32: BasicType = BasicType(5);

    pub const INT64: BasicType = BasicType(6);

    pub const UINT: BasicType = BasicType(7);

    pub const UINT8: BasicType = BasicType(8);

    pub const UINT16: BasicType = BasicType(9);

    pub const UINT32: BasicType = BasicType(10);

    pub const UINT64: BasicType = BasicType(11);

    pub const UINTPTR: BasicType = BasicType(12);

    pub const FLOAT32: BasicType = BasicType(13);

    pub const FLOAT64: BasicType = BasicType(14);

    pub const COMPLEX64: BasicType = BasicType(15);

    pub const COMPLEX128: BasicType = BasicType(16);

    pub const STR: BasicType = BasicType(17);

    pub const UNSAFE_POINTER: BasicType = BasicType(18);
    // types for untyped values
    pub const UNTYPED_BOOL: BasicType = BasicType(19);

    pub const UNTYPED_INT: BasicType = BasicType(20);

    pub const UNTYPED_RUNE: BasicType = BasicType(21);

    pub const UNTYPED_FLOAT: BasicType = BasicType(22);

    pub const UNTYPED_COMPLEX: BasicType = BasicType(23);

    pub const UNTYPED_STRING: BasicType = BasicType(24);

    pub const UNTYPED_NIL: BasicType = BasicType(25);
    // aliases
    pub const BYTE: BasicType = BasicType(26);

    pub const RUNE: BasicType = BasicType(27);

    // "Byte is Uint8, Rune is Int32"
    pub fn real_type(self) -> BasicType
        ensures { result.0 ≡ real_type self.0 }
    {
        if self == BasicType::BYTE {
            return BasicType::UINT8;
        }
        if self == BasicType::RUNE {
            return BasicType::INT32;
        }
        self
    }
}
