// The numbers that bound tables, questions and answers, once for all code; specs/Bounds.antt has the same for specs and proofs. The first are the papers'.
// Whatever follows from them is written as an expression of them, so that a bound is changed here and there, and nowhere else.

// Document 01: "256 types, 64 packages, 1,024 members, 255 per type, 256 places in a way." Document 02, point 4: "Type numbers run to 511, members to 2,047, and a
// way may have 512 places".
pub const MAX_TYPES: usize = 512;

pub const MAX_PACKAGES: usize = 64;

pub const MAX_MEMBERS: usize = 2_048;

pub const MAX_PER_TYPE: usize = 255;

// A shortest way has no more places than there are types.
pub const MAX_PLACES: usize = MAX_TYPES;

// Document 01, 2: "The table has more than 32,768 bytes"; typeask: "at most 32,768 bytes in all". Document 02, point 4: "the table text may have 65,536 bytes and
// `typeask` reads that much".
pub const MAX_TEXT: usize = 65_536;

// 11: "more than 256 bytes"
pub const MAX_QUESTION: usize = 256;

// "A type or package number of more than four digits has a wrong form"
pub const MAX_REFERENCE: u32 = 9_999;

// "`T basic k` (0 to 27, the order of `BasicType`)"
pub const MAX_BASIC: u32 = 27;

// "`T array n e` (n to 4,294,967,295)"
pub const MAX_ARRAY: u32 = 4_294_967_295;

// "Names: 1 to 64"; "`P path`: 1 to 128 bytes"; a tag "of 1 to 128 bytes"
pub const MAX_NAME: usize = 64;

pub const MAX_PATH: usize = 128;

pub const MAX_TAG: usize = 128;

// "minus (refusal × 65,536 + line)"
pub const REFUSAL_UNIT: u64 = 65_536;

// "It prints the answers, with a 16,384-byte answer buffer"
pub const PROGRAM_ANSWER: usize = 16_384;

// 1: "fewer words than the number the team fixes in docs/, which is at most 4,194,304"
pub const WORK_WORDS: usize = 4_096;

// ---- the rows of a loaded table: counts, the word that says whether members are signed, packages, types, and then members, with their signs behind them, from
// the front and elements of tuples from the back

pub const SIGNED_AT: usize = 4;

// words of a type's row and of a member's, and of a package's
pub const ROW_WORDS: usize = 8;

pub const PACKAGE_WORDS: usize = 2;

pub const PACKAGES_AT: usize = 8;

pub const TYPES_AT: usize = PACKAGES_AT + PACKAGE_WORDS * MAX_PACKAGES;

// where as many types end as there may be
pub const TYPES_END: usize = TYPES_AT + ROW_WORDS * MAX_TYPES;

// an element of a tuple takes a tab and a digit at least
pub const MAX_ELEMENTS: usize = MAX_TEXT / 2;

pub const ALL_WORDS: usize = TYPES_END + ROW_WORDS * MAX_MEMBERS + MAX_ELEMENTS;

// a call has an array of its own for texts of at most so many bytes, and one for all others
pub const SMALL_TEXT: usize = 1_024;

pub const MEDIAN_TEXT: usize = 3_072;

pub const MIDDLE_TEXT: usize = 6_144;

pub const LONG_TEXT: usize = 16_384;

// the words of each, enough for every text that it is for; that for all others has ALL_WORDS
pub const SMALL_WORDS: usize = TYPES_AT + 2 * SMALL_TEXT;

pub const MEDIAN_WORDS: usize = TYPES_AT + 2 * MEDIAN_TEXT;

pub const MIDDLE_WORDS: usize = TYPES_END + MIDDLE_TEXT;

pub const LONG_WORDS: usize = TYPES_END + LONG_TEXT;

// S, M and N have an array of their own for at most so many level records, two for each type, and one for all others; M also for so many members
pub const FEW_RECORDS: usize = 64;

pub const SOME_RECORDS: usize = 256;

pub const SOME_MEMBERS: usize = 256;
