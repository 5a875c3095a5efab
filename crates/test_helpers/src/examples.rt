//! Files that several tests use, most of them worked examples: their longwords in hexadecimal digits, where
//! `/` only separates.

/// Example 1: one hunk of one CODE block of one longword.
pub const ONE_HUNK: &str = "3F3 0 1 0 0 1 / 3E9 1 4E754E71 / 3F2";

/// Example 1 without its END.
pub const BEFORE_ITS_END: &str = "3F3 0 1 0 0 1 / 3E9 1 4E754E71";

/// Example 2: two hunks, the first with the second's base in its code.
pub const TWO_HUNKS: &str =
    "3F3 0 2 0 1 2 1 / 3E9 2 4EF90000 00044E71 / 3EC 1 1 2 0 / 3F2 / 3EA 1 12345678 / 3F2";

/// Example 3: a base is added past 2^32.
pub const RELOCATED: &str = "3F3 0 1 0 0 1 / 3E9 1 FFFFFFFC / 3EC 1 0 0 0 / 3F2";

/// Example 4: one hunk that has fewer bytes than it declares.
pub const ENDING_EARLY: &str = "3F3 0 1 0 0 3 / 3E9 1 4E754E71 / 3F2";

/// Example 5: two bases added to one longword.
pub const TWO_BASES: &str = "3F3 0 2 0 1 1 1 / 3E9 1 10 / 3EC 1 0 0 1 1 0 0 / 3F2 / 3EB 1 / 3F2";

/// Example 6: two relocated longs that overlap.
pub const OVERLAPPING: &str = "3F3 0 1 0 0 2 / 3E9 2 0000FFFF FFFF0000 / 3EC 2 0 0 2 0 / 3F2";

/// Example 6 with its offsets the other way round.
pub const OVERLAPPING_FROM_AFTER: &str =
    "3F3 0 1 0 0 2 / 3E9 2 0000FFFF FFFF0000 / 3EC 2 0 2 0 0 / 3F2";

/// Example 7: two hunks that have fewer bytes than they declare.
pub const ENDING_IN_ZEROS: &str = "3F3 0 2 0 1 2 3 / 3E9 1 4E754E71 / 3F2 / 3EB 3 / 3F2";

/// Example 8: two hunks, the first with memory attributes.
pub const WITH_ATTRIBUTES: &str =
    "3F3 0 2 0 1 C0000002 10004 1 / 3E9 2 4E714E71 4E754E71 / 3F2 / 3EB 1 / 3F2";

/// Example 11: a relocation of a hunk's last longword.
pub const RELOCATED_AT_ITS_END: &str = "3F3 0 1 0 0 2 / 3E9 2 0 0 / 3EC 1 0 4 0 / 3F2";

/// Example 11: a relocation of a long that passes the end of its hunk.
pub const RELOCATED_PAST_ITS_END: &str = "3F3 0 1 0 0 2 / 3E9 2 0 0 / 3EC 1 0 5 0 / 3F2";

/// Example 11: a relocation whose target is no hunk.
pub const RELOCATED_BY_NO_HUNK: &str = "3F3 0 1 0 0 2 / 3E9 2 0 0 / 3EC 1 1 4 0 / 3F2";

/// Example 12: a relocation in a hunk of no bytes.
pub const NOTHING_TO_RELOCATE: &str = "3F3 0 1 0 0 0 / 3EB 0 / 3EC 1 0 0 0 / 3F2";

/// Example 13: an object file with a DREL32 block.
pub const OBJECT_WITH_DREL32: &str = "3E7 1 61000000 / 3E9 1 0 / 3F7 1 0 0 0 / 3F2";

/// Example 14: an object file with a reference and a definition.
pub const OBJECT: &str = "3E7 1 61000000 / 3E9 2 4EB90000 00004E75 / \
    3EF 81000001 5F660000 1 2 1000001 5F6D0000 0 0 / 3F2";

/// Example 14 with an offset after the hunk.
pub const OBJECT_WITH_AN_OFFSET_OUTSIDE: &str = "3E7 1 61000000 / 3E9 2 4EB90000 00004E75 / \
    3EF 81000001 5F660000 1 5 1000001 5F6D0000 0 0 / 3F2";

/// Example 16: a header whose last hunk is not the last of their number.
pub const WRONG_LAST_HUNK: &str = "3F3 0 2 0 0";

/// Example 16: a header of no hunk.
pub const NO_HUNKS: &str = "3F3 0 0";

/// Example 16: a header of one hunk more than a file may have.
pub const TOO_MANY_HUNKS: &str = "3F3 0 10001";

/// Example 17: the header of the largest hunk that can be declared.
pub const LARGEST_HUNK: &str = "3F3 0 1 0 0 3FFFFFFF";

/// Example 18: a symbol.
pub const WITH_A_SYMBOL: &str = "3F3 0 1 0 0 1 / 3E9 1 4E754E71 / 3F0 1 5F6D0000 0 0 / 3F2";

/// Example 19: an advisory block, in which END's block word stands.
pub const WITH_AN_ADVISORY: &str = "3F3 0 1 0 0 1 / 3E9 1 4E754E71 / 200004D2 2 DEADBEEF 3F2 / 3F2";

/// Example 24: a name with bytes that are not printed as they are.
pub const WITH_A_NAME: &str = "3F3 0 1 0 0 1 / 3E8 1 2E740A5C / 3E9 1 4E754E71 / 3F2";

/// Example 24 with a number of longwords whose top byte is not 0.
pub const WRONG_NAME_WORD: &str = "3F3 0 1 0 0 1 / 3E8 1000001 2E740A5C / 3E9 1 4E754E71 / 3F2";

/// Example 25: an object file with an EXT entry of no type.
pub const ENTRY_OF_NO_TYPE: &str = "3E7 0 / 3E9 0 / 3EF 3000001";

/// Example 25: an object file that ends before the name of an entry.
pub const ENTRY_CUT_SHORT: &str = "3E7 0 / 3E9 0 / 3EF 88000001";

/// Example 26: bytes that do not begin with a unit.
pub const WITHOUT_A_UNIT: &str = "3E9 0";

/// Example 26: an object file of one unit without a hunk.
pub const EMPTY_UNIT: &str = "3E7 0";

/// Example 29: an object file with a relocation of which two things are found.
pub const TWO_FINDINGS: &str = "3E7 0 / 3E9 1 0 / 3EC 1 1 2 0 / 3F2";

/// Example 34: an object file of an empty unit and another.
pub const EMPTY_UNIT_AND_ANOTHER: &str = "3E7 0 / 3E7 1 62000000 / 3EB 4 / 3F2";

/// Example 35: an object file with a common symbol.
pub const COMMON: &str = "3E7 0 / 3EB 2 / 3EF 82000001 63000000 8 1 4 0 / 3F2";

/// Example 35 with an offset after the hunk.
pub const COMMON_WITH_AN_OFFSET_OUTSIDE: &str =
    "3E7 0 / 3EB 2 / 3EF 82000001 63000000 8 1 5 0 / 3F2";

/// Example 36: two relocated longs that overlap, which are no neighbours in the list.
pub const OVERLAPPING_APART: &str = "3F3 0 1 0 0 4 / 3EB 4 / 3EC 3 0 0 8 2 0 / 3F2";

/// Example 37: a relocation after a SYMBOL block.
pub const RELOCATED_AFTER_SYMBOLS: &str = "3F3 0 1 0 0 1 / 3E9 1 10 / 3F0 0 / 3EC 1 0 0 0 / 3F2";

/// What strip leaves of example 37.
pub const RELOCATED_ALONE: &str = "3F3 0 1 0 0 1 / 3E9 1 10 / 3EC 1 0 0 0 / 3F2";

/// Example 41: the most content that a block can announce, where the file ends.
pub const MOST_CONTENT: &str = "3F3 0 1 0 0 1 / 3E9 3FFFFFFF";

/// Example 41: the most offsets that a target can have, which is no hunk.
pub const MOST_OFFSETS_BY_NO_HUNK: &str = "3F3 0 1 0 0 1 / 3E9 1 0 / 3EC FFFFFFFF 1";

/// Example 41: the most offsets that a target can have.
pub const MOST_OFFSETS: &str = "3F3 0 1 0 0 1 / 3E9 1 0 / 3EC FFFFFFFF 0";

/// Example 41: the most debug data that a block can announce.
pub const MOST_DEBUG_DATA: &str = "3F3 0 1 0 0 1 / 3F1 FFFFFFFF";

/// Example 44: an object file with an advisory block before its content.
pub const OBJECT_WITH_AN_ADVISORY: &str = "3E7 0 / 200004D2 0 / 3EB 1 / 3F2";

/// Example 44: what strip leaves of that.
pub const OBJECT_WITHOUT_IT: &str = "3E7 0 / 3EB 1 / 3F2";

/// Example 44: a block of an unknown kind with the advisory flag.
pub const ADVISORY: &str = "200004D2 0";

/// Example 44: the same with the flag of chip memory.
pub const NO_ADVISORY: &str = "400004D2 0";

/// Example 44: the same with both flags.
pub const ADVISORY_WITH_CHIP: &str = "600004D2 0";

/// Example 44: an END with the advisory flag.
pub const END_WITH_ADVISORY_FLAG: &str = "200003F2";

/// Example 44: example 1 with this END.
pub const ENDING_WITH_ADVISORY_FLAG: &str = "3F3 0 1 0 0 1 / 3E9 1 4E754E71 / 200003F2";

/// Example 44: an object file whose second unit has the advisory flag, at 20.
pub const UNIT_WITH_ADVISORY_FLAG: &str = "3E7 0 / 3EB 0 / 3F2 / 200003E7 0";

/// Example 45: an object file with relative relocations and references.
pub const RELATIVE_OBJECT: &str = "3E7 1 61000000 / 3E9 2 0 0 / 3FD 1 0 4 0 / 3FE 1 0 6 0 / \
    3EF 88000001 5F660000 1 4 8A000001 5F670000 1 7 0 / 3F2";

/// The front of a header of as many hunks as there can be, up to its table.
pub const MOST_HUNKS: &str = "3F3 0 10000 0 FFFF";

/// A load file of five hunks, one with relocations and symbols, one of six blocks.
pub const FIVE_HUNKS: &str = "3F3 0 5 0 4 2 C0000001 10004 0 0 1 / \
    3E9 2 4EF90000 44E71 / 3EC 5 4 0 1 2 3 4 0 / 3F0 1 5F6D0000 0 0 / 3F2 / \
    3E8 1 2E740000 / 3EA 1 12345678 / 3F1 0 / 3F1 0 / 3F1 0 / 3F2 / \
    3EB 0 / 3F2 / 3EB 0 / 3F2 / 3EB 1 / 3F2";

/// An object file of two units, at 0 and 120, and of three hunks, at 12, 88 and 128, with relocations,
/// external symbols and symbols, at 28, 48 and 96.
pub const TWO_UNITS: &str = "3E7 1 61000000 / \
    3E9 2 4EB90000 4E75 / 3EC 1 0 2 0 / 3EF 81000001 5F660000 1 2 1000001 5F6D0000 0 0 / 3F2 / \
    3EB 1 / 3F0 1 5F6D0000 0 0 / 3F2 / \
    3E7 0 / 3EB 1 / 3F2";

/// An object file of five units, at 0, 120, 140, 152 and 324. The first two are those of `TWO_UNITS`, with hunks at
/// 12, 88 and 128; the third and the fifth have no hunk; the fourth has five, at 160, 172, 184, 196 and 212, the last
/// of six blocks, at 212, 224, 232, 304, 312 and 320, with five groups of relocations after 232.
pub const FIVE_UNITS: &str = "3E7 1 61000000 / \
    3E9 2 4EB90000 4E75 / 3EC 1 0 2 0 / 3EF 81000001 5F660000 1 2 1000001 5F6D0000 0 0 / 3F2 / \
    3EB 1 / 3F0 1 5F6D0000 0 0 / 3F2 / \
    3E7 0 / 3EB 1 / 3F2 / \
    3E7 1 63000000 / \
    3E7 0 / 3EB 1 / 3F2 / 3EB 1 / 3F2 / 3EB 1 / 3F2 / 3E9 1 4E754E71 / 3F2 / \
    3E8 1 2E740000 / 3EB 8 / 3EC 1 0 0 1 1 4 1 2 8 1 3 C 2 4 10 14 0 / 3F1 0 / 3F1 0 / 3F2 / \
    3E7 0";

/// An object file of two units, at 0 and 8, the first without a hunk, and of two hunks, at 16 and 28, the second with
/// five symbols, at 44, and five external symbols, at 108.
pub const FIVE_SYMBOLS: &str = "3E7 0 / 3E7 0 / 3EB 0 / 3F2 / \
    3E9 2 4EB90000 4E75 / \
    3F0 1 5F610000 0 1 5F620000 2 1000000 4 5000001 5F640000 6 1 5F650000 8 0 / \
    3EF 1000001 5F610000 7 81000001 5F620000 2 0 4 82000000 8 1 0 1000000 9 81000000 1 0 0 / 3F2";
