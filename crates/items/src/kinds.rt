// The kinds of items: the one table. Each shape has sixteen kinds; an item's shape says how many words it has and what they hold. They are numbers and
// no enum, since a kind is a byte in a word of the work area, which C lends, and a shape is a kind over 16: an enum would be made of a byte at each read.

// A mark of the script's structure, or AGP: one word.
pub const MARKS: u32 = 0;

// A simple command of one word, two, or four.
pub const WORDS: u32 = 1;

pub const PAIRS: u32 = 2;

pub const FOURS: u32 = 3;

// A first word and the words of a qualified string; a change has one more word, of its second string.
pub const STRINGS: u32 = 4;

pub const CHANGES: u32 = 5;

// A first word, where the search ends, and the words of the search; a search, or an opener with a test.
pub const SEARCHES: u32 = 6;

pub const TESTS: u32 = 7;

// An opener of one word, or two.
pub const OPENERS: u32 = 8;

pub const LONG_OPENERS: u32 = 9;

// Marks.
pub const LINE_END: u32 = 16 * MARKS;

pub const BRACKET: u32 = 16 * MARKS + 1;

pub const CLOSE: u32 = 16 * MARKS + 2;

pub const ELSE: u32 = 16 * MARKS + 3;

pub const AGP: u32 = 16 * MARKS + 4;

// Simple commands: W, N, P, IC, PR, >, <, #, $, %.
pub const QUIT: u32 = 16 * WORDS;

pub const NEXT: u32 = 16 * WORDS + 1;

pub const PREVIOUS: u32 = 16 * WORDS + 2;

pub const COPY: u32 = 16 * WORDS + 3;

pub const POINT_START: u32 = 16 * WORDS + 4;

pub const RIGHT: u32 = 16 * WORDS + 5;

pub const LEFT: u32 = 16 * WORDS + 6;

pub const CUT_BYTE: u32 = 16 * WORDS + 7;

pub const LOWER: u32 = 16 * WORDS + 8;

pub const UPPER: u32 = 16 * WORDS + 9;

// CG.
pub const CANCEL: u32 = 16 * WORDS + 10;

// M, D, IS, CL.
pub const MOVE: u32 = 16 * PAIRS;

pub const DELETE: u32 = 16 * PAIRS + 1;

pub const INSERT_STRING: u32 = 16 * PAIRS + 2;

pub const JOIN: u32 = 16 * PAIRS + 3;

// R, I.
pub const REPLACE: u32 = 16 * FOURS;

pub const INSERT_LINES: u32 = 16 * FOURS + 1;

// WORD.
pub const WORD_SET: u32 = 16 * FOURS + 2;

// PA, PB, SA, SB.
pub const POINT_AFTER: u32 = 16 * STRINGS;

pub const POINT_BEFORE: u32 = 16 * STRINGS + 1;

pub const SPLIT_AFTER: u32 = 16 * STRINGS + 2;

pub const SPLIT_BEFORE: u32 = 16 * STRINGS + 3;

// A, AP, B, BP, E, EP.
pub const AFTER: u32 = 16 * CHANGES;

pub const AFTER_POINTING: u32 = 16 * CHANGES + 1;

pub const BEFORE: u32 = 16 * CHANGES + 2;

pub const BEFORE_POINTING: u32 = 16 * CHANGES + 3;

pub const EXCHANGE: u32 = 16 * CHANGES + 4;

pub const EXCHANGE_POINTING: u32 = 16 * CHANGES + 5;

// GA, GB, GE.
pub const GLOBAL_AFTER: u32 = 16 * CHANGES + 6;

pub const GLOBAL_BEFORE: u32 = 16 * CHANGES + 7;

pub const GLOBAL_EXCHANGE: u32 = 16 * CHANGES + 8;

// Searches: F, BF, DF.
pub const FIND: u32 = 16 * SEARCHES;

pub const FIND_BACK: u32 = 16 * SEARCHES + 1;

pub const FIND_DELETE: u32 = 16 * SEARCHES + 2;

// Openers with a test: IF, UL, WH, UT.
pub const IF: u32 = 16 * TESTS;

pub const UNLESS: u32 = 16 * TESTS + 1;

pub const WHILE: u32 = 16 * TESTS + 2;

pub const UNTIL: u32 = 16 * TESTS + 3;

// A count in the first word; RPT; a group that is the body of nothing; IFEOF; a count in the second word.
pub const COUNT: u32 = 16 * OPENERS;

pub const REPEAT: u32 = 16 * OPENERS + 1;

pub const BARE: u32 = 16 * OPENERS + 2;

pub const IF_EOF: u32 = 16 * OPENERS + 3;

pub const LONG_COUNT: u32 = 16 * LONG_OPENERS;
