//! Where the words of a set of registers stand in their table, and the parts of a word. Own to this project.
//!
//! | Word | What it holds |
//! |---|---|
//! | 0 | the last command: its number, and the parity of the commands sent |
//! | 1 | the last answer: its value, and the parity of the answers given |
//! | 2 | the line: bit i is 1 where interrupt i was raised and not read since |
//! | 3 on | the mask of each interrupt, in order |
//! | behind the masks | the doorbells of 8 transmit queues, then two of each of 8 receive queues |
//! | the last | the events: a bit each, set by the device and cleared by the driver |

/// The word of the last command.
pub const COMMAND_WORD: usize = 0;

/// The word of the last answer.
pub const ANSWER_WORD: usize = 1;

/// The word of the line.
pub const LINE_WORD: usize = 2;

/// The word of the first interrupt's mask.
pub const FIRST_MASK: usize = 3;

/// How many doorbells of transmit queues there are: one for each of 8 queues. They come first.
pub const TX_BELLS: usize = 8;

/// How many doorbells there are, with one for each of the two rings of 8 receive queues.
pub const BELLS: usize = 24;

/// The place of the parity's bit in the words of commands and answers: number or value lie below it.
pub const COUNT_BIT: u64 = 0x1_0000_0000;

/// Where the count of a mask's writes stands still: 2^63 - 1.
pub const LAST_COUNT: u64 = 0x7fff_ffff_ffff_ffff;
