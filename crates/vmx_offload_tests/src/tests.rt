//! The tests of the top call, by what they are about. Texts, lengths and checksums are not the program's own.

mod faults;
mod fills;
