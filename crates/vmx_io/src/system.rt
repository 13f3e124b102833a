//! The outside world as the system has it. It tells nothing of contents, and counts each fault of the system.
//!
//! A failing open, read or write is a fault, whatever its cause, and ends the call; what a close answers is not seen.
//! A short read or write is gone on with. A count stands still at 2^64 - 1.
ghost use Rattle.std.specs.Prelude.{◌≡◌, ◌≤◌, ◌<◌, ◌+◌, length, take, drop, None, IsTrue, IfOk, OnOk, OnErr, vec_len};
ghost use Rattle.std.specs.Io.KnownBytes.{Appends, Consumes, IsAtEnd, Keeps};
ghost use Rattle.vmx_io.specs.Answers.{Loads};
ghost use Rattle.vmx_io.specs.Streams.{Drains, TakesAtMost};

use crate::bytes::Bytes;
use crate::outside::{Console, Load, Save, Shelf};
use std::alloc::{AllocError, Global};
use std::fs::OpenFile;
use std::io::{Read, Write};
use std::rt::Files;
use std::{fs, io};

/// The most bytes that one read asks for: 1 MiB.
const PIECE: usize = 1 << 20;

/// The files of the current folder, by their paths. An absent file is a fault.
#[derive(Drop)]
pub struct FolderShelf<'a, R> {
    rt: &'a R,
    read_faults: u64,
    write_faults: u64,
}

impl<'a, R> FolderShelf<'a, R> {
    /// With no faults so far. It takes no memory.
    pub fn new(rt: &'a R) -> FolderShelf<'a, R>
        ensures read_faults { result.read_faults ≡ 0 }
        ensures write_faults { result.write_faults ≡ 0 }
    {
        FolderShelf {
            rt,
            read_faults: 0,
            write_faults: 0,
        }
    }
}

impl<R: Files> Shelf for FolderShelf<'_, R> {
    ghost files = { λ _. None };

    ghost read_faults = { λ shelf. shelf.read_faults };

    ghost write_faults = { λ shelf. shelf.write_faults };

    fn load(&mut self, alloc: Global, name: &str, limit: u64) -> Load {
        match load_from(self.rt, alloc, name, limit) {
            Load::Failed => {
                self.read_faults = self.read_faults.saturating_add(1);
                Load::Failed
            }
            Load::Bytes { bytes } => Load::Bytes { bytes },
            Load::TooLong => Load::TooLong,
            Load::NoMemory => Load::NoMemory,
        }
    }

    fn save(&mut self, _alloc: Global, name: &str, bytes: &[u8]) -> Save {
        if !save_to(self.rt, name, bytes) {
            self.write_faults = self.write_faults.saturating_add(1);
            return Save::Failed;
        }
        Save::Done
    }
}

/// The standard output.
#[derive(Drop)]
pub struct TerminalConsole<'a, R> {
    rt: &'a R,
    faults: u64,
}

impl<'a, R> TerminalConsole<'a, R> {
    /// With no faults so far. It takes no memory.
    pub fn new(rt: &'a R) -> TerminalConsole<'a, R>
        ensures faults { result.faults ≡ 0 }
    {
        TerminalConsole { rt, faults: 0 }
    }
}

impl<R: Print> Console for TerminalConsole<'_, R> {
    ghost text = { λ _. None };

    ghost faults = { λ console. console.faults };

    fn write(&mut self, bytes: &[u8]) -> Save {
        if self.rt.write_all(bytes).is_err() {
            self.faults = self.faults.saturating_add(1);
            return Save::Failed;
        }
        Save::Done
    }
}

/// The file from its start to its end. Where the system tells its length, there is room for it from the start.
fn load_from<R: Files>(rt: &R, alloc: Global, name: &str, limit: u64) -> Load
    ensures content { Loads result None name.now limit }
{
    let Ok(mut file) = fs::open(rt, name) else {
        return Load::Failed;
    };
    let room = match file.metadata() {
        Ok(metadata) => room_for(metadata.len(), limit),
        Err(_) => room_for(0, limit),
    };
    let Ok(bytes) = Vec::with_capacity(alloc, room) else {
        return Load::NoMemory;
    };
    read_to_end(&mut file, bytes, limit)
}

/// How many bytes to reserve: one more than the length, so that the read that finds the end needs no more room, or a
/// piece where no length is told, as of a pipe or a device; and no more than one byte past the limit.
fn room_for(length: u64, limit: u64) -> usize {
    let wanted = if length == 0 {
        PIECE as u64
    } else {
        length.saturating_add(1)
    };
    wanted.min(limit.saturating_add(1)) as usize
}

/// Reads from here to the end, and at most one byte past the limit.
fn read_to_end<F: Read>(file: &mut F, room: Vec<u8>, limit: u64) -> Load
    requires empty { vec_len room ≡ 0 }
    ensures drains { Drains result (F.remaining file.old) limit }
    ensures taken { TakesAtMost (F.remaining file.old) (F.remaining file.new) (limit + 1) }
{
    let mut bytes = room;
    let mut filled = 0;
    while filled as u64 <= limit {
        if make_room(&mut bytes, filled, limit).is_err() {
            return Load::NoMemory;
        }
        match read_at(file, &mut bytes, filled) {
            Err(_) => return Load::Failed,
            Ok(0) => {
                bytes.truncate(filled);
                return Load::Bytes {
                    bytes: Bytes::of(bytes),
                };
            }
            Ok(count) => filled += count,
        }
    }
    Load::TooLong
}

/// Reads once into what stands from an index on.
fn read_at<F: Read>(file: &mut F, bytes: &mut [u8], filled: usize) -> io::Result<usize>
    requires within { filled < length bytes.old }
    ensures front { take filled bytes.new ≡ take filled bytes.old }
    ensures fits { IfOk result (λ count. filled + count ≤ length bytes.new) }
    ensures read { IfOk result (λ count. Consumes (F.remaining file.old) (F.remaining file.new) (take count (drop filled bytes.new))) }
    ensures end { IfOk result (λ count. count ≡ 0 → IsAtEnd (F.remaining file.new)) }
    ensures err { OnErr result (Keeps (F.remaining file.old) (F.remaining file.new)) }
{
    file.read(&mut bytes[filled..])
}

/// Makes the bytes longer than what is filled, by zeros for the next read: a piece, as far as there is room, and up to
/// one byte past the limit.
fn make_room(bytes: &mut Vec<u8>, filled: usize, limit: u64) -> Result<(), AllocError>
    requires within { filled ≤ vec_len bytes.old }
    requires below { filled ≤ limit }
    requires bound { vec_len bytes.old ≤ limit + 1 }
    ensures front { take filled bytes.new.items ≡ take filled bytes.old.items }
    ensures room { OnOk result (filled < vec_len bytes.new) }
    ensures bound { vec_len bytes.new ≤ limit + 1 }
{
    if filled < bytes.len() {
        return Ok(());
    }
    if filled == bytes.capacity() {
        bytes.reserve(PIECE)?;
    }
    let left = (limit - filled as u64).saturating_add(1);
    let more = left.min(PIECE.min(bytes.capacity() - filled) as u64);
    bytes.resize(filled + more as usize, 0)
}

/// Creates the file, or cuts it to nothing, and writes all bytes; whether the system did.
fn save_to<R: Files>(rt: &R, name: &str, bytes: &[u8]) -> bool {
    match fs::create(rt, name) {
        Ok(mut file) => write_all(&mut file, bytes),
        Err(_) => false,
    }
}

/// Writes all bytes, in as few calls as the system takes; whether it took them.
fn write_all<F: Write>(file: &mut F, bytes: &[u8]) -> bool
    ensures whole { IsTrue result → Appends (F.contents file.old) (F.contents file.new) bytes.now }
{
    let mut rest = bytes;
    while !rest.is_empty() {
        match file.write(rest) {
            Err(_) | Ok(0) => return false,
            Ok(count) => rest = &rest[count..],
        }
    }
    true
}

#[cfg(test)]
mod tests {
    use super::*;
    use std::cell::{Cell, RefCell};
    use std::fmt::Display;
    use std::io::ErrorKind;
    use std::test::Fail;

    /// A stream of `left` bytes of 7, at most `most` a call, whose call with the number `failing` fails.
    #[derive(Drop)]
    struct Stream {
        left: usize,
        most: usize,
        calls: u64,
        failing: u64,
    }

    impl Stream {
        fn next(&mut self, wanted: usize) -> io::Result<usize>
            ensures fits { IfOk result (λ count. count ≤ wanted) }
        {
            let call = self.calls;
            self.calls = call.saturating_add(1);
            if call == self.failing {
                return Err(io::Error::from(ErrorKind::Interrupted));
            }
            let count = wanted.min(self.most).min(self.left);
            self.left -= count;
            Ok(count)
        }
    }

    impl Read for Stream {
        fn read(&mut self, buf: &mut [u8]) -> io::Result<usize> {
            let count = self.next(buf.len())?;
            buf[..count].fill(7);
            Ok(count)
        }
    }

    impl Write for Stream {
        fn write(&mut self, buf: &[u8]) -> io::Result<usize> {
            self.next(buf.len())
        }

        fn flush(&mut self) -> io::Result<()> {
            Ok(())
        }
    }

    /// The name of the answer, and how many bytes it has.
    fn answer_of(load: &Load) -> (&str, usize) {
        match load {
            Load::Bytes { bytes } => ("bytes", bytes.len()),
            Load::Failed => ("failed", 0),
            Load::TooLong => ("too long", 0),
            Load::NoMemory => ("no memory", 0),
        }
    }

    #[test]
    fn short_reads_go_on_and_a_failing_one_is_told(rt: HostRuntime) {
        for (left, most, failing, limit, answer, calls, rest) in [
            (10, 4, 9, 10, ("bytes", 10), 4, 0),
            (10, 4, 9, 9, ("too long", 0), 3, 0),
            (10, 4, 2, 10, ("failed", 0), 3, 2),
            (99, 99, 9, 5, ("too long", 0), 1, 93),
            (3 << 20, 3 << 20, 9, 3 << 20, ("bytes", 3 << 20), 4, 0),
        ] {
            let mut stream = Stream {
                left,
                most,
                calls: 0,
                failing,
            };
            let load = read_to_end(&mut stream, Vec::new(rt.alloc()), limit);
            let seen = (answer_of(&load), stream.calls, stream.left);
            assert_eq!(rt; seen, (answer, calls, rest), "{left} bytes");
        }
    }

    #[test]
    fn short_writes_go_on_and_a_failing_one_is_told(rt: HostRuntime) {
        for (left, most, failing, done, calls) in [
            (10, 4, 9, true, 3),
            (10, 10, 9, true, 1),
            (10, 4, 2, false, 3),
            (9, 4, 9, false, 4),
        ] {
            let mut stream = Stream {
                left,
                most,
                calls: 0,
                failing,
            };
            let seen = (write_all(&mut stream, &[7; 10]), stream.calls);
            assert_eq!(rt; seen, (done, calls), "{left} bytes");
        }
    }

    #[test]
    fn a_saved_file_is_there_and_is_loaded(rt: HostRuntime) -> Result<(), Fail> {
        let mut shelf = FolderShelf::new(&rt);
        for content in ["long content", "short"] {
            let bytes = content.as_bytes();
            assert_eq!(rt; shelf.save(rt.alloc(), "vmx_io_saved", bytes), Save::Done);
            let load = shelf.load(rt.alloc(), "vmx_io_saved", 12);
            assert_eq!(rt; answer_of(&load), ("bytes", bytes.len()));
            assert_eq!(rt; fs::read_to_string(&rt, "vmx_io_saved")?.as_str(), content);
        }
        fs::remove_file(&rt, "vmx_io_saved")?;
        Ok(())
    }

    #[test]
    fn a_missing_file_and_a_missing_name_are_counted_faults(rt: HostRuntime) {
        let mut shelf = FolderShelf::new(&rt);
        let load = shelf.load(rt.alloc(), "vmx_io_missing", 12);
        let save = shelf.save(rt.alloc(), "", b"x");
        let seen = (
            answer_of(&load),
            save,
            shelf.read_faults,
            shelf.write_faults,
        );
        assert_eq!(rt; seen, (("failed", 0), Save::Failed, 1, 1));
    }

    /// Keeps what is printed, and fails once it is told to.
    #[derive(Drop)]
    struct Printed {
        text: RefCell<Vec<u8>>,
        fails: Cell<bool>,
    }

    impl Print for Printed {
        fn print<D: Display + Drop>(&self, _value: D) -> io::Result<()> {
            Err(io::Error::from(ErrorKind::Unsupported))
        }

        fn println<D: Display + Drop>(&self, _value: D) -> io::Result<()> {
            Err(io::Error::from(ErrorKind::Unsupported))
        }

        fn write_all(&self, bytes: &[u8]) -> io::Result<()> {
            if self.fails.get() {
                return Err(io::Error::from(ErrorKind::BrokenPipe));
            }
            let Ok(mut text) = self.text.try_borrow_mut() else {
                return Err(io::Error::from(ErrorKind::Other));
            };
            text.extend_from_slice(bytes)?;
            Ok(())
        }
    }

    #[test]
    fn a_write_is_printed_and_a_failing_one_is_told(rt: HostRuntime) {
        let printed = Printed {
            text: RefCell::new(Vec::new(rt.alloc())),
            fails: Cell::new(false),
        };
        let mut console = TerminalConsole::new(&printed);
        for (line, fails, answer) in [
            ("one ", false, Save::Done),
            ("lost", true, Save::Failed),
            ("two", false, Save::Done),
        ] {
            printed.fails.set(fails);
            assert_eq!(rt; console.write(line.as_bytes()), answer);
        }
        assert_eq!(rt; console.faults, 1);
        if let Ok(text) = printed.text.try_borrow() {
            assert_eq!(rt; text.as_slice(), b"one two".as_slice());
        }
    }
}
