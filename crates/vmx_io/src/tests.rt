//! That calls which take memory succeed where there is memory, and what the outside in memory answers call by call.
use super::*;
use std::alloc::Global;
use std::test::Fail;

/// What a load gave, or the name of the answer.
fn told(load: &Load) -> &[u8] {
    match load {
        Load::Bytes { bytes } => bytes.as_slice(),
        Load::Failed => b"(failed)",
        Load::TooLong => b"(too long)",
        Load::NoMemory => b"(no memory)",
    }
}

/// Two files of which the first is there twice.
fn files(alloc: Global) -> Result<List<File>, Fail> {
    let mut files = List::new(alloc);
    for (name, content) in [("a", "one"), ("b", "three"), ("a", "never seen")] {
        files.push(File {
            name: Text::from_str(alloc, name)?,
            bytes: Bytes::from_slice(alloc, content.as_bytes())?,
        })?;
    }
    Ok(files)
}

#[test]
fn a_steady_shelf_never_fails(rt: HostRuntime) -> Result<(), Fail> {
    let mut shelf = SteadyShelf::new(files(rt.alloc())?);
    assert_eq!(rt; shelf.save(rt.alloc(), "b", b"new"), Save::Done);
    for (name, limit, content, there) in [
        ("a", 3, "one", true),
        ("a", 2, "(too long)", true),
        ("b", 3, "new", true),
        ("c", 0, "", false),
    ] {
        let load = shelf.load(rt.alloc(), name, limit);
        let seen = (told(&load), shelf.has(name));
        assert_eq!(rt; seen, (content.as_bytes(), there), "{name}");
    }
    Ok(())
}

#[test]
fn a_faulty_shelf_fails_by_numbers_and_at_absent_names(rt: HostRuntime) -> Result<(), Fail> {
    let failing = List::of(Vec::from_array(rt.alloc(), [1u64, 2])?);
    let mut shelf = FaultyShelf::new(files(rt.alloc())?, failing);
    for (content, answer) in [("new", Save::Done), ("lost", Save::Failed)] {
        assert_eq!(rt; shelf.save(rt.alloc(), "c", content.as_bytes()), answer);
    }
    for (name, limit, content) in [
        ("c", 3, "(failed)"),
        ("c", 3, "new"),
        ("d", 9, "(failed)"),
        ("b", 4, "(too long)"),
        ("a", 3, "one"),
    ] {
        let load = shelf.load(rt.alloc(), name, limit);
        assert_eq!(rt; told(&load), content.as_bytes(), "{name}");
    }
    Ok(())
}

#[test]
fn a_console_keeps_what_was_written(rt: HostRuntime) -> Result<(), Fail> {
    let mut steady = SteadyConsole::new(rt.alloc());
    let failing = List::of(Vec::from_array(rt.alloc(), [1u64])?);
    let mut faulty = FaultyConsole::new(rt.alloc(), failing);
    for (line, answer) in [("ab", Save::Done), ("cd", Save::Failed), ("ef", Save::Done)] {
        let seen = (steady.write(line.as_bytes()), faulty.write(line.as_bytes()));
        assert_eq!(rt; seen, (Save::Done, answer), "{line}");
    }
    let seen = (steady.text(), faulty.text());
    assert_eq!(rt; seen, (b"abcdef".as_slice(), b"abef".as_slice()));
    Ok(())
}

#[test]
fn a_list_grows_where_there_is_memory(rt: HostRuntime) -> Result<(), Fail> {
    let mut list = List::new(rt.alloc());
    list.reserve(1)?;
    list.push(5u32)?;
    *list.at_mut(0) = 7;
    assert_eq!(rt; list.pop_first(), Some(7));
    Ok(())
}

#[test]
fn room_is_made_where_there_is_memory(rt: HostRuntime) -> Result<(), Fail> {
    let mut roomy = Roomy::new(rt.alloc());
    roomy.reserve(1)?;
    roomy.push(3u32);
    assert_eq!(rt; (MIN_FRAME, MAX_FRAME), (14, 9_022));
    let mut buffer = Buffer::new(rt.alloc())?;
    buffer.copy_of(&[2; 4]);
    let seen = (roomy.as_slice(), buffer.as_slice());
    assert_eq!(rt; seen, ([3].as_slice(), [2; 4].as_slice()));
    Ok(())
}

#[test]
fn bytes_and_texts_are_copied_where_there_is_memory(rt: HostRuntime) -> Result<(), Fail> {
    let mut bytes = Bytes::from_slice(rt.alloc(), b"ab")?;
    bytes.append(b"c")?;
    let text = Text::from_str(rt.alloc(), "name")?;
    assert_eq!(rt;
        (bytes.as_slice(), text.as_str()),
        (b"abc".as_slice(), "name")
    );
    Ok(())
}
