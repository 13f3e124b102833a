//! Files kept as a list, of which the first under a name counts.
//!
//! A save puts its file at the front. So the newest content of a name is found first, and older ones are never read.
ghost use Rattle.std.specs.Prelude.{◌≡◌, ℕ, [], Some, OnOk, OnErr};
ghost use Rattle.std.specs.Option.{option_map};
ghost use Rattle.std.specs.FinMap.{get, insert};
ghost use Rattle.vmx_io.specs.Outside.{content};
ghost use Rattle.vmx_io.specs.FileList.{files_of, first_under};

use crate::bytes::Bytes;
use crate::text::Text;
use std::alloc::{AllocError, Global};

/// A name and the bytes under it.
#[derive(Debug, Drop)]
pub struct File {
    pub name: Text,
    pub bytes: Bytes,
}

/// What stands under the name; nothing where there is no such file.
pub(crate) fn content_of<'a>(files: &'a [File], name: &str) -> &'a [u8]
    ensures content { result.now ≡ content (files_of files.now) name.now }
{
    match find(files, name) {
        Some(bytes) => bytes,
        None => &[],
    }
}

/// What stands under the name, where there is such a file.
#[tactic(auto, using(crate::proofs::Files::get_first_under))]
pub(crate) fn find<'a>(files: &'a [File], name: &str) -> Option<&'a [u8]>
    ensures found { option_map (λ bytes. bytes.now) result ≡ get (files_of files.now) name.now }
{
    first_under(files, name)
}

/// The bytes of the first file of this name.
fn first_under<'a>(files: &'a [File], name: &str) -> Option<&'a [u8]>
    ensures first { option_map (λ bytes. bytes.now) result ≡ first_under name.now files.now }
{
    for file in files {
        if name == file.name.as_str() {
            return Some(file.bytes.as_slice());
        }
    }
    None
}

/// Puts the bytes under the name, before what stood there.
pub(crate) fn put(
    alloc: Global,
    files: &mut Vec<File>,
    name: &str,
    bytes: &[u8],
) -> Result<(), AllocError>
    ensures ok { OnOk result (files_of files.new.items ≡ insert (files_of files.old.items) name.now bytes.now) }
    ensures err { OnErr result (files.new.items ≡ files.old.items) }
{
    let file = File {
        name: Text::from_str(alloc, name)?,
        bytes: Bytes::from_slice(alloc, bytes)?,
    };
    files.insert(0, file)?;
    Ok(())
}
