//! The program `vmxoffload`: collects its words, and does what they ask for over the current folder and standard output.
//!
//! It ends with the number of `vmx_offload`'s status. Where collecting the words finds no memory, it ends with status 8
//! and writes nothing.
#![tactic(auto)]

use std::alloc::Global;
use std::process::ExitCode;
use std::rt::Env;
use std::{env, io};
use vmx_io::{FolderShelf, TerminalConsole};
use vmx_offload::run_offload;

/// The status where no memory was found for the words.
const NO_MEMORY: u8 = 8;

fn main(rt: HostRuntime) -> ExitCode {
    let Ok(words) = words(&rt) else {
        return ExitCode::from(NO_MEMORY);
    };
    let mut shelf = FolderShelf::new(&rt);
    let mut console = TerminalConsole::new(&rt);
    let outcome = run_offload(rt.alloc(), &words, &mut shelf, &mut console);
    ExitCode::from(outcome.status.number())
}

/// The arguments after the program's name.
fn words(rt: &(impl Env + AllocGlobal)) -> io::Result<Vec<String>> {
    let mut words = Vec::new(rt.alloc());
    for word in env::args(rt)?.skip(1) {
        words.push(word)?;
    }
    Ok(words)
}
