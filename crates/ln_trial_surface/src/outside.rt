//! Files and streams in memory, places of a text, and lists.
use ln_base::{MemConsole, MemFiles, NoMemory, line_col};
use std::alloc::Global;

#[test]
fn calls_of_files_and_streams_have_their_types(_rt: HostRuntime) {
    let _: fn(Vec<(String, Vec<u8>)>, Vec<u64>) -> MemFiles = MemFiles::new;
    let _: fn(Global, usize, usize, Vec<u64>) -> Result<MemConsole, NoMemory> = MemConsole::new;
    let _: fn(&[u8], u32) -> (u32, u32) = line_col;
}
