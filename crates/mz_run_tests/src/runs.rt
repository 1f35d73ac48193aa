// Runs of the program over a folder and a sink in memory.
use mz_io::{MemFolder, MemSink};
use mz_store::Seed;
use mz_tool::{Status, run};
use std::alloc::{AllocError, Global};
use std::process::Abort;

/// The arguments of a command line, separated by single spaces; none where it is empty.
pub fn words_of(alloc: Global, line: &str) -> Result<Vec<String>, AllocError> {
    let mut words = Vec::new(alloc);
    for word in line.split_whitespace() {
        words.push(word.to_string(alloc)?)?;
    }
    Ok(words)
}

/// A folder of these files.
pub fn folder_of(rt: &(impl Abort + AllocGlobal), files: &[(&str, &[u8])]) -> MemFolder {
    let mut folder = MemFolder::new(rt.alloc());
    for (name, bytes) in files {
        folder.add(name, bytes).expect(rt, "memory");
    }
    folder
}

/// How a command over the folder ends, and what it writes to a sink of this room.
pub fn ended(
    rt: &(impl Abort + AllocGlobal),
    line: &str,
    folder: &mut MemFolder,
    room: u64,
) -> (Status, MemSink) {
    let words = words_of(rt.alloc(), line).expect(rt, "memory");
    let mut out = MemSink::new(rt.alloc(), room).expect(rt, "memory");
    let status = run(rt.alloc(), Seed::FIXED, &words, folder, &mut out);
    (status, out)
}
