// What a command answers over the contents of its files.
use crate::output::Put;

/// What a command answers over the contents of its files, before anything is put.
#[derive(Drop)]
pub enum Outcome {
    /// Yes: the bytes that are put, where the command puts a file, and the text that is left to be written.
    Yes { put: Put, text: Vec<u8> },
    /// No, and the text that is left to be written.
    No { text: Vec<u8> },
    /// No memory was left.
    Mem,
}
