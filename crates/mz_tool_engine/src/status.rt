// How a run of the program ends.
ghost use Rattle.std.specs.Prelude.{◌≡◌, option_map};
ghost use Rattle.mz_tool_engine.specs.Ending.{number_of, printed_name};

/// The bytes of the longest file that is read.
pub const LONGEST: u64 = 4_294_967_295;

/// How a run of the program ends.
#[derive(Clone, Copy, Debug, PartialEq, Eq)]
pub enum Status {
    /// The answer is yes.
    Done,
    /// A refusal's line was written.
    Refused,
    /// The arguments are none of the program's.
    Usage,
    /// A file could not be read.
    ReadFault,
    /// A file could not be written.
    WriteFault,
    /// The output could not be written.
    OutFault,
    /// A file has more than 4,294,967,295 bytes.
    TooLong,
    /// No memory was left.
    Memory,
}

impl Status {
    /// The exit status of the process.
    pub fn number(self) -> u8
        ensures { result ≡ number_of self }
    {
        match self {
            Status::Done => 0,
            Status::Refused => 1,
            Status::Usage => 2,
            Status::ReadFault => 3,
            Status::Memory => 4,
            Status::WriteFault => 5,
            Status::OutFault => 6,
            Status::TooLong => 7,
        }
    }

    /// What is printed on standard error, where anything is.
    pub fn name(self) -> Option<&'static str>
        ensures { option_map (λ name. name.now) result ≡ printed_name self }
    {
        match self {
            Status::Done | Status::Refused => None,
            Status::Usage => Some("Usage"),
            Status::ReadFault => Some("ReadFault"),
            Status::Memory => Some("Memory"),
            Status::WriteFault => Some("WriteFault"),
            Status::OutFault => Some("OutFault"),
            Status::TooLong => Some("TooLong"),
        }
    }
}
