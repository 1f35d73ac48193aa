// The command `show`.
use mz_binary::refusal_line;
use mz_io::{Failed, Sink};
use mz_show::{Shown, each_file_has_one_listing, listing};
use mz_tool_engine::{Command, Contents, Inputs, Outcome, Output, Put};
use std::alloc::Global;

/// `show BIN`: the name of the file.
#[derive(Clone, Copy)]
pub struct ShowCommand<'a> {
    pub bin: &'a str,
}

impl<'a> Command for ShowCommand<'a> {
    ghost use Rattle.mz_tool_verify.specs.Show.{show_says};

    ghost says = { λ command. show_says command.bin.now };

    fn inputs(&self) -> Inputs<'_> {
        Inputs::One(self.bin)
    }

    fn output(&self) -> Output<'_> {
        Output::Nothing
    }

    /// Writes the listing as it is made; after a refusal its line is left.
    fn answer<O: Sink>(
        &self,
        alloc: Global,
        contents: &Contents,
        out: &mut O,
    ) -> Result<Outcome, Failed> {
        each_file_has_one_listing();
        match listing(alloc, contents.one(), out) {
            Shown::Done => Ok(Outcome::Yes {
                put: Put::Nothing,
                text: Vec::new(alloc),
            }),
            Shown::Refused(refusal) => match refusal_line(alloc, &refusal) {
                Ok(text) => Ok(Outcome::No { text }),
                Err(_) => Ok(Outcome::Mem),
            },
            Shown::Fault => Err(Failed),
            Shown::Mem => Ok(Outcome::Mem),
        }
    }
}
