// The command `assemble`.
ghost use Rattle.std.specs.Prelude.{◌<◌, ◌^◌, ℕ, List, Option, length};
ghost use Rattle.mz_tool_engine.specs.Answering.{IsShort};
ghost use Rattle.mz_tool_engine.specs.Outcomes.{IfYes, IfNo, OnYes, OnNo};
ghost use Rattle.mz_tool.specs.Assemble.{IsAssembledTo, IsNotAssembled, IsListingOfNormal, ReturnsFrom};

use mz_asm::{Assembled, assemble_bytes, assembled_line, assembly_is_one, listings_are_assembled};
use mz_io::{Failed, Sink};
use mz_tool_engine::{Command, Contents, Inputs, Outcome, Output, Put};
use std::alloc::Global;

/// `assemble LIST OUT`: the names of the files.
#[derive(Clone, Copy)]
pub struct AssembleCommand<'a> {
    pub listing: &'a str,
    pub out: &'a str,
}

impl<'a> Command for AssembleCommand<'a> {
    ghost use Rattle.mz_tool.specs.Assemble.{assemble_says};

    ghost says = { λ command. assemble_says command.listing.now command.out.now };

    fn inputs(&self) -> Inputs<'_> {
        Inputs::One(self.listing)
    }

    fn output(&self) -> Output<'_> {
        Output::File(self.out)
    }

    fn answer<O: Sink>(
        &self,
        alloc: Global,
        contents: &Contents,
        out: &mut O,
    ) -> Result<Outcome, Failed> {
        Ok(assemble(alloc, contents.one()))
    }
}

/// Makes the binary of a listing. The line is built before anything is put.
pub fn assemble(alloc: Global, listing: &[u8]) -> Outcome
    requires listing { length listing.now < 2 ^ 32 }
    ensures yes { IfYes result (λ put line. IsAssembledTo listing.now put line) }
    ensures short { IfYes result (λ put line. IsShort put) }
    ensures no { IfNo result (λ line. IsNotAssembled listing.now line) }
    ensures lists_none { OnNo result ((file : List ℕ) → IsListingOfNormal listing.now file → ⊥) }
    ensures sound { OnYes result (ReturnsFrom listing.now) }
    ensures only_yes { (put : Option (List ℕ)) (line : List ℕ) → IsAssembledTo listing.now put line → OnNo result ⊥ }
    ensures only_no { (line : List ℕ) → IsNotAssembled listing.now line → OnYes result ⊥ }
{
    assembly_is_one();
    listings_are_assembled();
    let assembled = assemble_bytes(alloc, listing);
    if let Assembled::Mem = assembled {
        return Outcome::Mem;
    }
    let Ok(line) = assembled_line(alloc, &assembled) else {
        return Outcome::Mem;
    };
    match assembled {
        Assembled::Bytes(bytes) => Outcome::Yes {
            put: Put::File(bytes),
            text: line,
        },
        _ => Outcome::No { text: line },
    }
}
