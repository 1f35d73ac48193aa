// The verifier, as a program of the engine.
ghost use Rattle.mz_tool_engine.specs.Said.{Files};

use crate::command::VerifierCommand;
use mz_store::Seed;
use mz_tool_engine::Program;

/// The verifier, with the seed by which terms and names are looked up. No answer but out of memory depends on it.
#[derive(Clone, Copy)]
pub struct Verifier {
    pub seed: Seed,
}

impl<'a> Program<'a> for Verifier {
    ghost use Rattle.mz_tool_engine.specs.Run.{IsProved, said-itself};
    ghost use Rattle.mz_tool_verify.specs.Requests.{Request as VerifierRequest, said_of as said_of_request, request as request_of};

    type Asked = VerifierCommand<'a>;

    ghost Request = { VerifierRequest };

    ghost said_of = { said_of_request };

    ghost request = { request_of };

    fn read(&self, words: &'a [String]) -> Option<VerifierCommand<'a>> {
        VerifierCommand::read(self.seed, words)
    }

    fn keeps_its_promises(&self)
        ensures { (file : Files) (asked : VerifierRequest) → IsProved file (said_of_request asked) → (said_of_request asked).promise file }
    {}

    ghost says = { λ command. said-itself (said_of_request (request_of command)) };
}
