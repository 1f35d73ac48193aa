// The commands `compile` and `compile_draft`.
ghost use Rattle.std.specs.Prelude.{◌<◌, ◌^◌, ℕ, Bool, List, Option, length};
ghost use Rattle.mz_base.specs.Gaps.{gaps_of};
ghost use Rattle.mz_tool_engine.specs.Answering.{IsShort};
ghost use Rattle.mz_tool_engine.specs.Outcomes.{IfYes, IfNo, OnYes, OnNo};
ghost use Rattle.mz_tool.specs.Compile.{IsAnsweredOnce, IsCompiledTo, IsNotCompiled};

use mz_base::Mode;
use mz_emit::{
    compilable_texts_have_files, compilation_is_decided, compile_bytes, compiled_line,
    texts_have_one_file,
};
use mz_emit_theory::Compiled;
use mz_io::{Failed, Sink};
use mz_store::Seed;
use mz_tool_engine::{Command, Contents, Inputs, Outcome, Output, Put};
use std::alloc::Global;

/// `compile TEXT OUT`, and `compile_draft TEXT OUT` for a draft: the names of the files, and the seed with which names are
/// hashed.
#[derive(Clone, Copy)]
pub struct CompileCommand<'a> {
    pub seed: Seed,
    pub mode: Mode,
    pub text: &'a str,
    pub out: &'a str,
}

impl<'a> Command for CompileCommand<'a> {
    ghost use Rattle.mz_base.specs.Gaps.{gaps_of};
    ghost use Rattle.mz_tool.specs.Compile.{compile_says};

    ghost says = { λ command. compile_says (gaps_of command.mode) command.text.now command.out.now };

    fn inputs(&self) -> Inputs<'_> {
        Inputs::One(self.text)
    }

    fn output(&self) -> Output<'_> {
        Output::File(self.out)
    }

    fn answer<O: Sink>(
        &self,
        alloc: Global,
        contents: &Contents,
        out: &mut O,
    ) -> Result<Outcome, Failed> {
        Ok(compile(alloc, self.seed, contents.one(), self.mode))
    }
}

/// Compiles a proof text, finished or as a draft. The line is built before anything is put.
pub fn compile(alloc: Global, seed: Seed, text: &[u8], mode: Mode) -> Outcome
    requires text { length text.now < 2 ^ 32 }
    ensures yes { IfYes result (λ put line. IsCompiledTo (gaps_of mode) text.now put line) }
    ensures short { IfYes result (λ put line. IsShort put) }
    ensures no { IfNo result (λ line. IsNotCompiled (gaps_of mode) text.now line) }
    ensures only_yes { (put : Option (List ℕ)) (line : List ℕ) → IsCompiledTo (gaps_of mode) text.now put line → OnNo result ⊥ }
    ensures only_no { (line : List ℕ) → IsNotCompiled (gaps_of mode) text.now line → OnYes result ⊥ }
{
    compilation_is_decided();
    let compiled = compile_bytes(alloc, seed, text, mode);
    if let Compiled::Mem = compiled {
        return Outcome::Mem;
    }
    let Ok(line) = compiled_line(alloc, &compiled) else {
        return Outcome::Mem;
    };
    match compiled {
        Compiled::Bytes(bytes) => Outcome::Yes {
            put: Put::File(bytes),
            text: line,
        },
        _ => Outcome::No { text: line },
    }
}

/// A law, as the contract of an empty function: a text that can be compiled has a yes, and whatever the files hold, one
/// line at the most is the answer.
pub fn compiling_answers_once()
    ensures { (gaps : Bool) (text_name out_name : List ℕ) → IsAnsweredOnce gaps text_name out_name }
{
    compilation_is_decided();
    texts_have_one_file();
    compilable_texts_have_files();
}
