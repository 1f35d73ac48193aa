//! The proof that a theorem's body makes.
ghost use Rattle.std.specs.Prelude.{◌≡◌, ◌<◌, IfOk, List, OnOk, Option};
ghost use Rattle.mz_logic_theory.specs.Declaration.{Declaration};
ghost use Rattle.mz_logic_theory.specs.declared.binder.Binder.{Binder};
ghost use Rattle.mz_mmu_theory.specs.Proof.{Proof};
ghost use Rattle.mz_decompile_text.specs.Naming.{vocabulary_by};
ghost use Rattle.mz_decompile_text.specs.ByNumber.{Grows};
ghost use Rattle.mz_decompile.specs.Telling.{IsProved, MakesProof, MakesSome};
ghost use Rattle.mz_trace.specs.Runs.{ClaimsIn, IsTraced};
ghost use Rattle.mz_layout_tables.specs.Heads.{body_bytes};
ghost use Rattle.mz_machine_theory.specs.MachineState.{Declares};
ghost use Rattle.mz_machine_theory.specs.Headings.{heading_of};
ghost use Rattle.mz_machine_env.specs.Before.{tables_before};

use mz_cmd::{Mem, Steps};
use mz_decompile_text::{PairNames, Phrases, retell};
use mz_layout_tables::{Head, Mmb, Rows};
use mz_trace::{Traced, trace_body};
use std::alloc::{AllocError, Global};
use std::marker::Brand;
use std::sync::ledger::{Blank, Ledger};

/// A proof: the sorts of its dummies, the number of its phrase, and its weight.
#[derive(Drop)]
pub struct Proved {
    pub dummies: Vec<u32>,
    pub phrase: usize,
    pub weight: u128,
}

/// The proof that the body of a theorem makes.
pub(crate) fn prove(
    alloc: Global,
    mmb: &Mmb,
    names: &PairNames,
    head: Head,
    before: Rows,
    phrases: &mut Phrases,
) -> Result<Proved, Mem>
    requires { MakesSome mmb.now before head.body head.next }
    ensures grows { OnOk result (Grows phrases.old phrases.new) }
    ensures proved { IfOk result (λ r. (env : List Declaration) (dummies : List Binder) (p : Option Proof)
        → MakesProof mmb.now before env head.body head.next dummies p → IsProved (vocabulary_by names.now) env phrases.new r dummies p) }
{
    let Traced::Run(run) = traced::<Brand>(alloc, Blank::new(1), mmb, head, before) else {
        return Err(AllocError);
    };
    let retold = retell(alloc, &run, names, phrases)?;
    Ok(Proved {
        dummies: run.into_dummies(),
        phrase: retold.phrase,
        weight: retold.weight,
    })
}

/// What the body makes, its steps counted in a ledger of their own.
fn traced<L: Ledger>(alloc: Global, blank: Blank, mmb: &Mmb, head: Head, before: Rows) -> Traced
    requires name { blank.name ≡ L.name }
    requires parts { blank.parts ≡ L.parts }
    requires some { 0 < blank.parts }
    requires makes { MakesSome mmb.now before head.body head.next }
    ensures run { IsTraced (tables_before mmb.now before) (heading_of mmb.now 0x06 before.thms) (body_bytes mmb.now head.body head.next) result }
    ensures claims { (env : List Declaration) → Declares (tables_before mmb.now before) env → ClaimsIn env result }
{
    let mut steps = Steps::<L>::start(blank);
    let body = (head.body, head.next);
    trace_body(alloc, mmb, before.thms, body, &mut steps)
}
