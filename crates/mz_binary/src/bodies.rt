//! Who runs the bodies of a binary.
ghost use Rattle.std.specs.Prelude.{◌≡◌, ◌≤◌, ◌+◌, ◌-◌, ◌*◌, ℕ, List, length};
ghost use Rattle.mz_machine_env.specs.OwnRow.{MayRun, byte_of};
ghost use Rattle.mz_machine_theory.specs.Headings.{heading_of};
ghost use Rattle.mz_machine_env.specs.Before.{tables_before};
ghost use Rattle.mz_machine.specs.BodyAnswers.{UnlessMem};
ghost use Rattle.mz_machine.specs.Tidiness.{IsTidy};
ghost use Rattle.mz_layout_tables.specs.Heads.{body_bytes};
ghost use Rattle.mz_binary.specs.BodyRuns.{IsBodyRun};
ghost use Rattle.mz_binary_theory.specs.Standards.{Standard, draft_standard, lets_gaps, run_by, strict_standard};

use mz_base::Mode;
use mz_cmd::Steps;
use mz_layout_tables::{Mmb, Rows};
use mz_machine::{BodyChecked, BodyScratch, check_body_after};
use mz_machine_env::BodyKind;
use mz_store::Seed;
use std::alloc::Global;
use std::sync::ledger::Ledger;

/// A machine on which the bodies of a binary run, one after another, with the buffers that each leaves to
/// the next.
pub trait Bodies: Drop {
    /// To what it holds them.
    ghost STANDARD: { Standard };

    /// Whether a gap is let through.
    fn allows_gaps() -> bool
        ensures { result ≡ lets_gaps STANDARD };

    /// What is remembered of bodies is so in the file.
    ghost suits: { Self → List ℕ → Type 0 };

    /// With nothing kept yet. The bodies' terms are numbered with the seed.
    fn new(seed: Seed) -> Self
        ensures { (file : List ℕ) → suits result file };

    /// Runs the body of a statement: a body of this kind, for this row, after these rows.
    fn check_body<L: Ledger>(
        &mut self,
        alloc: Global,
        mmb: &Mmb,
        kind: BodyKind,
        row: u32,
        before: Rows,
        body: (u32, u32),
        steps: &mut Steps<L>,
    ) -> BodyChecked
        requires may_run { MayRun mmb.now (byte_of kind) row before }
        requires order { body.0 ≤ body.1 }
        requires within { body.1 ≤ length mmb.now }
        requires suits { suits self.old mmb.now }
        ensures run { IsBodyRun STANDARD (body_bytes mmb.now body.0 body.1) (run_by STANDARD (tables_before mmb.now before) (heading_of mmb.now (byte_of kind) row) body.0 (body_bytes mmb.now body.0 body.1)) result }
        ensures most { steps.new ≤ steps.old + (body.1 - body.0) * (length mmb.now + 1) }
        ensures steps { UnlessMem result (steps.new ≡ steps.old + STANDARD.steps (tables_before mmb.now before) (heading_of mmb.now (byte_of kind) row) body.0 (body_bytes mmb.now body.0 body.1)) }
        ensures suits { suits self.new mmb.now };
}

/// Finished proofs by the standard machine: the machine over trees, which lets no gap through.
#[derive(Drop)]
pub struct StrictBodies {
    scratch: BodyScratch,
}

impl Bodies for StrictBodies {
    ghost STANDARD = { strict_standard };

    ghost suits = { λ bodies file. IsTidy file bodies.scratch };

    fn allows_gaps() -> bool {
        false
    }

    fn new(seed: Seed) -> StrictBodies {
        StrictBodies {
            scratch: BodyScratch::new(seed),
        }
    }

    fn check_body<L: Ledger>(
        &mut self,
        alloc: Global,
        mmb: &Mmb,
        kind: BodyKind,
        row: u32,
        before: Rows,
        body: (u32, u32),
        steps: &mut Steps<L>,
    ) -> BodyChecked {
        let scratch = &mut self.scratch;
        check_body_after(
            alloc,
            scratch,
            mmb,
            Mode::Strict,
            kind,
            row,
            before,
            body,
            steps,
        )
    }
}

/// Drafts by the standard machine: the machine over trees, which lets gaps through.
#[derive(Drop)]
pub struct DraftBodies {
    scratch: BodyScratch,
}

impl Bodies for DraftBodies {
    ghost STANDARD = { draft_standard };

    ghost suits = { λ bodies file. IsTidy file bodies.scratch };

    fn allows_gaps() -> bool {
        true
    }

    fn new(seed: Seed) -> DraftBodies {
        DraftBodies {
            scratch: BodyScratch::new(seed),
        }
    }

    fn check_body<L: Ledger>(
        &mut self,
        alloc: Global,
        mmb: &Mmb,
        kind: BodyKind,
        row: u32,
        before: Rows,
        body: (u32, u32),
        steps: &mut Steps<L>,
    ) -> BodyChecked {
        let scratch = &mut self.scratch;
        check_body_after(
            alloc,
            scratch,
            mmb,
            Mode::Draft,
            kind,
            row,
            before,
            body,
            steps,
        )
    }
}
