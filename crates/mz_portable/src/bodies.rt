//! The bodies of a binary on the machine by identity.
ghost use Rattle.std.specs.Prelude.{⊤};
ghost use Rattle.mz_pmachine_theory.specs.FilesByIdentity.{portable_standard};

use mz_binary::Bodies;
use mz_cmd::Steps;
use mz_layout_tables::{Mmb, Rows};
use mz_machine::BodyChecked;
use mz_machine_env::BodyKind;
use mz_pmachine::{PortableScratch, check_portable_in};
use mz_store::Seed;
use std::alloc::Global;
use std::sync::ledger::Ledger;

/// Finished proofs as verifiers hold them that compare by identity: the machine over numbered nodes, which
/// lets no gap through and has no use for the seed.
#[derive(Drop)]
pub struct PortableBodies {
    scratch: PortableScratch,
}

impl Bodies for PortableBodies {
    ghost STANDARD = { portable_standard };

    ghost suits = { λ bodies file. ⊤ };

    fn allows_gaps() -> bool {
        false
    }

    fn new(_: Seed) -> PortableBodies {
        PortableBodies {
            scratch: PortableScratch::new(),
        }
    }

    fn check_body<L: Ledger>(
        &mut self,
        alloc: Global,
        mmb: &Mmb,
        kind: BodyKind,
        row: u32,
        before: Rows,
        body: (u32, u32),
        steps: &mut Steps<L>,
    ) -> BodyChecked {
        check_portable_in(
            alloc,
            &mut self.scratch,
            mmb,
            kind,
            row,
            before,
            body,
            steps,
        )
    }
}
