//! Proofs, with names resolved.
ghost use Rattle.std.specs.Prelude.{◌≡◌, IfOk};
ghost use Rattle.mz_mmu_theory.specs.ProofView.{proof_view, proofs_view};

use crate::conv::ConvBox;
use mz_logic_theory::{Expr, Exprs};
use std::alloc::{AllocError, Global};
use std::marker::Model;

/// A proof, with names resolved.
#[derive(Drop)]
#[cycle(proof)]
pub enum Proof {
    /// A hypothesis, by its number.
    Hyp(u32),
    /// A visible let, counted from the outermost from 0.
    Name(u32),
    /// An axiom or theorem, by its number among them; operands for its parameters, and proofs of its
    /// hypotheses.
    Cite(u32, Exprs, Proofs),
    /// An expression, which converts to what is proved.
    Conv(Expr, ConvBox, ProofBox),
    /// A let, and the proof in which it is visible.
    Let(ProofBox, ProofBox),
    /// A gap, in the place of a proof of the expression.
    Gap(Expr),
}

/// A proof in another one.
#[derive(Drop)]
#[cycle(proof)]
pub struct ProofBox {
    proof: Box<Proof>,
}

impl Model for ProofBox {
    ghost use Rattle.mz_mmu_theory.specs.Proof.{Proof};
    ghost use Rattle.mz_mmu_theory.specs.ProofCode.{proof_code, proof_steps};

    ghost Value = { Proof };

    ghost coded = { proof_code };

    ghost use Rattle.mz_mmu_theory.specs.ProofView.{proof_view};

    ghost view = { λ a. proof_view a.proof.value };

    ghost size = { proof_steps };

    ghost use Rattle.mz_mmu_theory.specs.ProofFalls.{box_le_steps};

    ghost size_decreases = { λ a h. box_le_steps a.proof.value };
}

impl ProofBox {
    /// A box of this proof.
    ///
    /// # Errors
    ///
    /// Where there is no memory.
    pub fn new(alloc: Global, proof: Proof) -> Result<ProofBox, AllocError>
        ensures { IfOk result (λ b. b ≡ proof_view proof) }
    {
        let proof = Box::new(alloc, proof)?;
        Ok(ProofBox { proof })
    }

    /// The proof.
    pub fn get(&self) -> &Proof
        ensures { proof_view result.now ≡ self.now }
    {
        &self.proof
    }
}

/// A list of proofs.
#[derive(Drop)]
#[cycle(proof)]
pub struct Proofs {
    items: Vec<Proof>,
}

impl Model for Proofs {
    ghost use Rattle.mz_mmu_theory.specs.Proof.{Proofs};
    ghost use Rattle.mz_mmu_theory.specs.ProofCode.{proofs_code, proofs_steps};

    ghost Value = { Proofs };

    ghost coded = { proofs_code };

    ghost use Rattle.mz_mmu_theory.specs.ProofView.{proofs_view};

    ghost view = { λ a. proofs_view a.items.items };

    ghost size = { proofs_steps };

    ghost use Rattle.mz_mmu_theory.specs.ProofFalls.{most_le_steps};

    ghost size_decreases = { λ a h. most_le_steps a.items.items };
}

impl Proofs {
    /// The list of these proofs.
    pub fn from_vec(items: Vec<Proof>) -> Proofs
        ensures { result ≡ proofs_view items.items }
    {
        Proofs { items }
    }

    /// The proofs in order.
    pub fn as_slice(&self) -> &[Proof]
        ensures { proofs_view result.now ≡ self.now }
    {
        &self.items
    }
}
