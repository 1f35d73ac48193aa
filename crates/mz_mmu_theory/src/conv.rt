//! Conversions, with names resolved.
ghost use Rattle.std.specs.Prelude.{◌≡◌, IfOk};
ghost use Rattle.mz_mmu_theory.specs.ConvView.{conversion, conversions};

use mz_logic_theory::{Expr, Exprs};
use std::alloc::{AllocError, Global};
use std::marker::Model;

/// Places of variables.
#[derive(Drop)]
pub struct Vars {
    places: Vec<u32>,
}

impl Model for Vars {
    ghost use Rattle.std.specs.Prelude.{List, ℕ};

    ghost Value = { List ℕ };

    ghost view = { λ a. a.places.items };
}

impl Vars {
    /// These places.
    pub fn from_vec(places: Vec<u32>) -> Vars
        ensures { result ≡ places.items }
    {
        Vars { places }
    }

    /// The places in order.
    pub fn as_slice(&self) -> &[u32]
        ensures { result.now ≡ self.now }
    {
        &self.places
    }
}

/// A conversion, with names resolved: between which two expressions it goes, is the logic's to say.
#[derive(Drop)]
#[cycle(conv)]
pub enum Conv {
    /// An expression is itself.
    Refl(Expr),
    /// The sides turned.
    Sym(ConvBox),
    /// Under a term, by its number.
    Cong(u32, Convs),
    /// A definition, by its number, unfolds: operands for its parameters, variables for its dummies,
    /// and a conversion of the body.
    Unfold(u32, Exprs, Vars, ConvBox),
    /// A gap, from the one expression to the other.
    Gap(Expr, Expr),
}

/// A conversion in another one.
#[derive(Drop)]
#[cycle(conv)]
pub struct ConvBox {
    conv: Box<Conv>,
}

impl Model for ConvBox {
    ghost use Rattle.mz_logic_theory.specs.Conversions.{Conversion};
    ghost use Rattle.mz_mmu_theory.specs.ConvCode.{conv_code, conv_steps};

    ghost Value = { Conversion };

    ghost coded = { conv_code };

    ghost use Rattle.mz_mmu_theory.specs.ConvView.{conversion};

    ghost view = { λ a. conversion a.conv.value };

    ghost size = { conv_steps };

    ghost use Rattle.mz_mmu_theory.specs.ConvFalls.{box_le_steps};

    ghost size_decreases = { λ a h. box_le_steps a.conv.value };
}

impl ConvBox {
    /// A box of this conversion.
    ///
    /// # Errors
    ///
    /// Where there is no memory.
    pub fn new(alloc: Global, conv: Conv) -> Result<ConvBox, AllocError>
        ensures { IfOk result (λ b. b ≡ conversion conv) }
    {
        let conv = Box::new(alloc, conv)?;
        Ok(ConvBox { conv })
    }

    /// The conversion.
    pub fn get(&self) -> &Conv
        ensures { conversion result.now ≡ self.now }
    {
        &self.conv
    }
}

/// A list of conversions.
#[derive(Drop)]
#[cycle(conv)]
pub struct Convs {
    items: Vec<Conv>,
}

impl Model for Convs {
    ghost use Rattle.mz_logic_theory.specs.Conversions.{Conversions};
    ghost use Rattle.mz_mmu_theory.specs.ConvCode.{convs_code, convs_steps};

    ghost Value = { Conversions };

    ghost coded = { convs_code };

    ghost use Rattle.mz_mmu_theory.specs.ConvView.{conversions};

    ghost view = { λ a. conversions a.items.items };

    ghost size = { convs_steps };

    ghost use Rattle.mz_mmu_theory.specs.ConvFalls.{most_le_steps};

    ghost size_decreases = { λ a h. most_le_steps a.items.items };
}

impl Convs {
    /// The list of these conversions.
    pub fn from_vec(items: Vec<Conv>) -> Convs
        ensures { result ≡ conversions items.items }
    {
        Convs { items }
    }

    /// The conversions in order.
    pub fn as_slice(&self) -> &[Conv]
        ensures { conversions result.now ≡ self.now }
    {
        &self.items
    }
}
