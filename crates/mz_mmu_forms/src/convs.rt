//! Reading a conversion.
ghost use Rattle.std.specs.Prelude.{◌≡◌, ◌<◌, ◌+◌, ◌*◌, IfOk, IfErr, ℕ};
ghost use Rattle.mz_sexpr.specs.Node.{Node, place};
ghost use Rattle.mz_sexpr.specs.Number.{node_count, node_at};
ghost use Rattle.mz_mmu_theory.specs.ConvView.{conversion};
ghost use Rattle.mz_mmu_theory.specs.Name.{Scope as Visible};
ghost use Rattle.mz_mmu_theory.specs.Cursor.{nodes_from, IsThere, node_size, nodes_size};
ghost use Rattle.mz_mmu_theory.specs.Proofs.{IsConv, conv_keyword};
ghost use Rattle.mz_mmu_theory.specs.declared.keyword.Keyword.TheVariants.{Refl as refl_word, Sym as sym_word, Unfold as unfold_word, Sorry as sorry_word, Other as no_word};
ghost use Rattle.mz_mmu_theory.specs.FormOrder.{conv_asked, conv_asked_by};
ghost use Rattle.mz_mmu_forms.specs.ConvSteps.{conv_left, conv_turns, ConvWaits, ConvSays, ConvSaysBy, IsNextConv};
ghost use Rattle.mz_mmu_forms.specs.ScopeView.{scope};
ghost use Rattle.mz_mmu_theory.specs.Stops.{Stops};
ghost use Rattle.mz_mmu_theory.specs.declared.fault.Stop.TheVariants.{Mem};

use crate::reader::Reader;
use crate::scope::Scope;
use mz_logic_theory::{Exprs, push_tightly};
use mz_mmu_theory::{Conv, ConvBox, Convs, Keyword, Stop, Vars};
use mz_sexpr::U;

/// What a conversion is read for.
#[derive(Drop)]
pub enum ConvOuter {
    /// The sides turned.
    Sym,
    /// A definition that unfolds: its number, operands and variables.
    Unfold(u32, Exprs, Vars),
    /// A term over conversions: its number, those that have been read, and the node behind the one
    /// that is being read.
    Cong(u32, Vec<Conv>, Option<u32>),
}

/// How far a conversion has been read.
#[derive(Drop)]
pub enum ConvStep {
    /// Up to a conversion within it, which this node is.
    Inner(ConvOuter, u32),
    /// The whole.
    Whole(Conv),
}

impl<'r, 'a> Reader<'r, 'a> {
    /// The conversion that the node is.
    ///
    /// Conversions may stand deep in one another. Those around the one that is being read are kept
    /// in a list, and not on the stack.
    pub(crate) fn conv(&self, sc: &Scope<'_, 'a>, n: u32) -> Result<Conv, Stop>
        requires { n < node_count self.now.nodes.now }
        ensures read { IfOk result (λ c. IsConv (scope sc.now) (node_at self.now.nodes.now n) (conversion c)) }
        ensures stops { IfErr result (λ stop. Stops stop (conv_asked (scope sc.now) (node_at self.now.nodes.now n))) }
    {
        let mut outers: Vec<ConvOuter> = Vec::new(self.alloc);
        let mut step = self.begun_conv(sc, n)?;
        'reading: loop {
            match step {
                ConvStep::Inner(outer, inner) => {
                    outers.push(outer)?;
                    step = self.begun_conv(sc, inner)?;
                }
                ConvStep::Whole(conv) => match outers.pop() {
                    None => return Ok(conv),
                    Some(outer) => step = self.conv_back(outer, conv)?,
                },
            }
        }
    }

    /// What is read first of a conversion.
    fn begun_conv(&self, sc: &Scope<'_, 'a>, n: u32) -> Result<ConvStep, Stop>
        requires { n < node_count self.now.nodes.now }
        ensures says { IfOk result (ConvSays (scope sc.now) self.now.nodes.now (IsConv (scope sc.now) (node_at self.now.nodes.now n)) (conv_asked (scope sc.now) (node_at self.now.nodes.now n))) }
        ensures less { IfOk result (λ step. conv_turns self.now.nodes.now step + 1 < 2 * node_size (node_at self.now.nodes.now n)) }
        ensures stops { IfErr result (λ stop. Stops stop (conv_asked (scope sc.now) (node_at self.now.nodes.now n))) }
    {
        if self.nodes.is_atom(n) {
            let expr = self.expr(sc, n)?;
            return Ok(ConvStep::Whole(Conv::Refl(expr)));
        }
        let Some(head) = self.nodes.first(n) else {
            return Err(self.wrong(n, U::Form));
        };
        self.conv_by(sc, n, head, self.nodes.next(head))
    }

    /// What is read first behind the keyword with which a conversion begins.
    fn conv_by(
        &self,
        sc: &Scope<'_, 'a>,
        n: u32,
        head: u32,
        rest: Option<u32>,
    ) -> Result<ConvStep, Stop>
        requires within { n < node_count self.now.nodes.now }
        requires head { head < node_count self.now.nodes.now }
        requires there { IsThere self.now.nodes.now rest }
        ensures says { IfOk result (ConvSaysBy (scope sc.now) self.now.nodes.now (conv_keyword (node_at self.now.nodes.now head)) (place (node_at self.now.nodes.now n)) (node_at self.now.nodes.now head) rest) }
        ensures less { IfOk result (λ step. conv_turns self.now.nodes.now step < 2 * nodes_size (nodes_from self.now.nodes.now rest) + 2) }
        ensures stops { IfErr result (λ stop. Stops stop (conv_asked_by (scope sc.now) (conv_keyword (node_at self.now.nodes.now head)) (place (node_at self.now.nodes.now n)) (node_at self.now.nodes.now head) (nodes_from self.now.nodes.now rest))) }
    {
        match Keyword::of_conv(self.word(head)) {
            Keyword::Refl => self.refl(sc, n, rest),
            Keyword::Sym => self.sym(n, rest),
            Keyword::Unfold => self.unfold(sc, n, rest),
            Keyword::Sorry => self.gap_conv(sc, n, rest),
            _ => self.cong(sc, head, rest),
        }
    }

    /// What is left of `(:refl expr)`.
    fn refl(&self, sc: &Scope<'_, 'a>, n: u32, rest: Option<u32>) -> Result<ConvStep, Stop>
        requires within { n < node_count self.now.nodes.now }
        requires there { IsThere self.now.nodes.now rest }
        ensures says { IfOk result (λ step. (h : Node) → ConvSaysBy (scope sc.now) self.now.nodes.now refl_word (place (node_at self.now.nodes.now n)) h rest step) }
        ensures less { IfOk result (λ step. conv_turns self.now.nodes.now step < 2 * nodes_size (nodes_from self.now.nodes.now rest) + 2) }
        ensures stops { IfErr result (λ stop. (h : Node) → Stops stop (conv_asked_by (scope sc.now) refl_word (place (node_at self.now.nodes.now n)) h (nodes_from self.now.nodes.now rest))) }
    {
        let Some(expr) = self.one(rest) else {
            return Err(self.wrong(n, U::Form));
        };
        let expr = self.expr(sc, expr)?;
        Ok(ConvStep::Whole(Conv::Refl(expr)))
    }

    /// What is left of `(:sym conv)`.
    fn sym(&self, n: u32, rest: Option<u32>) -> Result<ConvStep, Stop>
        requires within { n < node_count self.now.nodes.now }
        requires there { IsThere self.now.nodes.now rest }
        ensures says { (sc : Visible) → IfOk result (λ step. (h : Node) → ConvSaysBy sc self.now.nodes.now sym_word (place (node_at self.now.nodes.now n)) h rest step) }
        ensures less { IfOk result (λ step. conv_turns self.now.nodes.now step < 2 * nodes_size (nodes_from self.now.nodes.now rest) + 2) }
        ensures stops { (sc : Visible) → IfErr result (λ stop. (h : Node) → Stops stop (conv_asked_by sc sym_word (place (node_at self.now.nodes.now n)) h (nodes_from self.now.nodes.now rest))) }
    {
        match self.one(rest) {
            Some(part) => Ok(ConvStep::Inner(ConvOuter::Sym, part)),
            None => Err(self.wrong(n, U::Form)),
        }
    }

    /// What is left of `(:unfold t (expr ..) (var ..) conv)`.
    fn unfold(&self, sc: &Scope<'_, 'a>, n: u32, rest: Option<u32>) -> Result<ConvStep, Stop>
        requires within { n < node_count self.now.nodes.now }
        requires there { IsThere self.now.nodes.now rest }
        ensures says { IfOk result (λ step. (h : Node) → ConvSaysBy (scope sc.now) self.now.nodes.now unfold_word (place (node_at self.now.nodes.now n)) h rest step) }
        ensures less { IfOk result (λ step. conv_turns self.now.nodes.now step < 2 * nodes_size (nodes_from self.now.nodes.now rest) + 2) }
        ensures stops { IfErr result (λ stop. (h : Node) → Stops stop (conv_asked_by (scope sc.now) unfold_word (place (node_at self.now.nodes.now n)) h (nodes_from self.now.nodes.now rest))) }
    {
        let Some((term, operands, vars, part)) = self.four(rest) else {
            return Err(self.wrong(n, U::Form));
        };
        let term = self.number(&sc.names.terms, term)?;
        let operands = self.expr_list(sc, operands)?;
        let vars = self.variables(sc.vars, vars)?;
        let outer = ConvOuter::Unfold(term, operands, Vars::from_vec(vars));
        Ok(ConvStep::Inner(outer, part))
    }

    /// What is left of `(:sorry expr expr)`, which only a draft may have.
    fn gap_conv(&self, sc: &Scope<'_, 'a>, n: u32, rest: Option<u32>) -> Result<ConvStep, Stop>
        requires within { n < node_count self.now.nodes.now }
        requires there { IsThere self.now.nodes.now rest }
        ensures says { IfOk result (λ step. (h : Node) → ConvSaysBy (scope sc.now) self.now.nodes.now sorry_word (place (node_at self.now.nodes.now n)) h rest step) }
        ensures less { IfOk result (λ step. conv_turns self.now.nodes.now step < 2 * nodes_size (nodes_from self.now.nodes.now rest) + 2) }
        ensures stops { IfErr result (λ stop. (h : Node) → Stops stop (conv_asked_by (scope sc.now) sorry_word (place (node_at self.now.nodes.now n)) h (nodes_from self.now.nodes.now rest))) }
    {
        if !sc.names.mode.allows_gaps() {
            return Err(self.wrong(n, U::Sorry));
        }
        let Some((left, right)) = self.two(rest) else {
            return Err(self.wrong(n, U::Form));
        };
        let left = self.expr(sc, left)?;
        let right = self.expr(sc, right)?;
        Ok(ConvStep::Whole(Conv::Gap(left, right)))
    }

    /// `(t conv ..)`.
    fn cong(&self, sc: &Scope<'_, 'a>, head: u32, rest: Option<u32>) -> Result<ConvStep, Stop>
        requires within { head < node_count self.now.nodes.now }
        requires there { IsThere self.now.nodes.now rest }
        ensures says { IfOk result (λ step. (at : ℕ) → ConvSaysBy (scope sc.now) self.now.nodes.now no_word at (node_at self.now.nodes.now head) rest step) }
        ensures less { IfOk result (λ step. conv_turns self.now.nodes.now step < 2 * nodes_size (nodes_from self.now.nodes.now rest) + 2) }
        ensures stops { IfErr result (λ stop. (at : ℕ) → Stops stop (conv_asked_by (scope sc.now) no_word at (node_at self.now.nodes.now head) (nodes_from self.now.nodes.now rest))) }
    {
        let term = self.number(&sc.names.terms, head)?;
        let convs: Vec<Conv> = Vec::new(self.alloc);
        Ok(self.next_conv(term, convs, rest))
    }

    /// A term with its conversions so far, and the node of the next one.
    fn next_conv(&self, term: u32, convs: Vec<Conv>, left: Option<u32>) -> ConvStep
        requires { IsThere self.now.nodes.now left }
        ensures { IsNextConv self.now.nodes.now term convs.items left result }
    {
        match left {
            None => ConvStep::Whole(Conv::Cong(term, Convs::from_vec(convs))),
            Some(n) => {
                let outer = ConvOuter::Cong(term, convs, self.nodes.next(n));
                ConvStep::Inner(outer, n)
            }
        }
    }

    /// What a conversion was read for, with it.
    fn conv_back(&self, outer: ConvOuter, conv: Conv) -> Result<ConvStep, Stop>
        requires { IsThere self.now.nodes.now (conv_left outer) }
        ensures says { (sc : Visible) (m inner : Node) → IfOk result (λ step. ConvWaits sc self.now.nodes.now (IsConv sc m) (conv_asked sc m) inner outer → IsConv sc inner (conversion conv)
            → ConvSays sc self.now.nodes.now (IsConv sc m) (conv_asked sc m) step) }
        ensures less { IfOk result (λ step. conv_turns self.now.nodes.now step < 2 * nodes_size (nodes_from self.now.nodes.now (conv_left outer)) + 2) }
        ensures mem { IfErr result (λ stop. stop ≡ Mem) }
    {
        match outer {
            ConvOuter::Sym => {
                let part = ConvBox::new(self.alloc, conv)?;
                Ok(ConvStep::Whole(Conv::Sym(part)))
            }
            ConvOuter::Unfold(term, operands, vars) => {
                let part = ConvBox::new(self.alloc, conv)?;
                Ok(ConvStep::Whole(Conv::Unfold(term, operands, vars, part)))
            }
            ConvOuter::Cong(term, mut convs, left) => {
                push_tightly(&mut convs, conv)?;
                Ok(self.next_conv(term, convs, left))
            }
        }
    }
}
