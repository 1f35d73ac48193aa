//! Reading a statement.
ghost use Rattle.std.specs.Prelude.{◌≡◌, ◌<◌, ◌^◌, ◌+◌, [], Bool, IfOk, IfErr, OnOk, length};
ghost use Rattle.mz_logic_theory.specs.Tree.{none};
ghost use Rattle.mz_logic_theory.specs.View.{tree};
ghost use Rattle.mz_sexpr.specs.Node.{place};
ghost use Rattle.mz_sexpr.specs.Number.{node_count, node_at};
ghost use Rattle.mz_mmu_theory.specs.Expressions.{AreDummies, IsExpr, IsExprList};
ghost use Rattle.mz_mmu_theory.specs.Proofs.{IsProof};
ghost use Rattle.mz_mmu_theory.specs.Cursor.{nodes_from, IsThere, node_size, nodes_size};
ghost use Rattle.mz_mmu_theory.specs.Name.{scope_of};
ghost use Rattle.mz_mmu_theory.specs.Statements.{no_modifiers, AreModifiers, IsHyp, AreNamedHyps, IsDeclared, IsLocal, IsStatement};
ghost use Rattle.mz_mmu_theory.specs.declared.kind.Kind.TheVariants.{Sort as sort_kind, Term as term_kind, Axiom as axiom_kind, Def as def_kind, Theorem as theorem_kind};
ghost use Rattle.mz_mmu_theory.specs.FormOrder.{proof_asked};
ghost use Rattle.mz_mmu_theory.specs.StatementOrder.{claims_asked, declared_asked, defined_asked, hyp_asked, hyps_asked, local_asked, modifiers_asked, plain_claims_asked, proved_asked, statement_asked};
ghost use Rattle.mz_mmu_forms.specs.ScopeView.{names as names_view, scope};
ghost use Rattle.mz_mmu_theory.specs.StatementView.{modifiers as modifiers_view, stated};
ghost use Rattle.mz_mmu_theory.specs.Stops.{Stops};

use mz_logic_theory::{Binders, Decl, Expr, Hyps, TermDecl, TermForm, ThmDecl, ThmForm};
use mz_mmu_forms::{NameTable, Reader, Scope, Space};
use mz_mmu_theory::{Declared, Kind, Modifiers, ProofBox, Stop, is};
use mz_sexpr::U;

/// A sort's modifiers, from the first on.
fn modifiers(reader: &Reader<'_, '_>, first: Option<u32>) -> Result<Modifiers, Stop>
    requires { IsThere reader.now.nodes.now first }
    ensures read { IfOk result (λ m. AreModifiers no_modifiers (nodes_from reader.now.nodes.now first) (modifiers_view m)) }
    ensures stops { IfErr result (λ stop. Stops stop (modifiers_asked no_modifiers (nodes_from reader.now.nodes.now first))) }
{
    let mut modifiers = Modifiers::NONE;
    let mut left = first;
    while let Some(n) = left {
        let Some(next) = modifiers.with(reader.word(n)) else {
            return Err(reader.wrong(n, U::Form));
        };
        modifiers = next;
        left = reader.nodes.next(n);
    }
    Ok(modifiers)
}

/// A hypothesis of a theorem, with its name.
fn hyp<'a>(
    reader: &Reader<'_, 'a>,
    sc: &Scope<'_, 'a>,
    labels: &Space<'a>,
    n: u32,
) -> Result<(&'a [u8], Expr), Stop>
    requires { n < node_count reader.now.nodes.now }
    ensures read { IfOk result (λ p. IsHyp (scope sc.now) labels.now (node_at reader.now.nodes.now n) p.0.now (tree p.1)) }
    ensures stops { IfErr result (λ stop. Stops stop (hyp_asked (scope sc.now) labels.now (node_at reader.now.nodes.now n))) }
{
    let Some((name, expr)) = reader.two(reader.nodes.first(n)) else {
        return Err(reader.wrong(n, U::Form));
    };
    let name = reader.new_name(labels, name)?;
    let expr = reader.expr(sc, expr)?;
    Ok((name, expr))
}

/// The hypotheses of a theorem; their names are put into the space, which is empty.
fn hyps<'a>(
    reader: &Reader<'_, 'a>,
    sc: &Scope<'_, 'a>,
    labels: &mut Space<'a>,
    n: u32,
) -> Result<Hyps, Stop>
    requires within { n < node_count reader.now.nodes.now }
    requires none { labels.old ≡ [] }
    requires few { node_size (node_at reader.now.nodes.now n) < 2 ^ 32 }
    ensures read { IfOk result (λ es. AreNamedHyps (scope sc.now) (node_at reader.now.nodes.now n) es labels.new) }
    ensures stops { IfErr result (λ stop. Stops stop (hyps_asked (scope sc.now) (node_at reader.now.nodes.now n))) }
{
    let mut hyps = Hyps::new(reader.alloc);
    push_hyps(reader, sc, labels, &mut hyps, n)?;
    Ok(hyps)
}

/// Adds them.
fn push_hyps<'a>(
    reader: &Reader<'_, 'a>,
    sc: &Scope<'_, 'a>,
    labels: &mut Space<'a>,
    hyps: &mut Hyps,
    n: u32,
) -> Result<(), Stop>
    requires within { n < node_count reader.now.nodes.now }
    requires none { labels.old ≡ [] }
    requires no_hyps { hyps.old ≡ none }
    requires few { node_size (node_at reader.now.nodes.now n) < 2 ^ 32 }
    ensures read { OnOk result (AreNamedHyps (scope sc.now) (node_at reader.now.nodes.now n) hyps.new labels.new) }
    ensures stops { IfErr result (λ stop. Stops stop (hyps_asked (scope sc.now) (node_at reader.now.nodes.now n))) }
{
    let mut left = reader.list(n)?;
    while let Some(m) = left {
        let (name, expr) = hyp(reader, sc, labels, m)?;
        labels.push(name)?;
        hyps.push(expr, 1)?;
        left = reader.nodes.next(m);
    }
    Ok(())
}

/// What is left of `(sort N mod ..)`.
fn sort<'a>(
    reader: &Reader<'_, 'a>,
    names: &NameTable<'a>,
    n: u32,
    rest: Option<u32>,
) -> Result<Declared<'a>, Stop>
    requires within { n < node_count reader.now.nodes.now }
    requires there { IsThere reader.now.nodes.now rest }
    requires few { nodes_size (nodes_from reader.now.nodes.now rest) < 2 ^ 32 }
    ensures read { IfOk result (λ d. (mark : Bool) → IsDeclared (names_view names.now) sort_kind (nodes_from reader.now.nodes.now rest) (stated mark d)) }
    ensures stops { IfErr result (λ stop. Stops stop (declared_asked sort_kind (place (node_at reader.now.nodes.now n)) (names_view names.now) (nodes_from reader.now.nodes.now rest))) }
{
    let Some(name) = rest else {
        return Err(reader.wrong(n, U::Form));
    };
    let word = reader.new_name(&names.sorts, name)?;
    let modifiers = modifiers(reader, reader.nodes.next(name))?;
    Ok(Declared {
        name: word,
        decl: Decl::Sort(modifiers.mods()),
        dummies: Binders::new(reader.alloc),
        proof: None,
    })
}

/// What is left of `(term N (binder ..) (s (dep ..)))`.
fn term<'a>(
    reader: &Reader<'_, 'a>,
    names: &NameTable<'a>,
    vars: &mut Space<'a>,
    n: u32,
    rest: Option<u32>,
) -> Result<Declared<'a>, Stop>
    requires no_variables { vars.old ≡ [] }
    requires within { n < node_count reader.now.nodes.now }
    requires there { IsThere reader.now.nodes.now rest }
    requires few { nodes_size (nodes_from reader.now.nodes.now rest) < 2 ^ 32 }
    ensures read { IfOk result (λ d. (mark : Bool) → IsDeclared (names_view names.now) term_kind (nodes_from reader.now.nodes.now rest) (stated mark d)) }
    ensures stops { IfErr result (λ stop. Stops stop (declared_asked term_kind (place (node_at reader.now.nodes.now n)) (names_view names.now) (nodes_from reader.now.nodes.now rest))) }
{
    let Some((name, params, result)) = reader.three(rest) else {
        return Err(reader.wrong(n, U::Form));
    };
    let name = reader.new_name(&names.terms, name)?;
    let params = reader.params(names, vars, params)?;
    let result = reader.result(names, vars, result)?;
    let form = TermForm::Plain;
    Ok(Declared {
        name,
        decl: Decl::Term(TermDecl {
            params,
            result,
            form,
        }),
        dummies: Binders::new(reader.alloc),
        proof: None,
    })
}

/// The hypotheses and the conclusion of an axiom that sees these variables.
fn plain_claims<'a>(
    reader: &Reader<'_, 'a>,
    names: &NameTable<'a>,
    vars: &Space<'a>,
    hyps_at: u32,
    conclusion_at: u32,
) -> Result<(Hyps, Expr), Stop>
    requires hyps_within { hyps_at < node_count reader.now.nodes.now }
    requires conclusion_within { conclusion_at < node_count reader.now.nodes.now }
    ensures read { IfOk result (λ p. IsExprList (scope_of (names_view names.now) vars.now) (node_at reader.now.nodes.now hyps_at) p.0
        × IsExpr (scope_of (names_view names.now) vars.now) (node_at reader.now.nodes.now conclusion_at) (tree p.1)) }
    ensures stops { IfErr result (λ stop. Stops stop (plain_claims_asked (scope_of (names_view names.now) vars.now)
        (node_at reader.now.nodes.now hyps_at) (node_at reader.now.nodes.now conclusion_at))) }
{
    let sc = Scope { names, vars };
    let formulas = reader.expr_list(&sc, hyps_at)?;
    let conclusion = reader.expr(&sc, conclusion_at)?;
    let hyps = Hyps::of_each(reader.alloc, formulas)?;
    Ok((hyps, conclusion))
}

/// What is left of `(axiom N (binder ..) (expr ..) expr)`.
fn axiom<'a>(
    reader: &Reader<'_, 'a>,
    names: &NameTable<'a>,
    vars: &mut Space<'a>,
    n: u32,
    rest: Option<u32>,
) -> Result<Declared<'a>, Stop>
    requires no_variables { vars.old ≡ [] }
    requires within { n < node_count reader.now.nodes.now }
    requires there { IsThere reader.now.nodes.now rest }
    requires few { nodes_size (nodes_from reader.now.nodes.now rest) < 2 ^ 32 }
    ensures read { IfOk result (λ d. (mark : Bool) → IsDeclared (names_view names.now) axiom_kind (nodes_from reader.now.nodes.now rest) (stated mark d)) }
    ensures stops { IfErr result (λ stop. Stops stop (declared_asked axiom_kind (place (node_at reader.now.nodes.now n)) (names_view names.now) (nodes_from reader.now.nodes.now rest))) }
{
    let Some((name, params, hyps, conclusion)) = reader.four(rest) else {
        return Err(reader.wrong(n, U::Form));
    };
    let name = reader.new_name(&names.assertions, name)?;
    let params = reader.params(names, vars, params)?;
    let (hyps, conclusion) = plain_claims(reader, names, vars, hyps, conclusion)?;
    let form = ThmForm::Axiom;
    Ok(Declared {
        name,
        decl: Decl::Thm(ThmDecl {
            form,
            params,
            hyps,
            conclusion,
        }),
        dummies: Binders::new(reader.alloc),
        proof: None,
    })
}

/// The dummies and the body of a definition that sees these variables.
fn defined<'a>(
    reader: &Reader<'_, 'a>,
    names: &NameTable<'a>,
    vars: &mut Space<'a>,
    dummies_at: u32,
    body_at: u32,
) -> Result<(Binders, Expr), Stop>
    requires dummies_within { dummies_at < node_count reader.now.nodes.now }
    requires body_within { body_at < node_count reader.now.nodes.now }
    requires few_dummies { length vars.old + node_size (node_at reader.now.nodes.now dummies_at) < 2 ^ 32 }
    ensures read { IfOk result (λ p. AreDummies (names_view names.now) vars.old (node_at reader.now.nodes.now dummies_at) p.0 vars.new
        × IsExpr (scope_of (names_view names.now) vars.new) (node_at reader.now.nodes.now body_at) (tree p.1)) }
    ensures stops { IfErr result (λ stop. Stops stop (defined_asked (names_view names.now) vars.old (node_at reader.now.nodes.now dummies_at) (node_at reader.now.nodes.now body_at))) }
{
    let dummies = reader.dummies(names, vars, dummies_at)?;
    let body = reader.expr(&Scope { names, vars }, body_at)?;
    Ok((dummies, body))
}

/// What is left of `(def N (binder ..) (s (dep ..)) (dummy ..) expr)`.
fn def<'a>(
    reader: &Reader<'_, 'a>,
    names: &NameTable<'a>,
    vars: &mut Space<'a>,
    n: u32,
    rest: Option<u32>,
) -> Result<Declared<'a>, Stop>
    requires no_variables { vars.old ≡ [] }
    requires within { n < node_count reader.now.nodes.now }
    requires there { IsThere reader.now.nodes.now rest }
    requires few { nodes_size (nodes_from reader.now.nodes.now rest) < 2 ^ 32 }
    ensures read { IfOk result (λ d. (mark : Bool) → IsDeclared (names_view names.now) def_kind (nodes_from reader.now.nodes.now rest) (stated mark d)) }
    ensures stops { IfErr result (λ stop. Stops stop (declared_asked def_kind (place (node_at reader.now.nodes.now n)) (names_view names.now) (nodes_from reader.now.nodes.now rest))) }
{
    let Some((name, params, result, dummies, body)) = reader.five(rest) else {
        return Err(reader.wrong(n, U::Form));
    };
    let name = reader.new_name(&names.terms, name)?;
    let params = reader.params(names, vars, params)?;
    let result = reader.result(names, vars, result)?;
    let (dummies, body) = defined(reader, names, vars, dummies, body)?;
    let form = TermForm::Body { dummies, body };
    Ok(Declared {
        name,
        decl: Decl::Term(TermDecl {
            params,
            result,
            form,
        }),
        dummies: Binders::new(reader.alloc),
        proof: None,
    })
}

/// The hypotheses and the conclusion of a theorem that sees these variables.
fn claims<'a>(
    reader: &Reader<'_, 'a>,
    names: &NameTable<'a>,
    vars: &Space<'a>,
    labels: &mut Space<'a>,
    hyps_at: u32,
    conclusion_at: u32,
) -> Result<(Hyps, Expr), Stop>
    requires hyps_within { hyps_at < node_count reader.now.nodes.now }
    requires conclusion_within { conclusion_at < node_count reader.now.nodes.now }
    requires none { labels.old ≡ [] }
    requires few { node_size (node_at reader.now.nodes.now hyps_at) < 2 ^ 32 }
    ensures read { IfOk result (λ p. AreNamedHyps (scope_of (names_view names.now) vars.now) (node_at reader.now.nodes.now hyps_at) p.0 labels.new
        × IsExpr (scope_of (names_view names.now) vars.now) (node_at reader.now.nodes.now conclusion_at) (tree p.1)) }
    ensures stops { IfErr result (λ stop. Stops stop (claims_asked (scope_of (names_view names.now) vars.now) (node_at reader.now.nodes.now hyps_at) (node_at reader.now.nodes.now conclusion_at))) }
{
    let sc = Scope { names, vars };
    let hyps = hyps(reader, &sc, labels, hyps_at)?;
    let conclusion = reader.expr(&sc, conclusion_at)?;
    Ok((hyps, conclusion))
}

/// A proof that sees these variables and hypotheses, and no let yet.
fn proof_over<'a>(
    reader: &Reader<'_, 'a>,
    names: &NameTable<'a>,
    vars: &Space<'a>,
    labels: &Space<'a>,
    n: u32,
) -> Result<ProofBox, Stop>
    requires within { n < node_count reader.now.nodes.now }
    requires few { node_size (node_at reader.now.nodes.now n) < 2 ^ 32 }
    ensures read { IfOk result (IsProof (scope_of (names_view names.now) vars.now) labels.now [] (node_at reader.now.nodes.now n)) }
    ensures stops { IfErr result (λ stop. Stops stop (proof_asked (scope_of (names_view names.now) vars.now) labels.now [] (node_at reader.now.nodes.now n))) }
{
    let mut lets = Space::new(reader.alloc, names.hashing);
    reader.boxed_proof(&Scope { names, vars }, labels, &mut lets, n)
}

/// The dummies and the proof of a theorem that sees these variables and hypotheses.
fn proved<'a>(
    reader: &Reader<'_, 'a>,
    names: &NameTable<'a>,
    vars: &mut Space<'a>,
    labels: &Space<'a>,
    dummies_at: u32,
    proof_at: u32,
) -> Result<(Binders, ProofBox), Stop>
    requires dummies_within { dummies_at < node_count reader.now.nodes.now }
    requires proof_within { proof_at < node_count reader.now.nodes.now }
    requires few_dummies { length vars.old + node_size (node_at reader.now.nodes.now dummies_at) < 2 ^ 32 }
    requires few { node_size (node_at reader.now.nodes.now proof_at) < 2 ^ 32 }
    ensures read { IfOk result (λ p. AreDummies (names_view names.now) vars.old (node_at reader.now.nodes.now dummies_at) p.0 vars.new
        × IsProof (scope_of (names_view names.now) vars.new) labels.now [] (node_at reader.now.nodes.now proof_at) p.1) }
    ensures stops { IfErr result (λ stop. Stops stop (proved_asked (names_view names.now) vars.old labels.now (node_at reader.now.nodes.now dummies_at) (node_at reader.now.nodes.now proof_at))) }
{
    let dummies = reader.dummies(names, vars, dummies_at)?;
    let proof = proof_over(reader, names, vars, labels, proof_at)?;
    Ok((dummies, proof))
}

/// What is left of `(theorem N (binder ..) ((h expr) ..) expr (dummy ..) proof)`.
fn theorem<'a>(
    reader: &Reader<'_, 'a>,
    names: &NameTable<'a>,
    vars: &mut Space<'a>,
    labels: &mut Space<'a>,
    n: u32,
    rest: Option<u32>,
) -> Result<Declared<'a>, Stop>
    requires no_variables { vars.old ≡ [] }
    requires no_labels { labels.old ≡ [] }
    requires within { n < node_count reader.now.nodes.now }
    requires there { IsThere reader.now.nodes.now rest }
    requires few { nodes_size (nodes_from reader.now.nodes.now rest) < 2 ^ 32 }
    ensures read { IfOk result (λ d. (mark : Bool) → IsDeclared (names_view names.now) theorem_kind (nodes_from reader.now.nodes.now rest) (stated mark d)) }
    ensures stops { IfErr result (λ stop. Stops stop (declared_asked theorem_kind (place (node_at reader.now.nodes.now n)) (names_view names.now) (nodes_from reader.now.nodes.now rest))) }
{
    let Some((name, params, hyps, conclusion, dummies, proof)) = reader.six(rest) else {
        return Err(reader.wrong(n, U::Form));
    };
    let name = reader.new_name(&names.assertions, name)?;
    let params = reader.params(names, vars, params)?;
    let (hyps, conclusion) = claims(reader, names, vars, labels, hyps, conclusion)?;
    let (dummies, proof) = proved(reader, names, vars, labels, dummies, proof)?;
    let form = ThmForm::Theorem;
    Ok(Declared {
        name,
        decl: Decl::Thm(ThmDecl {
            form,
            params,
            hyps,
            conclusion,
        }),
        dummies,
        proof: Some(proof),
    })
}

/// What is left of a statement of this kind.
fn of_kind<'a>(
    reader: &Reader<'_, 'a>,
    names: &NameTable<'a>,
    vars: &mut Space<'a>,
    labels: &mut Space<'a>,
    kind: Kind,
    n: u32,
    rest: Option<u32>,
) -> Result<Declared<'a>, Stop>
    requires no_variables { vars.old ≡ [] }
    requires no_labels { labels.old ≡ [] }
    requires within { n < node_count reader.now.nodes.now }
    requires there { IsThere reader.now.nodes.now rest }
    requires few { nodes_size (nodes_from reader.now.nodes.now rest) < 2 ^ 32 }
    ensures read { IfOk result (λ d. (mark : Bool) → IsDeclared (names_view names.now) kind (nodes_from reader.now.nodes.now rest) (stated mark d)) }
    ensures stops { IfErr result (λ stop. Stops stop (declared_asked kind (place (node_at reader.now.nodes.now n)) (names_view names.now) (nodes_from reader.now.nodes.now rest))) }
{
    match kind {
        Kind::Sort => sort(reader, names, n, rest),
        Kind::Term => term(reader, names, vars, n, rest),
        Kind::Axiom => axiom(reader, names, vars, n, rest),
        Kind::Def => def(reader, names, vars, n, rest),
        Kind::Theorem => theorem(reader, names, vars, labels, n, rest),
        Kind::Other => Err(reader.wrong(n, U::Form)),
    }
}

/// What is left of a local statement of this kind.
fn local<'a>(
    reader: &Reader<'_, 'a>,
    names: &NameTable<'a>,
    vars: &mut Space<'a>,
    labels: &mut Space<'a>,
    kind: Kind,
    n: u32,
    rest: Option<u32>,
) -> Result<Declared<'a>, Stop>
    requires no_variables { vars.old ≡ [] }
    requires no_labels { labels.old ≡ [] }
    requires within { n < node_count reader.now.nodes.now }
    requires there { IsThere reader.now.nodes.now rest }
    requires few { nodes_size (nodes_from reader.now.nodes.now rest) < 2 ^ 32 }
    ensures read { IfOk result (λ d. (mark : Bool) → IsLocal (names_view names.now) kind (nodes_from reader.now.nodes.now rest) (stated mark d)) }
    ensures stops { IfErr result (λ stop. Stops stop (local_asked kind (place (node_at reader.now.nodes.now n)) (names_view names.now) (nodes_from reader.now.nodes.now rest))) }
{
    match kind {
        Kind::Def => def(reader, names, vars, n, rest),
        Kind::Theorem => theorem(reader, names, vars, labels, n, rest),
        _ => Err(reader.wrong(n, U::Form)),
    }
}

/// The statement that the node is, and whether it's local. The names of its variables and of its
/// hypotheses are put into the spaces, which are empty.
fn statement_in<'a>(
    reader: &Reader<'_, 'a>,
    names: &NameTable<'a>,
    vars: &mut Space<'a>,
    labels: &mut Space<'a>,
    n: u32,
) -> Result<(bool, Declared<'a>), Stop>
    requires no_variables { vars.old ≡ [] }
    requires no_labels { labels.old ≡ [] }
    requires within { n < node_count reader.now.nodes.now }
    requires few { node_size (node_at reader.now.nodes.now n) < 2 ^ 32 }
    ensures read { IfOk result (λ s. IsStatement (names_view names.now) (node_at reader.now.nodes.now n) (stated s.0 s.1)) }
    ensures stops { IfErr result (λ stop. Stops stop (statement_asked (names_view names.now) (node_at reader.now.nodes.now n))) }
{
    let Some(head) = reader.nodes.first(n) else {
        return Err(reader.wrong(n, U::Form));
    };
    let rest = reader.nodes.next(head);
    let word = reader.word(head);
    if !is(word, b"local") {
        let declared = of_kind(reader, names, vars, labels, Kind::of(word), n, rest)?;
        return Ok((false, declared));
    }
    let Some(kind) = rest else {
        return Err(reader.wrong(n, U::Form));
    };
    let declared = local(
        reader,
        names,
        vars,
        labels,
        Kind::of(reader.word(kind)),
        n,
        reader.nodes.next(kind),
    )?;
    Ok((true, declared))
}

/// The statement that the node is, and whether it's local.
///
/// # Errors
///
/// The first of the rules on forms, gaps and names that the node breaks, at its place; or where
/// there is no memory.
pub fn statement<'a>(
    reader: &Reader<'_, 'a>,
    names: &NameTable<'a>,
    n: u32,
) -> Result<(bool, Declared<'a>), Stop>
    requires within { n < node_count reader.now.nodes.now }
    requires few { node_size (node_at reader.now.nodes.now n) < 2 ^ 32 }
    ensures read { IfOk result (λ s. IsStatement (names_view names.now) (node_at reader.now.nodes.now n) (stated s.0 s.1)) }
    ensures stops { IfErr result (λ stop. Stops stop (statement_asked (names_view names.now) (node_at reader.now.nodes.now n))) }
{
    let mut vars = Space::new(reader.alloc, names.hashing);
    let mut labels = Space::new(reader.alloc, names.hashing);
    let read = statement_in(reader, names, &mut vars, &mut labels, n);
    drop(vars);
    drop(labels);
    read
}
