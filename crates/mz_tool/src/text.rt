// A sample's proof text.
ghost use Rattle.std.specs.Prelude.{◌≡◌, ◌+◌, ◌++◌, ◌≤◌, ◌<◌, ◌^◌, IfOk, OnOk, length, string_bytes};
ghost use Rattle.mz_tool.specs.Samples.{body_expression, body_proof, proved_generalization, proved_theorem, sample_text, stated_definition, text_head};

use mz_cmd::Mem;
use std::alloc::Global;

/// The proof text of the sample with `n` definitions. Up to 10,000 definitions it is a file that
/// can be compiled: its length fits 32 bits.
pub fn sample_text(alloc: Global, n: u32) -> Result<Vec<u8>, Mem>
    ensures written { IfOk result (λ text. text.items ≡ sample_text n) }
    ensures short { n ≤ 10000 → IfOk result (λ text. length text.items < 2 ^ 32) }
{
    let mut text = Vec::new(alloc);
    push_head(&mut text)?;
    for k in 0..n {
        push_statements(alloc, k, k + 1, &mut text)?;
    }
    Ok(text)
}

/// Appends the sorts, the terms and the axioms.
fn push_head(text: &mut Vec<u8>) -> Result<(), Mem>
    ensures { OnOk result (text.new.items ≡ text.old.items ++ text_head) }
{
    text.extend_from_slice(b"(sort wff provable)\n")?;
    text.extend_from_slice(b"(sort nat)\n")?;
    text.extend_from_slice(b"(term im ((a wff ()) (b wff ())) (wff ()))\n")?;
    text.extend_from_slice(b"(term all ((x nat) (p wff (x))) (wff ()))\n")?;
    text.extend_from_slice(b"(axiom ax_1 ((a wff ()) (b wff ())) () (im a (im b a)))\n")?;
    text.extend_from_slice(b"(axiom ax_mp ((a wff ()) (b wff ())) ((im a b) a) b)\n")?;
    text.extend_from_slice(b"(axiom ax_gen ((x nat) (p wff (x))) (p) (all x p))\n")?;
    Ok(())
}

/// Appends the definition with number `i` and its theorems; `k` is the number before it.
fn push_statements(alloc: Global, k: u32, i: u32, text: &mut Vec<u8>) -> Result<(), Mem>
    ensures { OnOk result (text.new.items ≡ text.old.items ++ stated_definition k i ++ proved_theorem k i ++ proved_generalization i) }
{
    let definition = stated_definition(alloc, k, i)?;
    text.extend_from_slice(definition.as_bytes())?;
    let theorem = proved_theorem(alloc, k, i)?;
    text.extend_from_slice(theorem.as_bytes())?;
    let generalization = proved_generalization(alloc, i)?;
    text.extend_from_slice(generalization.as_bytes())?;
    Ok(())
}

fn stated_definition(alloc: Global, k: u32, i: u32) -> Result<String, Mem>
    ensures { IfOk result (λ line. string_bytes line ≡ stated_definition k i) }
{
    let body = body_expression(alloc, k)?;
    format!(in alloc; "(def d{i} ((a wff ())) (wff ()) () {body})\n")
}

/// What the definition after number `k` stands for.
fn body_expression(alloc: Global, k: u32) -> Result<String, Mem>
    ensures { IfOk result (λ body. string_bytes body ≡ body_expression k) }
{
    if k == 0 {
        format!(in alloc; "(im a (im a a))")
    } else {
        format!(in alloc; "(im a (d{k} a))")
    }
}

/// The theorem that the definition holds, proved by unfolding it.
fn proved_theorem(alloc: Global, k: u32, i: u32) -> Result<String, Mem>
    ensures { IfOk result (λ line. string_bytes line ≡ proved_theorem k i) }
{
    let body = body_expression(alloc, k)?;
    let proof = body_proof(alloc, k)?;
    format!(in alloc;
        "(theorem t{i} ((a wff ())) () (d{i} a) () (:conv (d{i} a) (:unfold d{i} (a) () {body}) {proof}))\n"
    )
}

/// The proof of what the definition stands for.
fn body_proof(alloc: Global, k: u32) -> Result<String, Mem>
    ensures { IfOk result (λ proof. string_bytes proof ≡ body_proof k) }
{
    if k == 0 {
        format!(in alloc; "(ax_1 (a a))")
    } else {
        format!(in alloc; "(ax_mp ((d{k} a) (im a (d{k} a))) (ax_1 ((d{k} a) a)) (t{k} (a)))")
    }
}

/// The theorem that the definition holds of each value of a variable.
fn proved_generalization(alloc: Global, i: u32) -> Result<String, Mem>
    ensures { IfOk result (λ line. string_bytes line ≡ proved_generalization i) }
{
    format!(in alloc;
        "(theorem g{i} ((x nat) (p wff (x))) () (all x (d{i} p)) () (ax_gen (x (d{i} p)) (t{i} (p))))\n"
    )
}
