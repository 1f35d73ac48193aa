// A sample's specification.
ghost use Rattle.std.specs.Prelude.{◌≡◌, ◌+◌, ◌++◌, ◌≤◌, ◌<◌, ◌^◌, IfOk, OnOk, length, string_bytes};
ghost use Rattle.mz_tool.specs.Samples.{body_formula, declared_definition, declared_generalization, declared_theorem, sample_specification, specification_head};

use mz_cmd::Mem;
use std::alloc::Global;

/// The specification of the sample with `n` definitions. Up to 10,000 definitions it is a file
/// that can be verified: its length fits 32 bits.
pub fn sample_specification(alloc: Global, n: u32) -> Result<Vec<u8>, Mem>
    ensures written { IfOk result (λ text. text.items ≡ sample_specification n) }
    ensures short { n ≤ 10000 → IfOk result (λ text. length text.items < 2 ^ 32) }
{
    let mut text = Vec::new(alloc);
    push_head(&mut text)?;
    for k in 0..n {
        push_declarations(alloc, k, k + 1, &mut text)?;
    }
    Ok(text)
}

/// Appends the sorts, the terms and the axioms.
fn push_head(text: &mut Vec<u8>) -> Result<(), Mem>
    ensures { OnOk result (text.new.items ≡ text.old.items ++ specification_head) }
{
    text.extend_from_slice(b"provable sort wff;\n")?;
    text.extend_from_slice(b"sort nat;\n")?;
    text.extend_from_slice(b"term im (a b: wff): wff;\n")?;
    text.extend_from_slice(b"term all {x: nat} (p: wff x): wff;\n")?;
    text.extend_from_slice(b"axiom ax_1 (a b: wff): $ im a ( im b a ) $;\n")?;
    text.extend_from_slice(b"axiom ax_mp (a b: wff): $ im a b $ > $ a $ > $ b $;\n")?;
    text.extend_from_slice(b"axiom ax_gen {x: nat} (p: wff x): $ p $ > $ all x p $;\n")?;
    Ok(())
}

/// Appends the definition with number `i` and its theorems; `k` is the number before it.
fn push_declarations(alloc: Global, k: u32, i: u32, text: &mut Vec<u8>) -> Result<(), Mem>
    ensures { OnOk result (text.new.items ≡ text.old.items ++ declared_definition k i ++ declared_theorem i ++ declared_generalization i) }
{
    let definition = declared_definition(alloc, k, i)?;
    text.extend_from_slice(definition.as_bytes())?;
    let theorem = declared_theorem(alloc, i)?;
    text.extend_from_slice(theorem.as_bytes())?;
    let generalization = declared_generalization(alloc, i)?;
    text.extend_from_slice(generalization.as_bytes())?;
    Ok(())
}

fn declared_definition(alloc: Global, k: u32, i: u32) -> Result<String, Mem>
    ensures { IfOk result (λ line. string_bytes line ≡ declared_definition k i) }
{
    let body = body_formula(alloc, k)?;
    format!(in alloc; "def d{i} (a: wff): wff = $ {body} $;\n")
}

/// What the definition after number `k` stands for.
fn body_formula(alloc: Global, k: u32) -> Result<String, Mem>
    ensures { IfOk result (λ formula. string_bytes formula ≡ body_formula k) }
{
    if k == 0 {
        format!(in alloc; "im a ( im a a )")
    } else {
        format!(in alloc; "im a ( d{k} a )")
    }
}

fn declared_theorem(alloc: Global, i: u32) -> Result<String, Mem>
    ensures { IfOk result (λ line. string_bytes line ≡ declared_theorem i) }
{
    format!(in alloc; "theorem t{i} (a: wff): $ d{i} a $;\n")
}

fn declared_generalization(alloc: Global, i: u32) -> Result<String, Mem>
    ensures { IfOk result (λ line. string_bytes line ≡ declared_generalization i) }
{
    format!(in alloc; "theorem g{i} {{x: nat}} (p: wff x): $ all x ( d{i} p ) $;\n")
}
