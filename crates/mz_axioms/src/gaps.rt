// The text that says which theorems rest on a gap.
ghost use Rattle.std.specs.Prelude.{◌≡◌, ◌++◌, length, IfOk, OnOk};
ghost use Rattle.mz_axioms.specs.Gaps.{count_line, gap_line, gap_lines};

use mz_cmd::Mem;
use mz_spec::NamedSpec;
use std::alloc::Global;

/// How many of a specification's `theorems` rest on a gap, and a line with the name of each. They are
/// given by the places of their declarations.
pub fn gaps_text(
    alloc: Global,
    spec: &NamedSpec,
    theorems: u32,
    places: &[u32],
) -> Result<Vec<u8>, Mem>
    ensures { IfOk result (λ text. text.items ≡ count_line (length places.now) theorems ++ gap_lines spec.now.text.now spec.now.declared places.now) }
{
    let mut text = count_line(alloc, places.len(), theorems)?;
    put_gaps(&mut text, spec, places)?;
    Ok(text)
}

fn count_line(alloc: Global, gaps: usize, theorems: u32) -> Result<Vec<u8>, Mem>
    ensures { IfOk result (λ line. line.items ≡ count_line gaps theorems) }
{
    let line = format!(in alloc; "draft: {gaps} of {theorems} theorems rest on a gap\n")?;
    Ok(line.into_bytes())
}

fn put_gaps(text: &mut Vec<u8>, spec: &NamedSpec, places: &[u32]) -> Result<(), Mem>
    ensures { OnOk result (text.new.items ≡ text.old.items ++ gap_lines spec.now.text.now spec.now.declared places.now) }
{
    'places: for &place in places {
        put_gap(text, spec, place)?;
    }
    Ok(())
}

fn put_gap(text: &mut Vec<u8>, spec: &NamedSpec, place: u32) -> Result<(), Mem>
    ensures { OnOk result (text.new.items ≡ text.old.items ++ gap_line spec.now.text.now spec.now.declared place) }
{
    text.extend_from_slice(b"gap ")?;
    text.extend_from_slice(spec.name(place))?;
    text.push(b'\n')?;
    Ok(())
}
