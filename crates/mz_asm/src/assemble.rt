// From a listing to its binary.
ghost use Rattle.std.specs.Prelude.{◌≡◌, ◌≤◌, ◌<◌, ◌^◌, ℕ, List, length};
ghost use Rattle.mz_show.specs.Listing.{IsListing};
ghost use Rattle.mz_asm.specs.Answers.{ReadsLines, WritesOut};
ghost use Rattle.mz_asm.specs.Assembling.{GivesBack, IsAssembly, IsListedBack, IsNormal};
ghost use Rattle.mz_asm.specs.Making.{nothing_made};

use crate::assembled::Assembled;
use crate::builder::Assembly;
use crate::bytes::{behind, place_of};
use crate::expected::Want;
use crate::rule::A;
use crate::stop::Stop;
use mz_layout::LayoutWriter;
use std::alloc::Global;

/// The greatest number of bytes that a binary may have.
const MOST_BYTES: u128 = 4_294_967_295;

/// Assembles a text of at most 4,294,967,295 bytes: the binary where it is a listing, and the first
/// rule that it breaks, at the first line that breaks one, where it is none. The binary is in the normal
/// layout, and the text is its listing; and each such binary comes back from its listing.
pub fn assemble_bytes(alloc: Global, text: &[u8]) -> Assembled
    requires { length text.now < 2 ^ 32 }
    ensures answer { IsAssembly text.now result }
    ensures listed { IsListedBack text.now result }
    ensures back { (file : List ℕ) → IsNormal file → length file < 2 ^ 32 → IsListing file text.now → GivesBack file result }
{
    assembled(alloc, text)
}

/// The answer of [`assemble_bytes`], of which the other two clauses are laws.
fn assembled(alloc: Global, text: &[u8]) -> Assembled
    requires { length text.now < 2 ^ 32 }
    ensures { IsAssembly text.now result }
{
    let mut assembly = Assembly::new(alloc);
    match add_lines(&mut assembly, text) {
        Ok(()) => written(assembly.into_writer()),
        Err(Stop::Refused { line, rule }) => Assembled::Refused { line, rule },
        Err(Stop::Mem) => Assembled::Mem,
    }
}

/// The binary, where it isn't too long.
fn written(writer: LayoutWriter) -> Assembled
    requires { length writer.sorts ≤ 128 }
    ensures { WritesOut writer result }
{
    let count = writer.length();
    if count > MOST_BYTES {
        return Assembled::Limit { count };
    }
    match writer.finish() {
        Ok(bytes) => Assembled::Bytes(bytes),
        Err(_) => Assembled::Mem,
    }
}

/// Adds all lines of a text.
fn add_lines(assembly: &mut Assembly, text: &[u8]) -> Result<(), Stop>
    requires fits { length text.now < 2 ^ 32 }
    requires fresh { assembly.old ≡ nothing_made }
    ensures { ReadsLines text.now assembly.new result }
{
    let mut rest = text;
    let mut line: u32 = 1;
    'lines: while !rest.is_empty() {
        let end = place_of(b'\n', rest);
        if end == rest.len() {
            return Err(Stop::Refused {
                line,
                rule: A::Form,
            });
        }
        match assembly.add(&rest[..end]) {
            Ok(()) => {}
            Err(fault) => return Err(fault.at(line)),
        }
        rest = behind(rest, end);
        line += 1;
    }
    if let Want::Nothing = assembly.want() {
        Ok(())
    } else {
        Err(Stop::Refused {
            line,
            rule: A::Form,
        })
    }
}
