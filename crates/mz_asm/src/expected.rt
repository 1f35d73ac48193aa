// Which line may come next.
ghost use Rattle.std.specs.Prelude.{◌≡◌};
ghost use Rattle.mz_asm.specs.Progress.{opened, next, at_head, at_words, at_unify, at_proof, begun};

use crate::kind::Kind;
use crate::line::Line;

/// Which line may come next.
#[derive(Clone, Copy)]
pub enum Want {
    /// The first line of a statement, or the last line.
    Head,
    /// So many parameters of a row, and then its result, where it has one, and its streams.
    Words { kind: Kind, left: u64 },
    /// A command of the unify stream, or its end.
    Unify { kind: Kind },
    /// A command of the body, or its end.
    Proof { kind: Kind },
    /// None: the last line was read.
    Nothing,
}

impl Want {
    /// What may come next after a line, where the line may come here.
    pub fn next(self, line: Line) -> Option<Want>
        ensures { result ≡ next self line }
    {
        match self.opened() {
            Want::Head => at_head(line),
            Want::Words { kind, left } => at_words(kind, left, line),
            Want::Unify { kind } => at_unify(kind, line),
            Want::Proof { kind } => at_proof(kind, line),
            Want::Nothing => None,
        }
    }

    /// Where no word is left of a row without a result, its unify stream is wanted.
    fn opened(self) -> Want
        ensures { result ≡ opened self }
    {
        match self {
            Want::Words { kind, left } => {
                if left == 0 && !kind.has_result() {
                    Want::Unify { kind }
                } else {
                    Want::Words { kind, left }
                }
            }
            _ => self,
        }
    }
}

fn at_head(line: Line) -> Option<Want>
    ensures { result ≡ at_head line }
{
    match line {
        Line::Head { kind, number, .. } => Some(begun(kind, number)),
        Line::End => Some(Want::Nothing),
        _ => None,
    }
}

fn begun(kind: Kind, number: u64) -> Want
    ensures { result ≡ begun kind number }
{
    if kind == Kind::Sort {
        Want::Head
    } else {
        Want::Words { kind, left: number }
    }
}

fn at_words(kind: Kind, left: u64, line: Line) -> Option<Want>
    ensures { result ≡ at_words kind left line }
{
    match line {
        Line::Param(_) => {
            if left == 0 {
                None
            } else {
                Some(Want::Words {
                    kind,
                    left: left - 1,
                })
            }
        }
        Line::Outcome(_) => {
            if left > 0 {
                None
            } else if kind.has_streams() {
                Some(Want::Unify { kind })
            } else {
                Some(Want::Head)
            }
        }
        _ => None,
    }
}

fn at_unify(kind: Kind, line: Line) -> Option<Want>
    ensures { result ≡ at_unify kind line }
{
    match line {
        Line::Unify { .. } => Some(Want::Unify { kind }),
        Line::UnifyEnd => Some(Want::Proof { kind }),
        _ => None,
    }
}

fn at_proof(kind: Kind, line: Line) -> Option<Want>
    ensures { result ≡ at_proof kind line }
{
    match line {
        Line::Proof { .. } => Some(Want::Proof { kind }),
        Line::ProofEnd => Some(Want::Head),
        _ => None,
    }
}
