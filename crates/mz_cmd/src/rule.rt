// The rules that a binary is refused by.
use std::fmt;

/// The rules of the binary, by the numbers that are printed.
#[derive(Clone, Copy, Debug, PartialEq, Eq)]
pub enum K {
    /// The header is short, or not one of version 1.
    Header = 1,
    /// A table or a record passes the end.
    Table = 2,
    /// A command is cut, unknown, or not of this stream.
    Command = 3,
    /// A statement's distance doesn't lead to the next one, or its body doesn't end there.
    StatementLength = 4,
    /// A command that begins no statement.
    StatementKind = 5,
    /// No row of this kind is left.
    NoRow = 6,
    /// Rows are left at the end of the list.
    RowsLeft = 7,
    /// A parameter's word.
    Binder = 8,
    /// A term's result word.
    Result = 9,
    /// An item is missing on the stack.
    Underflow = 10,
    /// An item on the stack is of the wrong kind.
    Kind = 11,
    /// No such place in the heap.
    HeapIndex = 12,
    /// The term is not declared before.
    TermIndex = 13,
    /// The assertion is not declared before.
    TheoremIndex = 14,
    /// An operand has not its parameter's sort.
    OperandSort = 15,
    /// A bound parameter's operand is no bound variable.
    OperandBound = 16,
    /// A dummy's sort is not declared, or strict or free.
    DummySort = 17,
    /// More than 55 bound variables.
    DummyCount = 18,
    /// A hypothesis or conclusion of no provable sort.
    NotProvable = 19,
    /// The target is no application of the pattern's term.
    UnifyTerm = 20,
    /// The target is not the expression referred to.
    UnifyReference = 21,
    /// The target is no fresh bound variable of the sort.
    UnifyDummy = 22,
    /// No hypothesis is left to unify.
    UnifyHypothesis = 23,
    /// Targets or hypotheses are left, or none where one is needed.
    UnifyRest = 24,
    /// A citation's operands are not disjoint.
    Disjoint = 25,
    /// The sides of a reflexivity differ.
    Refl = 26,
    /// The sides of a congruence have different terms.
    Cong = 27,
    /// What is unfolded is no definition, or not the side it stands for.
    Unfold = 28,
    /// A saved conversion has other sides.
    ConversionReference = 29,
    /// A gap in a proof.
    Sorry = 30,
    /// A body does not end with its one result.
    FinalStack = 31,
    /// A definition's body has not its result sort.
    DefinitionSort = 32,
    /// A definition's body has other free variables than its dependencies.
    DefinitionDependencies = 33,
    /// An obligation is not saved.
    SaveKind = 34,
}

/// The first rule of a binary that fails.
#[derive(Clone, Copy, Debug, PartialEq, Eq)]
pub struct Refusal {
    /// The statement's number, from 1; 0 for the header and the tables.
    pub statement: u32,
    /// The place in the file, in bytes.
    pub at: u32,
    pub rule: K,
}

impl fmt::Display for K {
    ghost use Rattle.std.specs.Prelude.{Some};
    ghost use Rattle.mz_cmd.specs.RuleText.{rule_text};

    ghost output = { λ rule. Some (rule_text rule) };

    fn fmt<W: fmt::Write>(&self, f: &mut fmt::Formatter<W>) -> fmt::Result {
        f.write_str(match self {
            K::Header => "K1 header",
            K::Table => "K2 table",
            K::Command => "K3 command",
            K::StatementLength => "K4 statement length",
            K::StatementKind => "K5 statement kind",
            K::NoRow => "K6 no row",
            K::RowsLeft => "K7 rows left",
            K::Binder => "K8 binder",
            K::Result => "K9 result",
            K::Underflow => "K10 underflow",
            K::Kind => "K11 kind",
            K::HeapIndex => "K12 heap index",
            K::TermIndex => "K13 term index",
            K::TheoremIndex => "K14 theorem index",
            K::OperandSort => "K15 operand sort",
            K::OperandBound => "K16 operand bound",
            K::DummySort => "K17 dummy sort",
            K::DummyCount => "K18 dummy count",
            K::NotProvable => "K19 not provable",
            K::UnifyTerm => "K20 unify term",
            K::UnifyReference => "K21 unify reference",
            K::UnifyDummy => "K22 unify dummy",
            K::UnifyHypothesis => "K23 unify hypothesis",
            K::UnifyRest => "K24 unify rest",
            K::Disjoint => "K25 disjoint",
            K::Refl => "K26 refl",
            K::Cong => "K27 cong",
            K::Unfold => "K28 unfold",
            K::ConversionReference => "K29 conversion reference",
            K::Sorry => "K30 sorry",
            K::FinalStack => "K31 final stack",
            K::DefinitionSort => "K32 definition sort",
            K::DefinitionDependencies => "K33 definition dependencies",
            K::SaveKind => "K34 save kind",
        })
    }
}
