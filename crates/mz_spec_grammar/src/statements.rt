// Statements.
ghost use Rattle.std.specs.Prelude.{◌≡◌, ◌≤◌, ◌<◌, ◌^◌, [], ⊤, length, map, option_map, IfOk, MatchOption};
ghost use Rattle.mz_lex.specs.Lexemes.{IsBlank, IsNext};
ghost use Rattle.mz_spec_grammar.specs.Standing.{Reads, before, behind, left, past_modifier};
ghost use Rattle.mz_spec_theory.specs.StatementCode.{lexeme, modifiers as modifiers_lem, source, statement as statement_lem};
ghost use Rattle.mz_spec_theory.specs.Progress.{beginnings, definition_slot, head_opened, opening_rows, moves, premise_slot, sort_opened, start, type_rows, wanted, whole};
ghost use Rattle.mz_spec_theory.specs.Reading.{IfFault, IsRead, StopsFrom};
ghost use Rattle.mz_spec_theory.specs.Statement.{Head as HeadLem, TypeText as TypeLem, assert_statement, definition_statement};
ghost use Rattle.mz_spec_theory.specs.Stops.{misfit_rule};

use crate::reader::Reader;
use crate::steps::no_lexeme;
use crate::test::{Test, is_bare};
use mz_lex::{S, next_token};
use mz_spec_theory::{
    AssertKind, AssertText, DefinitionText, Fixity, Halt, Kind, Lexeme, Modifiers, Source,
    StatementRead, SyntaxStatement, TermText,
};
use std::alloc::Global;

/// The rule that the first lexeme of a statement breaks where it begins none.
fn first_rule(first: Lexeme<'_>) -> S
    ensures { result ≡ misfit_rule [] (lexeme first.entry) }
{
    if first.is_keyword(b"input") || first.is_keyword(b"output") {
        S::LeftOut
    } else {
        S::Statement
    }
}

/// Reads the next statement from a place on: `None` where only whitespace and comments are left.
///
/// # Errors
///
/// Where the lexemes from there on begin with no statement, reported at the first that doesn't fit, at
/// the place where no lexeme comes, or at the end of the text; or where there is no memory.
pub fn read_statement(
    alloc: Global,
    text: &[u8],
    from: usize,
) -> Result<Option<StatementRead<'_>>, Halt>
    requires from { from ≤ length text.now }
    requires small { length text.now < 2 ^ 32 }
    ensures read { IfOk result (λ read. MatchOption read (IsBlank text.now from (length text.now)) (IsRead text.now from)) }
    ensures within { IfOk result (λ read. MatchOption read ⊤ (λ r. r.end ≤ length text.now)) }
    ensures stops { IfFault result (StopsFrom text.now from) }
{
    let first = match next_token(text, from) {
        Ok(None) => return Ok(None),
        Ok(Some(token)) => Lexeme::new(text, token),
        Err(fault) => return Err(Halt::Fault(no_lexeme(fault))),
    };
    let read = read_from(alloc, text, from, first)?;
    Ok(Some(read))
}

/// Reads a statement that begins with this lexeme, if one does.
fn read_from<'a>(
    alloc: Global,
    text: &'a [u8],
    from: usize,
    first: Lexeme<'a>,
) -> Result<StatementRead<'a>, Halt>
    requires small { length text.now < 2 ^ 32 }
    requires within { first.to ≤ length text.now }
    requires next { IsNext text.now from (lexeme first) }
    ensures read { IfOk result (IsRead text.now from) }
    ensures within { IfOk result (λ r. r.end ≤ length text.now) }
    ensures stops { IfFault result (StopsFrom text.now from) }
{
    let mut reader = Reader {
        alloc,
        text,
        hand: Ok(first),
        rule: first_rule(first),
    };
    let statement = reader.statement();
    match reader.hand {
        Ok(last) => Ok(StatementRead {
            statement,
            place: first.from,
            end: last.to as usize,
        }),
        Err(halt) => Err(halt),
    }
}

impl<'a> Reader<'a> {
    /// The statement whose first lexeme is at hand.
    fn statement(&mut self) -> SyntaxStatement<'a>
        ensures { Reads (before (moves start)) (behind (whole (statement_lem result))) self.old self.new }
    {
        let mut read = Modifiers::NONE;
        'modifiers: while let Some(more) = self.modified(read) {
            read = more;
            self.advance();
        }
        if self.is(Test::Keyword(b"sort")) {
            return self.sort(read);
        }
        if is_bare(read) {
            return self.begun();
        }
        self.stop();
        self.sort(read)
    }

    /// With the modifier at hand, if one is that may stand behind these.
    fn modified(&self, read: Modifiers) -> Option<Modifiers>
        ensures reads { Reads (before (opening_rows (modifiers_lem read))) (past_modifier (modifiers_lem read) (option_map modifiers_lem result)) self.now self.now }
        ensures some { MatchOption result ⊤ (λ _. 0 < left self.now) }
    {
        if self.is(Test::Pure(read)) {
            return Some(Modifiers {
                is_pure: true,
                ..read
            });
        }
        if self.is(Test::Strict(read)) {
            return Some(Modifiers {
                is_strict: true,
                ..read
            });
        }
        if self.is(Test::Provable(read)) {
            return Some(Modifiers {
                is_provable: true,
                ..read
            });
        }
        if self.is(Test::Free(read)) {
            return Some(Modifiers {
                is_free: true,
                ..read
            });
        }
        None
    }

    /// The statement whose keyword is at hand.
    fn begun(&mut self) -> SyntaxStatement<'a>
        ensures { Reads (before beginnings) (behind (whole (statement_lem result))) self.old self.new }
    {
        if self.is(Test::Keyword(b"term")) {
            return self.term();
        }
        if self.is(Test::Keyword(b"axiom")) {
            return self.assertion(AssertKind::Axiom);
        }
        if self.is(Test::Keyword(b"theorem")) {
            return self.assertion(AssertKind::Theorem);
        }
        if self.is(Test::Keyword(b"def")) {
            return self.definition();
        }
        if self.is(Test::Keyword(b"notation")) {
            return self.notation();
        }
        self.simple_notation()
    }

    /// A sort, behind the keyword.
    fn sort(&mut self, modifiers: Modifiers) -> SyntaxStatement<'a>
        ensures { Reads (behind (sort_opened (modifiers_lem modifiers))) (behind (whole (statement_lem result))) self.old self.new }
    {
        let name = self.take(Test::Name);
        self.take(Test::Symbol(b";"));
        SyntaxStatement::Sort { modifiers, name }
    }

    /// A term.
    fn term(&mut self) -> SyntaxStatement<'a>
        ensures { Reads (behind (head_opened Kind.Term)) (behind (whole (statement_lem result))) self.old self.new }
    {
        let head = self.head(Kind::Term);
        let mut arguments = Vec::new(self.alloc);
        'arguments: loop {
            let result = self.ty();
            if !self.is(Test::Symbol(b">")) {
                self.need(Test::Symbol(b";"));
                return SyntaxStatement::Term(TermText {
                    head,
                    arguments,
                    result,
                });
            }
            self.push(&mut arguments, result);
        }
    }

    /// An axiom or a theorem.
    fn assertion(&mut self, kind: AssertKind) -> SyntaxStatement<'a>
        ensures { Reads (behind (head_opened (Kind.Assert kind))) (behind (whole (statement_lem result))) self.old self.new }
    {
        let head = self.head(Kind::Assert(kind));
        let mut premises = Vec::new(self.alloc);
        let conclusion = self.claim(&mut premises);
        SyntaxStatement::Assert(AssertText {
            kind,
            head,
            premises,
            conclusion,
        })
    }

    /// What stands before each `>` of an axiom or a theorem; its conclusion, and the end.
    fn claim(&mut self, premises: &mut Vec<Source<'a>>) -> Lexeme<'a>
        ensures { (a : AssertKind) (h : HeadLem) → premises.old.items ≡ [] → Reads (behind (wanted (premise_slot a h []))) (behind (whole (assert_statement a h (map source premises.new.items) (lexeme result)))) self.old self.new }
    {
        'premises: loop {
            self.advance();
            if self.is(Test::Name) {
                let ty = self.typed();
                self.need(Test::Symbol(b">"));
                self.push(premises, Source::Type(ty));
                continue 'premises;
            }
            self.need(Test::Formula);
            let formula = self.lexeme();
            self.advance();
            if !self.is(Test::Symbol(b">")) {
                self.need(Test::Symbol(b";"));
                return formula;
            }
            self.push(premises, Source::Formula(formula));
        }
    }

    /// A definition.
    fn definition(&mut self) -> SyntaxStatement<'a>
        ensures { Reads (behind (head_opened Kind.Definition)) (behind (whole (statement_lem result))) self.old self.new }
    {
        let head = self.head(Kind::Definition);
        let result = self.ty();
        let body = self.body();
        SyntaxStatement::Definition(DefinitionText { head, result, body })
    }

    /// The body of a definition, if it has one, and the end.
    fn body(&mut self) -> Option<Lexeme<'a>>
        ensures { (h : HeadLem) (t : TypeLem) → Reads (before (type_rows (definition_slot h) t)) (behind (whole (definition_statement h t (option_map lexeme result)))) self.old self.new }
    {
        if !self.is(Test::Symbol(b"=")) {
            self.need(Test::Symbol(b";"));
            return None;
        }
        let body = self.take(Test::Formula);
        self.take(Test::Symbol(b";"));
        Some(body)
    }
}
