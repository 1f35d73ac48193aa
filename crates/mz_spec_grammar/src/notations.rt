// Notations.
ghost use Rattle.std.specs.Prelude.{◌≡◌, ◌≤◌, ◌<◌, [], List, MatchOption, map, option_map};
ghost use Rattle.mz_lex.specs.Lexemes.{Lexeme as LexemeLem};
ghost use Rattle.mz_spec_grammar.specs.Standing.{Reads, before, behind, left, past_literal, simple_beginnings, tail_rows};
ghost use Rattle.mz_spec_theory.specs.StatementCode.{lexeme, literal as literal_lem, statement, tail as tail_lem};
ghost use Rattle.mz_spec_theory.specs.Progress.{OpenNotation, Row, coercion_opened, delimiter_opened, head_opened, left_read, literal_read, literal_rows, literal_wanted, notation_of, open_notation, operator_opened, tail_level, tail_read, whole};
ghost use Rattle.mz_spec_theory.specs.Statement.{Head as HeadLem, Level as LevelLem, LiteralText as LiteralLem, TypeText as TypeLem, delimiter_statement};

use crate::reader::Reader;
use crate::test::Test;
use mz_spec_theory::{
    CoercionText, DelimiterText, Fixity, Kind, Lexeme, LiteralText, NotationText, OperatorText,
    SyntaxStatement, TailText,
};

impl<'a> Reader<'a> {
    /// A notation of one constant, a coercion or delimiters, whose keyword is at hand.
    pub fn simple_notation(&mut self) -> SyntaxStatement<'a>
        ensures { Reads (before simple_beginnings) (behind (whole (statement result))) self.old self.new }
    {
        if self.is(Test::Keyword(b"infixl")) {
            return self.operator(Fixity::InfixLeft);
        }
        if self.is(Test::Keyword(b"infixr")) {
            return self.operator(Fixity::InfixRight);
        }
        if self.is(Test::Keyword(b"prefix")) {
            return self.operator(Fixity::Prefix);
        }
        if self.is(Test::Keyword(b"coercion")) {
            return self.coercion();
        }
        self.need(Test::Keyword(b"delimiter"));
        self.delimiter()
    }

    /// An infix or prefix notation, behind its keyword.
    fn operator(&mut self, fixity: Fixity) -> SyntaxStatement<'a>
        ensures { Reads (behind (operator_opened fixity)) (behind (whole (statement result))) self.old self.new }
    {
        let name = self.take(Test::Name);
        self.take(Test::Symbol(b":"));
        let constant = self.take(Test::Formula);
        self.take(Test::Keyword(b"prec"));
        let level = self.level();
        self.take(Test::Symbol(b";"));
        SyntaxStatement::Operator(OperatorText {
            fixity,
            name,
            constant,
            level,
        })
    }

    /// A coercion.
    fn coercion(&mut self) -> SyntaxStatement<'a>
        ensures { Reads (behind coercion_opened) (behind (whole (statement result))) self.old self.new }
    {
        let name = self.take(Test::Name);
        self.take(Test::Symbol(b":"));
        let from = self.take(Test::Name);
        self.take(Test::Symbol(b">"));
        let to = self.take(Test::Name);
        self.take(Test::Symbol(b";"));
        SyntaxStatement::Coercion(CoercionText { name, from, to })
    }

    /// Delimiters.
    fn delimiter(&mut self) -> SyntaxStatement<'a>
        ensures { Reads (behind delimiter_opened) (behind (whole (statement result))) self.old self.new }
    {
        let left = self.take(Test::Formula);
        let right = self.right();
        SyntaxStatement::Delimiter(DelimiterText { left, right })
    }

    /// The right delimiters, if there are any, and the end.
    fn right(&mut self) -> Option<Lexeme<'a>>
        ensures { (l : LexemeLem) → Reads (behind (left_read l)) (behind (whole (delimiter_statement l (option_map lexeme result)))) self.old self.new }
    {
        self.advance();
        if !self.is(Test::Formula) {
            self.need(Test::Symbol(b";"));
            return None;
        }
        let right = self.lexeme();
        self.take(Test::Symbol(b";"));
        Some(right)
    }

    /// A general notation.
    pub fn notation(&mut self) -> SyntaxStatement<'a>
        ensures { Reads (behind (head_opened Kind.Notation)) (behind (whole (statement result))) self.old self.new }
    {
        let head = self.head(Kind::Notation);
        let result = self.ty();
        self.need(Test::Symbol(b"="));
        let mut literals = Vec::new(self.alloc);
        let last = self.literals(&mut literals);
        let tail = self.tail();
        SyntaxStatement::Notation(NotationText {
            head,
            result,
            literals,
            last,
            tail,
        })
    }

    /// The literals of a notation, the last one apart, up to the lexeme behind them.
    fn literals(&mut self, literals: &mut Vec<LiteralText<'a>>) -> LiteralText<'a>
        ensures { (h : HeadLem) (t : TypeLem) → literals.old.items ≡ [] → Reads (behind (literal_wanted (open_notation h t))) (before (tail_rows (record { head = h; result = t; literals = map literal_lem literals.new.items }) (literal_lem result))) self.old self.new }
    {
        let mut last = self.first_literal();
        'literals: loop {
            self.advance();
            let Some(next) = self.literal() else {
                return last;
            };
            self.push(literals, last);
            last = next;
        }
    }

    /// The first literal.
    fn first_literal(&mut self) -> LiteralText<'a>
        ensures { (n : OpenNotation) → Reads (behind (literal_wanted n)) (behind (literal_read n (literal_lem result))) self.old self.new }
    {
        self.advance();
        if let Some(first) = self.literal() {
            return first;
        }
        self.stop();
        LiteralText::Name(self.lexeme())
    }

    /// The literal that begins at hand, if one does.
    fn literal(&mut self) -> Option<LiteralText<'a>>
        ensures reads { (n : OpenNotation) (rows : List Row) → Reads (before (literal_rows n rows)) (past_literal n rows (option_map literal_lem result)) self.old self.new }
        ensures shrinks { MatchOption result (left self.new ≤ left self.old) (λ _. (left self.new ≤ left self.old) × (0 < left self.old)) }
    {
        if self.is(Test::Name) {
            return Some(LiteralText::Name(self.lexeme()));
        }
        if !self.is(Test::Symbol(b"(")) {
            return None;
        }
        let constant = self.take(Test::Formula);
        self.take(Test::Symbol(b":"));
        let level = self.level();
        self.take(Test::Symbol(b")"));
        Some(LiteralText::Constant(constant, level))
    }

    /// The tail of a notation, if it has one, and the end.
    fn tail(&mut self) -> Option<TailText<'a>>
        ensures { (n : OpenNotation) (x : LiteralLem) → Reads (before (tail_rows n x)) (behind (notation_of n x (option_map tail_lem result))) self.old self.new }
    {
        if !self.is(Test::Symbol(b":")) {
            self.need(Test::Symbol(b";"));
            return None;
        }
        let level = self.level();
        let is_right = self.is_right();
        self.take(Test::Symbol(b";"));
        Some(TailText { level, is_right })
    }

    /// Reads `rassoc`, or `lassoc`.
    fn is_right(&mut self) -> bool
        ensures { (n : OpenNotation) (x : LiteralLem) (level : LevelLem) → Reads (behind (tail_level n x level)) (behind (tail_read n x (record { level = level; is_right = result }))) self.old self.new }
    {
        self.advance();
        if self.is(Test::Keyword(b"lassoc")) {
            return false;
        }
        self.need(Test::Keyword(b"rassoc"));
        true
    }
}
