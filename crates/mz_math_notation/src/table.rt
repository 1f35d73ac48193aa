// What has been declared for math strings, and the statements that add to it.
ghost use Rattle.std.specs.Prelude.{◌≡◌, ◌↔◌, ◌⊎◌, List, ℕ, IsTrue, MatchOption, Contains, OnOk, OnErr, IfErr, length, option_map};
ghost use Rattle.mz_base.specs.Identifiers.{is_name};
ghost use Rattle.mz_logic_theory.specs.Declaration.{signatures};
ghost use Rattle.mz_math_theory.specs.NotationAnswers.{IsAdded, IsPlain, IsShaped};
ghost use Rattle.mz_math_theory.specs.Clear.{HasConstant, JoinedBy, LedBy};
ghost use Rattle.mz_math_theory.specs.declared.notation.Notation.{Notation};
ghost use Rattle.mz_math_theory.specs.Coercions.{OnePath};
ghost use Rattle.mz_math_theory.specs.Forms.{AddsDelimiters, AddsNotation, IsAnswer, IsGeneral, IsInfix, IsPrefix, coercion_checks, delimiter_checks, notation_checks};
ghost use Rattle.mz_math_theory.specs.Kept.{IsTable};
ghost use Rattle.mz_math_operators.specs.Names.{IsFoundAs};
ghost use Rattle.mz_math_theory.specs.Notation.{TermName, empty_table, with_coercion, with_infix, with_leading, with_name, with_notation};

use mz_base::Hashing;
use mz_lex::Delimiters;
use mz_logic_theory::{Env, ResultType};
use mz_math_coercions::Coercions;
use mz_math_operators::{
    NotationList, Scope, Statement, TermNames, declared, general_of, infix_of, is_clear_with_infix,
    is_clear_with_leading, is_coercion, prefix_of,
};
use mz_math_theory::{Coercion, Literal, Notation, NoteFault, Tail};
use std::alloc::Global;
use std::marker::Model;

/// The delimiters, notations, names of terms and coercions that have been declared.
#[derive(Drop)]
pub struct Notations {
    alloc: Global,
    hashing: Hashing,
    delimiters: Delimiters,
    leading: NotationList,
    infixes: NotationList,
    names: TermNames,
    coercions: Coercions,
}

impl Model for Notations {
    ghost use Rattle.mz_math_theory.specs.Notation.{Table};
    ghost use Rattle.mz_lex.specs.declared.tokens.Delimiters.{Delimiters};
    ghost use Rattle.mz_math_theory.specs.Kept.{IsTable};

    ghost Value = { Table };

    ghost view = { λ a. record { delimiters = a.delimiters; leading = a.leading; infixes = a.infixes; names = a.names; coercions = a.coercions } };

    ghost invariant = { λ a. IsTable (record { delimiters = a.delimiters; leading = a.leading; infixes = a.infixes; names = a.names; coercions = a.coercions }) };
}

impl Notations {
    /// Nothing is declared, for those who draw no seed.
    pub fn new(alloc: Global) -> Notations
        ensures { result ≡ empty_table }
    {
        Notations::with_hashing(alloc, Hashing::fixed())
    }

    /// Nothing is declared; constants and the names of terms will be hashed like this.
    pub fn with_hashing(alloc: Global, hashing: Hashing) -> Notations
        ensures { result ≡ empty_table }
    {
        Notations {
            alloc,
            hashing,
            delimiters: Delimiters::new(alloc),
            leading: NotationList::new(alloc, hashing),
            infixes: NotationList::new(alloc, hashing),
            names: TermNames::new(alloc, hashing),
            coercions: Coercions::new(alloc),
        }
    }

    /// The delimiters.
    pub fn delimiters(&self) -> &Delimiters
        ensures delimiters { result.now ≡ self.now.delimiters }
        ensures table { IsTable self.now }
    {
        &self.delimiters
    }

    /// The notation that begins with this constant.
    pub fn led_by(&self, token: &[u8]) -> Option<&Notation>
        ensures { MatchOption result ((k : Notation) × Contains self.now.leading k × LedBy k token.now → ⊥) (λ k. Contains self.now.leading k.now × LedBy k.now token.now) }
    {
        self.leading.led_by(token)
    }

    /// The notation with this constant behind its first parameter.
    pub fn joined_by(&self, token: &[u8]) -> Option<&Notation>
        ensures { MatchOption result ((k : Notation) → Contains self.now.infixes k → JoinedBy k token.now → ⊥) (λ k. Contains self.now.infixes k.now × JoinedBy k.now token.now) }
    {
        self.infixes.joined_by(token)
    }

    /// Whether the constant stands in one of the notations.
    pub fn has_constant(&self, token: &[u8]) -> bool
        ensures { IsTrue result ↔ ((q : ℕ) × (HasConstant self.now.leading token.now q ⊎ HasConstant self.now.infixes token.now q)) }
    {
        match self.leading.level_of(token) {
            Some(_) => true,
            None => match self.infixes.level_of(token) {
                Some(_) => true,
                None => false,
            },
        }
    }

    /// How many terms have names.
    pub fn name_count(&self) -> usize
        ensures { result ≡ length self.now.names }
    {
        self.names.len()
    }

    /// Whether a term has this name.
    pub fn names_term(&self, name: &[u8]) -> bool
        ensures { IsTrue result ↔ ((n : TermName) × Contains self.now.names n × (n.name ≡ name.now)) }
    {
        self.names.get(name).is_some()
    }

    /// The term of this name, if there is one.
    pub fn named(&self, name: &[u8]) -> Option<u32>
        ensures { MatchOption result ((n : TermName) → Contains self.now.names n → n.name ≡ name.now → ⊥) (λ t. (n : TermName) × IsFoundAs self.now.names name.now n × (n.term ≡ t)) }
    {
        self.names.get(name)
    }

    /// The coercions.
    pub fn coercions(&self) -> &Coercions
        ensures coercions { result.now ≡ self.now.coercions }
        ensures one_path { OnePath result.now }
        ensures table { IsTable self.now }
    {
        &self.coercions
    }

    /// `delimiter`: one string, of characters that are both left and right delimiters, or two, of
    /// left ones and of right ones. It holds for later strings.
    ///
    /// # Errors
    ///
    /// Form where a delimiter isn't one character, or Mem. The table is unchanged then.
    pub fn add_delimiter(
        &mut self,
        env: &Env,
        left: &[u8],
        right: Option<&[u8]>,
    ) -> Result<(), NoteFault>
        ensures answer { IsAnswer result (delimiter_checks left.now (option_map (λ bytes. bytes.now) right.entry)) }
        ensures ok { OnOk result (AddsDelimiters self.old left.now (option_map (λ bytes. bytes.now) right.entry) self.new) }
        ensures err { OnErr result (self.new ≡ self.old) }
    {
        match declared(self.alloc, left, right) {
            Err(fault) => Err(fault),
            Ok(added) => {
                let Ok(()) = self.delimiters.append(&added) else {
                    return Err(NoteFault::Mem);
                };
                Ok(())
            }
        }
    }

    /// `infixl` and `infixr`: a constant, without its `$`, between the two operands of a term. A
    /// precedence is none for max.
    ///
    /// # Errors
    ///
    /// Form where the constant isn't one token or is a parenthesis, or the term hasn't two
    /// parameters; else Clash where the table isn't clear with the notation; or Mem. The table is
    /// unchanged then.
    pub fn add_infix(
        &mut self,
        env: &Env,
        term: u32,
        constant: &[u8],
        level: Option<u32>,
        right: bool,
    ) -> Result<(), NoteFault>
        ensures answer { IsAnswer result (notation_checks self.old (IsInfix (signatures env.now) self.old.delimiters term constant.now level right)) }
        ensures ok { OnOk result (AddsNotation self.old (IsInfix (signatures env.now) self.old.delimiters term constant.now level right) self.new) }
        ensures err { OnErr result (self.new ≡ self.old) }
    {
        match infix_of(
            self.alloc,
            &self.delimiters,
            env,
            term,
            constant,
            level,
            right,
        ) {
            Err(fault) => Err(fault),
            Ok(notation) => self.add_notation(notation),
        }
    }

    /// `prefix`: a constant, without its `$`, before the operands of a term. A precedence is
    /// none for max.
    ///
    /// # Errors
    ///
    /// Form where the constant isn't one token or is a parenthesis; else Clash where the table isn't
    /// clear with the notation; or Mem. The table is unchanged then.
    pub fn add_prefix(
        &mut self,
        env: &Env,
        term: u32,
        constant: &[u8],
        level: Option<u32>,
    ) -> Result<(), NoteFault>
        ensures answer { IsAnswer result (notation_checks self.old (IsPrefix (signatures env.now) self.old.delimiters term constant.now level)) }
        ensures ok { OnOk result (AddsNotation self.old (IsPrefix (signatures env.now) self.old.delimiters term constant.now level) self.new) }
        ensures err { OnErr result (self.new ≡ self.old) }
    {
        match prefix_of(self.alloc, &self.delimiters, env, term, constant, level) {
            Err(fault) => Err(fault),
            Ok(notation) => self.add_notation(notation),
        }
    }

    /// `notation`: the statement's term, its parameters and its type, and its literals, which are
    /// spans of a text. A span that doesn't stand in the text is of no form.
    ///
    /// # Errors
    ///
    /// Form where the parameters or the type aren't the term's, a literal is no constant and no
    /// parameter, a parameter isn't named exactly once, or the first literals and the tail don't fit;
    /// else Clash where the table isn't clear with the notation; or Mem. The table is unchanged then.
    pub fn add_general(
        &mut self,
        env: &Env,
        term: u32,
        params: &Scope,
        result_type: &ResultType,
        text: &[u8],
        literals: &[Literal],
        tail: Option<Tail>,
    ) -> Result<(), NoteFault>
        ensures answer { IsAnswer result (notation_checks self.old (IsGeneral (signatures env.now) self.old.delimiters
            (record { term = term; names = params.now.names; binders = params.now.binders; result = result_type.now; text = text.now; literals = literals.now; tail = tail }))) }
        ensures ok { OnOk result (AddsNotation self.old (IsGeneral (signatures env.now) self.old.delimiters
            (record { term = term; names = params.now.names; binders = params.now.binders; result = result_type.now; text = text.now; literals = literals.now; tail = tail })) self.new) }
        ensures err { OnErr result (self.new ≡ self.old) }
    {
        let statement = Statement {
            term,
            params,
            result: result_type,
            text,
            literals,
            tail,
        };
        match general_of(self.alloc, &self.delimiters, env, statement) {
            Err(fault) => Err(fault),
            Ok(notation) => self.add_notation(notation),
        }
    }

    /// Adds a notation, where the table stays clear with it.
    fn add_notation(&mut self, notation: Notation) -> Result<(), NoteFault>
        requires { IsShaped notation }
        ensures { IsAdded result self.old (with_notation self.old notation) self.new }
    {
        if notation.begins_with_slot() {
            self.push_infix(notation)
        } else {
            self.push_leading(notation)
        }
    }

    fn push_infix(&mut self, notation: Notation) -> Result<(), NoteFault>
        requires joined { (w : List ℕ) × JoinedBy notation w }
        requires plain { IsPlain notation }
        ensures { IsAdded result self.old (with_infix self.old notation) self.new }
    {
        let is_clear = is_clear_with_infix(
            self.alloc,
            self.hashing,
            &self.leading,
            &self.infixes,
            &notation,
        )?;
        if !is_clear {
            return Err(NoteFault::Clash);
        }
        let Ok(()) = self.infixes.push(self.alloc, notation) else {
            return Err(NoteFault::Mem);
        };
        Ok(())
    }

    fn push_leading(&mut self, notation: Notation) -> Result<(), NoteFault>
        requires led { (w : List ℕ) × LedBy notation w }
        requires plain { IsPlain notation }
        ensures { IsAdded result self.old (with_leading self.old notation) self.new }
    {
        let is_clear = is_clear_with_leading(
            self.alloc,
            self.hashing,
            &self.leading,
            &self.infixes,
            &notation,
        )?;
        if !is_clear {
            return Err(NoteFault::Clash);
        }
        let Ok(()) = self.leading.push(self.alloc, notation) else {
            return Err(NoteFault::Mem);
        };
        Ok(())
    }

    /// `coercion`: a term by which expressions of a sort stand for expressions of another.
    ///
    /// # Errors
    ///
    /// Form where the term hasn't one regular parameter of the one sort and a result of the other;
    /// else CoercionClash where there would be two paths between two sorts, or a cycle; or Mem. The
    /// table is unchanged then.
    pub fn add_coercion(
        &mut self,
        env: &Env,
        term: u32,
        from: u32,
        to: u32,
    ) -> Result<(), NoteFault>
        ensures answer { IsAnswer result (coercion_checks (signatures env.now) self.old (record { term = term; from = from; to = to })) }
        ensures ok { OnOk result (self.new ≡ with_coercion self.old (record { term = term; from = from; to = to })) }
        ensures err { OnErr result (self.new ≡ self.old) }
    {
        let coercion = Coercion { term, from, to };
        if !is_coercion(env, coercion) {
            return Err(NoteFault::Form);
        }
        let Ok(added) = self.coercions.add(self.alloc, coercion) else {
            return Err(NoteFault::Mem);
        };
        if !added {
            return Err(NoteFault::CoercionClash);
        }
        Ok(())
    }

    /// Names a term by an identifier that names none yet.
    ///
    /// # Errors
    ///
    /// Mem alone. The table is unchanged then.
    pub fn add_term_name(&mut self, env: &Env, name: &[u8], term: u32) -> Result<(), NoteFault>
        requires name { IsTrue (is_name name.now) }
        requires other { (n : TermName) → Contains self.old.names n → n.name ≡ name.now → ⊥ }
        ensures mem { IfErr result (λ fault. fault ≡ NoteFault.Mem) }
        ensures ok { OnOk result (self.new ≡ with_name self.old (record { name = name.now; term = term })) }
        ensures err { OnErr result (self.new ≡ self.old) }
    {
        let Ok(()) = self.names.push(self.alloc, name, term) else {
            return Err(NoteFault::Mem);
        };
        Ok(())
    }
}
