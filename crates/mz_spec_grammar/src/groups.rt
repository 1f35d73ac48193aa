// Types, and groups of names.
ghost use Rattle.std.specs.Prelude.{◌≡◌, ◌≤◌, ◌<◌, ◌-◌, ◌∷◌, [], Bool, List, MatchOption, map};
ghost use Rattle.mz_spec_grammar.specs.Standing.{Reads, at_hand, before, behind, left, opened};
ghost use Rattle.mz_spec_theory.specs.StatementCode.{group as group_lem, head as head_lem, name_text, source as source_lem, type_text};
ghost use Rattle.mz_spec_theory.specs.Progress.{OpenGroup, Slot, closed, formula_rows, group_opened, group_slot, head_opened, headed, open_group, slot_of, type_rows, typed, wanted, with_group, without_deps};
ghost use Rattle.mz_spec_theory.specs.Statement.{Head as HeadLem, NameText as NameTextLem, closing_of};
ghost use Rattle.mz_spec_theory.specs.Tests.{the_symbol};

use crate::reader::Reader;
use crate::test::Test;
use mz_spec_theory::{Group, Head, Kind, NameText, Source, TypeText};

impl<'a> Reader<'a> {
    /// A type whose sort is at hand, up to the lexeme behind it.
    pub fn typed(&mut self) -> TypeText<'a>
        ensures reads { (slot : Slot) → Reads (behind (typed slot (without_deps (at_hand self.old.hand)))) (before (type_rows slot (type_text result))) self.old self.new }
        ensures shrinks { left self.new ≤ left self.old }
    {
        let sort = self.lexeme();
        let mut deps = Vec::new(self.alloc);
        self.advance();
        'deps: while self.is(Test::Name) {
            let dep = self.lexeme();
            self.push(&mut deps, dep);
            self.advance();
        }
        TypeText { sort, deps }
    }

    /// A type, where no formula may stand.
    pub fn ty(&mut self) -> TypeText<'a>
        ensures reads { (slot : Slot) → formula_rows slot ≡ [] → Reads (behind (wanted slot)) (before (type_rows slot (type_text result))) self.old self.new }
        ensures shrinks { left self.new ≤ left self.old - 1 }
    {
        self.advance();
        self.need(Test::Name);
        self.typed()
    }

    /// The name of a statement and its groups, up to the colon.
    pub fn head(&mut self, kind: Kind) -> Head<'a>
        ensures { Reads (behind (head_opened kind)) (behind (wanted (slot_of kind (head_lem result)))) self.old self.new }
    {
        let name = self.take(Test::Name);
        let mut groups = Vec::new(self.alloc);
        'groups: while let Some(is_bound) = self.bracket() {
            let group = self.group(kind, is_bound);
            self.push(&mut groups, group);
        }
        Head { name, groups }
    }

    /// Whether a group of bound names is opened, or another one; none at the colon.
    fn bracket(&mut self) -> Option<bool>
        ensures reads { (kind : Kind) (h : HeadLem) → Reads (behind (headed kind h)) (behind (opened kind h result)) self.old self.new }
        ensures shrinks { MatchOption result (left self.new ≤ left self.old) (λ _. left self.new < left self.old) }
    {
        self.advance();
        if self.is(Test::Symbol(b"{")) {
            return Some(true);
        }
        if self.is(Test::Symbol(b"(")) {
            return Some(false);
        }
        self.need(Test::Symbol(b":"));
        None
    }

    /// A group that has been opened.
    fn group(&mut self, kind: Kind, is_bound: bool) -> Group<'a>
        ensures reads { (h : HeadLem) → Reads (behind (group_opened (open_group kind h is_bound))) (behind (headed kind (with_group h (group_lem result)))) self.old self.new }
        ensures shrinks { left self.new ≤ left self.old }
    {
        let names = self.names(kind);
        let source = self.source(kind, is_bound);
        self.need(Test::Closing(is_bound));
        Group {
            is_bound,
            names,
            source,
        }
    }

    /// The names of a group, up to the colon.
    fn names(&mut self, kind: Kind) -> Vec<NameText<'a>>
        ensures reads { (h : HeadLem) (is_bound : Bool) → Reads (behind (group_opened (open_group kind h is_bound))) (behind (wanted (group_slot (record { kind = kind; head = h; is_bound = is_bound; names = map name_text result.items })))) self.old self.new }
        ensures shrinks { left self.new ≤ left self.old }
    {
        let mut names = Vec::new(self.alloc);
        'names: loop {
            self.advance();
            if self.is(Test::NameOrBlank) {
                let name = self.lexeme();
                let is_dummy = false;
                self.push(&mut names, NameText { is_dummy, name });
                continue 'names;
            }
            if !self.is(Test::Dot(kind)) {
                self.need(Test::Symbol(b":"));
                return names;
            }
            let name = self.take(Test::NameOrBlank);
            let is_dummy = true;
            self.push(&mut names, NameText { is_dummy, name });
        }
    }

    /// The type or the formula of a group, up to the lexeme behind it.
    fn source(&mut self, kind: Kind, is_bound: bool) -> Source<'a>
        ensures reads { (h : HeadLem) (names : List NameTextLem) → let g : OpenGroup = record { kind = kind; head = h; is_bound = is_bound; names = names } in Reads (behind (wanted (group_slot g))) (before ((the_symbol (closing_of is_bound), λ l. closed g (source_lem result)) ∷ [])) self.old self.new }
        ensures shrinks { left self.new ≤ left self.old }
    {
        self.advance();
        if self.is(Test::Name) {
            return Source::Type(self.typed());
        }
        self.need(Test::Hypothesis(kind, is_bound));
        let formula = self.lexeme();
        self.advance();
        Source::Formula(formula)
    }
}
