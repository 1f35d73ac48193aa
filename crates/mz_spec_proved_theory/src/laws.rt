// Laws of the promise.
ghost use Rattle.std.specs.Prelude.{◌≡◌, ◌↔◌, ℕ, List, []};
ghost use Rattle.std.specs.List.{All};
ghost use Rattle.mz_logic_theory.specs.Declaration.{Declaration};
ghost use Rattle.mz_logic_theory.specs.LegalLists.{Statement, Legal};
ghost use Rattle.mz_spec_theory.specs.Spec.{SpecOf};
ghost use Rattle.mz_spec_proved_theory.specs.ByItself.{IsConcrete};
ghost use Rattle.mz_spec_proved_theory.specs.Declares.{DeclareAfter};
ghost use Rattle.mz_spec_proved_theory.specs.Match.{publics, Agrees};
ghost use Rattle.mz_spec_proved_theory.specs.Specifies.{Specifies};
ghost use Rattle.mz_spec_proved_theory.specs.WellFormed.{IsLegalAfter};

/// The promise speaks of no rule and no order of rules, and is what the rules check: a text that breaks none specifies
/// what it declares, and nothing else; a list is legal with all bodies, and has the declarations for its public statements, just where no
/// rule fails.
pub fn promises_what_is_checked()
    ensures texts { (text : List ℕ) (ds : List Declaration) → SpecOf text ds → Specifies text ds }
    ensures one { (text : List ℕ) (ds es : List Declaration) → SpecOf text ds → Specifies text es → es ≡ ds }
    ensures lists { (ss : List Statement) → IsLegalAfter [] ss ↔ (Legal ss × All (λ s. IsConcrete s.decl) ss) }
    ensures matches { (ds : List Declaration) (ss : List Statement) → DeclareAfter [] ds ss ↔ Agrees ds (publics ss) }
{}
