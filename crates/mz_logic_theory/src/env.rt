ghost use Rattle.std.specs.Prelude.{◌≡◌, ◌<◌, ◌∷◌, [], ◌++◌, ◌↔◌, IsTrue, OnOk, OnErr, option_map, length, slice_get};
ghost use Rattle.mz_logic_theory.specs.Declaration.{sorts, sort_decl, terms, signatures, assertions};
ghost use Rattle.mz_logic_theory.specs.DeclView.{declaration, signature, term_view, assertion_view, term_of, assertion_of};
ghost use Rattle.mz_logic_theory.specs.Legality.{IsLegalDecl};

use crate::binder::SortMods;
use crate::decl::{Decl, TermDecl, ThmDecl};
use std::alloc::{AllocError, Global};
use std::marker::Model;

/// An environment: declarations, each legal after those before it.
#[derive(Drop)]
pub struct Env {
    decls: Vec<Decl>,
    sort_mods: Vec<SortMods>,
    // where the terms, and the axioms and theorems, stand among the declarations
    term_places: Vec<u32>,
    thm_places: Vec<u32>,
}

impl Model for Env {
    ghost use Rattle.std.specs.Prelude.{List, map, ◌≡◌};
    ghost use Rattle.mz_logic_theory.specs.Declaration.{Declaration, sorts};
    ghost use Rattle.mz_logic_theory.specs.Codes.{declaration_code};
    ghost use Rattle.std.specs.Coded.{coded_list};

    ghost Value = { List Declaration };

    ghost coded = { coded_list declaration_code };

    ghost use Rattle.mz_logic_theory.specs.DeclView.{declaration};
    ghost use Rattle.mz_logic_theory.specs.Legality.{IsLegalEnv};
    ghost use Rattle.mz_logic_theory.specs.Places.{places_of_terms, places_of_assertions};

    ghost view = { λ a. map declaration a.decls.items };

    ghost invariant = { λ a. IsLegalEnv (map declaration a.decls.items) × (a.sort_mods.items ≡ sorts (map declaration a.decls.items))
        × (a.term_places.items ≡ places_of_terms 0 (map declaration a.decls.items)) × (a.thm_places.items ≡ places_of_assertions 0 (map declaration a.decls.items)) };
}

impl Env {
    /// No declarations.
    pub fn new(alloc: Global) -> Env
        ensures { result ≡ [] }
    {
        Env {
            decls: Vec::new(alloc),
            sort_mods: Vec::new(alloc),
            term_places: Vec::new(alloc),
            thm_places: Vec::new(alloc),
        }
    }

    /// Adds a declaration that is legal over those that are here. There are at most 4,294,967,295.
    ///
    /// # Errors
    ///
    /// Where there is no memory. The environment is unchanged then, and the declaration is dropped.
    pub fn push_decl(&mut self, decl: Decl) -> Result<(), AllocError>
        requires legal { IsLegalDecl self.old (declaration decl) }
        requires room { length self.old < 4294967295 }
        ensures ok { OnOk result (self.new ≡ self.old ++ declaration decl ∷ []) }
        ensures err { OnErr result (self.new ≡ self.old) }
    {
        match decl {
            Decl::Sort(mods) => self.push_sort(mods),
            Decl::Term(term) => self.push_term(term),
            Decl::Thm(thm) => self.push_thm(thm),
        }
    }

    fn push_sort(&mut self, mods: SortMods) -> Result<(), AllocError>
        requires { IsLegalDecl self.old (sort_decl mods) }
        ensures ok { OnOk result (self.new ≡ self.old ++ sort_decl mods ∷ []) }
        ensures err { OnErr result (self.new ≡ self.old) }
    {
        self.sort_mods.push(mods)?;
        match self.decls.push(Decl::Sort(mods)) {
            Ok(()) => Ok(()),
            Err(failed) => {
                self.sort_mods.pop();
                Err(failed.into())
            }
        }
    }

    fn push_term(&mut self, term: TermDecl) -> Result<(), AllocError>
        requires legal { IsLegalDecl self.old (term_of term) }
        requires room { length self.old < 4294967295 }
        ensures ok { OnOk result (self.new ≡ self.old ++ term_of term ∷ []) }
        ensures err { OnErr result (self.new ≡ self.old) }
    {
        self.term_places.push(self.decls.len() as u32)?;
        match self.decls.push(Decl::Term(term)) {
            Ok(()) => Ok(()),
            Err(failed) => {
                self.term_places.pop();
                Err(failed.into())
            }
        }
    }

    fn push_thm(&mut self, thm: ThmDecl) -> Result<(), AllocError>
        requires legal { IsLegalDecl self.old (assertion_of thm) }
        requires room { length self.old < 4294967295 }
        ensures ok { OnOk result (self.new ≡ self.old ++ assertion_of thm ∷ []) }
        ensures err { OnErr result (self.new ≡ self.old) }
    {
        self.thm_places.push(self.decls.len() as u32)?;
        match self.decls.push(Decl::Thm(thm)) {
            Ok(()) => Ok(()),
            Err(failed) => {
                self.thm_places.pop();
                Err(failed.into())
            }
        }
    }

    /// The sorts in order.
    pub fn sorts(&self) -> &[SortMods]
        ensures { result.now ≡ sorts self.now }
    {
        &self.sort_mods
    }

    /// The modifiers of the sort, if it is there.
    pub fn mods(&self, sort: u32) -> Option<SortMods>
        ensures { result ≡ slice_get (sorts self.now) sort }
    {
        self.sort_mods.get(sort as usize).copied()
    }

    /// How many declarations there are.
    pub fn len(&self) -> usize
        ensures { result ≡ length self.now }
    {
        self.decls.len()
    }

    /// Whether there are no declarations.
    pub fn is_empty(&self) -> bool
        ensures { IsTrue result ↔ (self.now ≡ []) }
    {
        self.decls.is_empty()
    }

    /// The declaration at the place, counted from 0, if it is there.
    pub fn get(&self, place: usize) -> Option<&Decl>
        ensures { option_map (λ d. declaration d.now) result ≡ slice_get self.now place }
    {
        self.decls.get(place)
    }

    /// The term with this number, if it is there.
    pub fn term(&self, number: u32) -> Option<&TermDecl>
        ensures term { option_map (λ d. term_view d.now) result ≡ slice_get (terms self.now) number }
        ensures signature { option_map (λ d. signature d.now) result ≡ slice_get (signatures self.now) number }
    {
        let place = *self.term_places.get(number as usize)?;
        match &self.decls[place as usize] {
            Decl::Term(term) => Some(term),
            _ => None,
        }
    }

    /// The axiom or theorem with this number, if it is there.
    pub fn thm(&self, number: u32) -> Option<&ThmDecl>
        ensures { option_map (λ d. assertion_view d.now) result ≡ slice_get (assertions self.now) number }
    {
        let place = *self.thm_places.get(number as usize)?;
        match &self.decls[place as usize] {
            Decl::Thm(thm) => Some(thm),
            _ => None,
        }
    }
}
