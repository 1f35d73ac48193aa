// What a specification declares.
use mz_logic_theory::{Decl, Env};
use std::marker::Model;

/// The span of a declaration's name, and the first byte of its statement.
#[derive(Clone, Copy, Debug, PartialEq, Eq)]
pub struct NameSpan {
    pub from: u32,
    pub to: u32,
    pub place: u32,
}

/// The declarations of a specification, in order.
#[derive(Drop)]
pub struct Spec {
    env: Env,
    spans: Vec<NameSpan>,
}

impl Model for Spec {
    ghost use Rattle.std.specs.Prelude.{List, ◌≡◌, ◌<◌, ◌^◌, length};
    ghost use Rattle.std.specs.Coded.{coded_list};
    ghost use Rattle.mz_spec_theory.specs.State.{Entry, entry_code, entries_of};

    ghost Value = { List Entry };

    ghost coded = { coded_list entry_code };

    ghost view = { λ a. entries_of a.env a.spans.items };

    ghost invariant = { λ a. (length a.spans.items ≡ length a.env) × (length a.spans.items < 2 ^ 32) };
}

impl Spec {
    ghost use Rattle.std.specs.Prelude.{◌≡◌, ◌<◌, ◌^◌, length, option_map, slice_get, Some};
    ghost use Rattle.mz_logic_theory.specs.DeclView.{declaration};
    ghost use Rattle.mz_spec_theory.specs.State.{entries_of};

    /// These declarations, each with its name span.
    pub fn new(env: Env, spans: Vec<NameSpan>) -> Spec
        requires each { length spans.items ≡ length env }
        requires few { length spans.items < 2 ^ 32 }
        ensures { result ≡ entries_of env spans.items }
    {
        Spec { env, spans }
    }

    /// How many declarations there are.
    pub fn len(&self) -> u32
        ensures { result ≡ length self.now }
    {
        self.spans.len() as u32
    }

    /// The i-th declaration, from 0.
    pub fn decl(&self, i: u32) -> &Decl
        requires { i < length self.now }
        ensures { option_map (λ e. e.decl) (slice_get self.now i) ≡ Some (declaration result.now) }
    {
        match self.env.get(i as usize) {
            Some(decl) => decl,
            None => unreachable!(),
        }
    }

    /// The span of its name: the first byte, and the place behind the last.
    pub fn name(&self, i: u32) -> (u32, u32)
        requires { i < length self.now }
        ensures { option_map (λ e. (e.from, e.to)) (slice_get self.now i) ≡ Some result }
    {
        let span = self.spans[i as usize];
        (span.from, span.to)
    }

    /// The first byte of its statement.
    pub fn place(&self, i: u32) -> u32
        requires { i < length self.now }
        ensures { option_map (λ e. e.place) (slice_get self.now i) ≡ Some result }
    {
        self.spans[i as usize].place
    }
}
