//! Parameters, dummies and results, and the lists of variables in them.
ghost use Rattle.std.specs.Prelude.{◌≡◌, ◌<◌, ◌≤◌, ◌+◌, ◌++◌, ◌∷◌, [], ◌^◌, length, IfOk, IfErr};
ghost use Rattle.mz_sexpr.specs.Number.{node_count, node_at};
ghost use Rattle.mz_mmu_theory.specs.Cursor.{node_size};
ghost use Rattle.mz_mmu_theory.specs.Expressions.{AreVariables, IsVariableList, AreDeps, IsAscending, IsParam, IsDummy, AreParams, AreDummies, IsResult};
ghost use Rattle.mz_mmu_theory.specs.FormOrder.{variable_list_asked, param_asked, dummy_asked, params_asked, dummies_asked, result_asked, param_name_asked};
ghost use Rattle.mz_mmu_theory.specs.Name.{IsParamName};
ghost use Rattle.mz_mmu_forms.specs.ScopeView.{names as names_view};
ghost use Rattle.mz_mmu_theory.specs.Stops.{Stops};

use crate::name::HIDDEN;
use crate::reader::Reader;
use crate::scope::NameTable;
use crate::space::Space;
use mz_base::is_identifier;
use mz_logic_theory::{Binder, Binders, Deps, ResultType};
use mz_mmu_theory::Stop;
use mz_sexpr::U;
use std::alloc::AllocError;

/// These places in ascending order, each once.
fn ascending(mut places: Vec<u32>) -> Result<Deps, AllocError>
    ensures { IfOk result (IsAscending places.items) }
{
    places.sort_unstable();
    places.dedup();
    Deps::from_vec(places)
}

impl<'r, 'a> Reader<'r, 'a> {
    /// The places of a list of variables.
    pub(crate) fn variables(&self, vars: &Space<'a>, n: u32) -> Result<Vec<u32>, Stop>
        requires { n < node_count self.now.nodes.now }
        ensures read { IfOk result (λ places. IsVariableList vars.now (node_at self.now.nodes.now n) places.items) }
        ensures stops { IfErr result (λ stop. Stops stop (variable_list_asked vars.now (node_at self.now.nodes.now n))) }
    {
        let mut places: Vec<u32> = Vec::new(self.alloc);
        let mut left = self.list(n)?;
        while let Some(m) = left {
            let place = self.number(vars, m)?;
            places.push(place)?;
            left = self.nodes.next(m);
        }
        Ok(places)
    }

    /// A list of dependencies.
    fn deps(&self, vars: &Space<'a>, n: u32) -> Result<Deps, Stop>
        requires { n < node_count self.now.nodes.now }
        ensures read { IfOk result (AreDeps vars.now (node_at self.now.nodes.now n)) }
        ensures stops { IfErr result (λ stop. Stops stop (variable_list_asked vars.now (node_at self.now.nodes.now n))) }
    {
        let places = self.variables(vars, n)?;
        let deps = ascending(places)?;
        Ok(deps)
    }

    /// A parameter's name, or `_`.
    fn param_name(&self, vars: &Space<'a>, n: u32) -> Result<&'a [u8], Stop>
        requires { n < node_count self.now.nodes.now }
        ensures read { IfOk result (λ w. IsParamName vars.now (node_at self.now.nodes.now n) w.now) }
        ensures stops { IfErr result (λ stop. Stops stop (param_name_asked vars.now (node_at self.now.nodes.now n))) }
    {
        let word = self.word(n);
        if word == HIDDEN {
            return Ok(word);
        }
        if !is_identifier(word) {
            return Err(self.wrong(n, U::Form));
        }
        match vars.number_of(word) {
            Some(_) => Err(self.wrong(n, U::NameTwice)),
            None => Ok(word),
        }
    }

    /// A parameter, with its name.
    fn param(
        &self,
        names: &NameTable<'a>,
        vars: &Space<'a>,
        n: u32,
    ) -> Result<(&'a [u8], Binder), Stop>
        requires { n < node_count self.now.nodes.now }
        ensures read { IfOk result (λ p. IsParam (names_view names.now) vars.now (node_at self.now.nodes.now n) p.0.now p.1) }
        ensures stops { IfErr result (λ stop. Stops stop (param_asked (names_view names.now) vars.now (node_at self.now.nodes.now n))) }
    {
        let first = self.nodes.first(n);
        if let Some((name, sort)) = self.two(first) {
            let name = self.param_name(vars, name)?;
            let sort = self.number(&names.sorts, sort)?;
            let deps = Deps::new();
            return Ok((
                name,
                Binder {
                    sort,
                    bound: true,
                    deps,
                },
            ));
        }
        let Some((name, sort, deps)) = self.three(first) else {
            return Err(self.wrong(n, U::Form));
        };
        let name = self.param_name(vars, name)?;
        let sort = self.number(&names.sorts, sort)?;
        let deps = self.deps(vars, deps)?;
        Ok((
            name,
            Binder {
                sort,
                bound: false,
                deps,
            },
        ))
    }

    /// A dummy, with its name.
    fn dummy(
        &self,
        names: &NameTable<'a>,
        vars: &Space<'a>,
        n: u32,
    ) -> Result<(&'a [u8], Binder), Stop>
        requires { n < node_count self.now.nodes.now }
        ensures read { IfOk result (λ p. IsDummy (names_view names.now) vars.now (node_at self.now.nodes.now n) p.0.now p.1) }
        ensures stops { IfErr result (λ stop. Stops stop (dummy_asked (names_view names.now) vars.now (node_at self.now.nodes.now n))) }
    {
        let Some((name, sort)) = self.two(self.nodes.first(n)) else {
            return Err(self.wrong(n, U::Form));
        };
        let name = self.new_name(vars, name)?;
        let sort = self.number(&names.sorts, sort)?;
        let deps = Deps::new();
        Ok((
            name,
            Binder {
                sort,
                bound: true,
                deps,
            },
        ))
    }

    /// The parameters of a statement; their names are put into the space, which is empty.
    ///
    /// # Errors
    ///
    /// The first of the rules on forms and names that the node breaks, at its place; or where there is no
    /// memory.
    pub fn params(
        &self,
        names: &NameTable<'a>,
        vars: &mut Space<'a>,
        n: u32,
    ) -> Result<Binders, Stop>
        requires within { n < node_count self.now.nodes.now }
        requires none { vars.old ≡ [] }
        requires few { node_size (node_at self.now.nodes.now n) < 2 ^ 32 }
        ensures read { IfOk result (λ bs. AreParams (names_view names.now) (node_at self.now.nodes.now n) bs vars.new) }
        ensures stops { IfErr result (λ stop. Stops stop (params_asked (names_view names.now) (node_at self.now.nodes.now n))) }
    {
        let mut params = Binders::new(self.alloc);
        let mut left = self.list(n)?;
        while let Some(m) = left {
            let (name, param) = self.param(names, vars, m)?;
            vars.push_param(name)?;
            params.push(param)?;
            left = self.nodes.next(m);
        }
        Ok(params)
    }

    /// The dummies of a statement; their names are put to those of its parameters.
    ///
    /// # Errors
    ///
    /// The first of the rules on forms and names that the node breaks, at its place; or where there is no
    /// memory.
    pub fn dummies(
        &self,
        names: &NameTable<'a>,
        vars: &mut Space<'a>,
        n: u32,
    ) -> Result<Binders, Stop>
        requires within { n < node_count self.now.nodes.now }
        requires few { length vars.old + node_size (node_at self.now.nodes.now n) < 2 ^ 32 }
        ensures read { IfOk result (λ bs. AreDummies (names_view names.now) vars.old (node_at self.now.nodes.now n) bs vars.new) }
        ensures stops { IfErr result (λ stop. Stops stop (dummies_asked (names_view names.now) vars.old (node_at self.now.nodes.now n))) }
    {
        let mut dummies = Binders::new(self.alloc);
        let mut left = self.list(n)?;
        while let Some(m) = left {
            let (name, dummy) = self.dummy(names, vars, m)?;
            vars.push(name)?;
            dummies.push(dummy)?;
            left = self.nodes.next(m);
        }
        Ok(dummies)
    }

    /// A result.
    ///
    /// # Errors
    ///
    /// The first of the rules on forms and names that the node breaks, at its place; or where there is no
    /// memory.
    pub fn result(
        &self,
        names: &NameTable<'a>,
        vars: &Space<'a>,
        n: u32,
    ) -> Result<ResultType, Stop>
        requires { n < node_count self.now.nodes.now }
        ensures read { IfOk result (IsResult (names_view names.now) vars.now (node_at self.now.nodes.now n)) }
        ensures stops { IfErr result (λ stop. Stops stop (result_asked (names_view names.now) vars.now (node_at self.now.nodes.now n))) }
    {
        let Some((sort, deps)) = self.two(self.nodes.first(n)) else {
            return Err(self.wrong(n, U::Form));
        };
        let sort = self.number(&names.sorts, sort)?;
        let deps = self.deps(vars, deps)?;
        Ok(ResultType { sort, deps })
    }
}
