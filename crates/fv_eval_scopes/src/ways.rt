// Ways outward from environments over scopes that have nothing of a name.

ghost use Rattle.std.specs.Prelude.{◌≡◌, ◌<◌, ◌≤◌, ◌^◌, [], ◌∷◌, ◌++◌, List, IfOk, OnErr, Some, length, slice_get};
ghost use Rattle.fv_eval_scopes.specs.declared.value.Scope.{Scope as AScope};
ghost use Rattle.fv_eval_scopes.specs.Environments.{next_number, outer_number};
ghost use Rattle.fv_eval_scopes.specs.Ways.{PassesTo, IsWay, AreWays, key_of};

use crate::scopes::{STRIDE, first_number};
use crate::tries::Tries;
use crate::value::{EnvId, Ruled, Scope, Value};
use std::alloc::{AllocError, Global};

/// How many bits of a key a trie goes by, the lowest ones. Keys with the same ones share an entry.
const LEVELS: u64 = 12;

/// A trie from the lowest bits of a key to the nearest enclosing environment whose scope may have that key. The key of a scope is
/// the name that it binds, or its list of definitions. A key that is not there leads to the end of the way.
#[derive(Clone, Copy, Debug)]
pub(crate) struct Way {
    root: u64,
    end: EnvId,
}

/// The tries of environments: one for all environments of a kept scope.
#[derive(Drop)]
pub(crate) struct Ways {
    tries: Tries,
    ways: Vec<Way>,
}

impl Ways {
    /// None.
    pub(crate) fn new(alloc: Global) -> Ways
        ensures { AreWays [] result }
    {
        Ways {
            tries: Tries::new(alloc),
            ways: Vec::new(alloc),
        }
    }

    // The way outward from an environment; from the outermost one it goes nowhere.
    fn outward(&self, env: EnvId) -> Way
        ensures { (scopes : List AScope) → AreWays scopes self.now → IsWay scopes self.now.tries env result }
    {
        let nowhere = Way { root: 0, end: env };
        let number = env.number();
        if number == 0 {
            return nowhere;
        }
        let before = number - 1;
        if before % STRIDE != 0 {
            return nowhere;
        }
        match self.made(before / STRIDE) {
            None => nowhere,
            Some(way) => way,
        }
    }

    // One of the ways.
    fn made(&self, place: u64) -> Option<Way>
        ensures { result ≡ slice_get self.now.ways.items place }
    {
        self.ways.get(place as usize).copied()
    }

    /// An enclosing environment, or the same one, before which no scope outward has this key.
    pub(crate) fn lead(&self, env: EnvId, key: u64) -> EnvId
        ensures { (scopes : List AScope) → AreWays scopes self.now → PassesTo scopes (λ m. m ≡ key) env result }
    {
        let way = self.outward(env);
        let found = self.tries.find(way.root, LEVELS, key);
        if found == 0 {
            way.end
        } else {
            EnvId::new(found)
        }
    }

    /// Adds the way outward from one scope more.
    pub(crate) fn add(&mut self, scope: &Scope) -> Result<(), AllocError>
        requires { length self.old.ways.items < 2 ^ 40 }
        ensures ok { IfOk result (λ _. (scopes : List AScope) → AreWays scopes self.old → AreWays (scopes ++ scope.now ∷ []) self.new) }
        ensures err { OnErr result ((scopes : List AScope) → AreWays scopes self.old → AreWays scopes self.new) }
    {
        let _within: Option<(Value, Ruled)> = None;
        let outer = outer_of(scope);
        // No environment stands around itself.
        if outer.number() >= first_number(self.ways.len() as u64).number() {
            return self.end();
        }
        match key_of(scope) {
            None => self.end(),
            Some(key) => self.go_on(key, outer),
        }
    }

    // Adds the way outward from a scope with this key: that of the environment around it, and this scope.
    fn go_on(&mut self, key: u64, outer: EnvId) -> Result<(), AllocError>
        requires { length self.old.ways.items < 2 ^ 40 }
        ensures ok { IfOk result (λ _. (scopes : List AScope) (s : AScope) → key_of s ≡ Some key → outer_number s ≡ outer
            → outer < next_number scopes → AreWays scopes self.old → AreWays (scopes ++ s ∷ []) self.new) }
        ensures err { OnErr result ((scopes : List AScope) → AreWays scopes self.old → AreWays scopes self.new) }
    {
        let way = self.outward(outer);
        let here = first_number(self.ways.len() as u64);
        let root = self.tries.with(way.root, LEVELS, key, here.number())?;
        self.ways.push(Way { root, end: way.end })?;
        Ok(())
    }

    // Adds a way that goes nowhere.
    fn end(&mut self) -> Result<(), AllocError>
        requires { length self.old.ways.items < 2 ^ 40 }
        ensures ok { IfOk result (λ _. (scopes : List AScope) (s : AScope) → AreWays scopes self.old → AreWays (scopes ++ s ∷ []) self.new) }
        ensures err { OnErr result ((scopes : List AScope) → AreWays scopes self.old → AreWays scopes self.new) }
    {
        let here = first_number(self.ways.len() as u64);
        self.ways.push(Way { root: 0, end: here })?;
        Ok(())
    }
}

/// The environment around a scope.
pub fn outer_of(scope: &Scope) -> EnvId
    ensures { result ≡ outer_number scope.now }
{
    match scope {
        Scope::Bound { outer, .. }
        | Scope::Definitions { outer, .. }
        | Scope::Slots { outer, .. } => *outer,
    }
}

// The key of a scope, if it has one.
fn key_of(scope: &Scope) -> Option<u64>
    ensures { result ≡ key_of scope.now }
{
    match scope {
        Scope::Bound { name, .. } => Some(*name),
        Scope::Definitions { list, .. } => Some(list.number()),
        Scope::Slots { .. } => None,
    }
}
