// The environments of an evaluation, and the arguments that rules have taken.

ghost use Rattle.std.specs.Prelude.{◌≡◌, ◌+◌, ◌-◌, ◌<◌, ◌≤◌, ◌^◌, [], ◌∷◌, ◌++◌, length, IfOk, IfSome, OnErr, slice_get};
ghost use Rattle.fv_eval_scopes.specs.declared.scopes.TheConstants.{STRIDE as MOST_NUMBERS};
ghost use Rattle.fv_eval_scopes.specs.declared.value.Scope.TheVariants.{Bound, Definitions, Slots};
ghost use Rattle.fv_eval_scopes.specs.Ways.{PassesTo};
ghost use Rattle.fv_eval_scopes.specs.Environments.{HasRoom, first_number, next_number, nth_scope, scope_in, with_scope, with_argument};
ghost use Rattle.fv_rules.specs.headline.Values.{Env, Taken, in_order};
ghost use Rattle.fv_eval_scopes.specs.declared.value.Value.{Value as AValue};
ghost use Rattle.fv_rules.specs.headline.Matching.{Bindings, bound_in};
ghost use Rattle.fv_eval_scopes.specs.Shows.{World, ShowsEnv, ShowsTaken, ShowsValues, ShowsBindings, Grows};

use crate::value::{Argument, Binding, EnvId, Ruled, Scope, Value};
use crate::ways::Ways;
use fv_base::limits::MOST_SCOPES;
use fv_parse::TreeId;
use fv_rules::too_many_to_keep;
use std::alloc::{AllocError, Global};
use std::marker::Model;

/// How many environments a kept scope may stand for, one for each name that it binds: as many as a text may have bytes.
pub const STRIDE: u64 = 1_048_576;

// Numbers of parameters and slots are below this, so that the sum of two of them has room.
const ROOM: u64 = 4_611_686_018_427_387_904;

/// Environments and arguments that rules have taken. They are shared: one is made of the number of another, and is
/// never changed. Environment 0 is the outermost one.
#[derive(Drop)]
pub struct Scopes {
    scopes: Vec<Scope>,
    ways: Ways,
    taken: Vec<Argument>,
}

impl Model for Scopes {
    ghost use Rattle.std.specs.Prelude.{All};
    ghost use Rattle.fv_eval_scopes.specs.Environments.{Environments, HasRoom};
    ghost use Rattle.fv_eval_scopes.specs.Ways.{AreWays};

    ghost Value = { Environments };

    ghost view = { λ s. record { scopes = s.scopes.items; taken = s.taken.items } };

    ghost invariant = { λ s. AreWays s.scopes.items s.ways × All HasRoom s.scopes.items };
}

impl Scopes {
    /// The outermost environment alone.
    pub fn new(alloc: Global) -> Scopes
        ensures { result ≡ record { scopes = []; taken = [] } }
    {
        Scopes {
            scopes: Vec::new(alloc),
            ways: Ways::new(alloc),
            taken: Vec::new(alloc),
        }
    }

    /// Binds a name to a value in an environment, and returns the number of the new environment.
    pub fn bind(&mut self, name: u64, value: Value, outer: EnvId) -> Result<EnvId, AllocError>
        ensures ok { IfOk result (λ i. (i ≡ next_number self.old.scopes)
            × (self.new ≡ with_scope self.old (Bound name value outer))) }
        ensures err { OnErr result (self.new ≡ self.old) }
    {
        self.push(Scope::Bound { name, value, outer })
    }

    /// Opens a list of definitions in an environment, and returns the number of the new environment.
    pub fn open(&mut self, list: TreeId, outer: EnvId) -> Result<EnvId, AllocError>
        ensures ok { IfOk result (λ i. (i ≡ next_number self.old.scopes)
            × (self.new ≡ with_scope self.old (Definitions list outer))) }
        ensures err { OnErr result (self.new ≡ self.old) }
    {
        self.push(Scope::Definitions { list, outer })
    }

    /// Binds `count` parameters of a node, from this one on, to as many slots, from this one on, in an environment. Returns the number
    /// of the new environment. They are one scope that is kept.
    pub fn bind_slots(
        &mut self,
        node: TreeId,
        parameter: u64,
        count: u64,
        slot: u64,
        outer: EnvId,
    ) -> Result<EnvId, AllocError>
        requires { 1 ≤ count }
        ensures ok { IfOk result (λ i. (i ≡ next_number self.old.scopes + (count - 1)) × (count ≤ MOST_NUMBERS)
            × (self.new ≡ with_scope self.old (Slots node parameter slot outer))) }
        ensures err { OnErr result (self.new ≡ self.old) }
    {
        if count > STRIDE || parameter >= ROOM || slot >= ROOM {
            return Err(too_many_to_keep());
        }
        let first = self.push(Scope::Slots {
            node,
            parameter,
            slot,
            outer,
        })?;
        Ok(EnvId::new(first.number() + (count - 1)))
    }

    // Adds a scope, with the way outward from it.
    fn push(&mut self, scope: Scope) -> Result<EnvId, AllocError>
        requires { HasRoom scope }
        ensures ok { IfOk result (λ i. (i ≡ next_number self.old.scopes) × (self.new ≡ with_scope self.old scope)) }
        ensures small { IfOk result (λ i. i < 2 ^ 63) }
        ensures err { OnErr result (self.new ≡ self.old) }
    {
        // The borrow checker's proof needs the types within `Scope` named here.
        let _within: Option<(Value, Ruled)> = None;
        let place = self.scopes.len() as u64;
        if place >= MOST_SCOPES {
            return Err(too_many_to_keep());
        }
        self.scopes.push(scope)?;
        if let Err(refused) = self.ways.add(&scope) {
            self.scopes.pop();
            return Err(refused);
        }
        Ok(first_number(place))
    }

    /// Adds an argument after the one with this number, and returns the number of the new one.
    pub fn take(&mut self, value: Value, before: u64) -> Result<u64, AllocError>
        ensures ok { IfOk result (λ i. (i ≡ length self.old.taken)
            × (self.new ≡ with_argument self.old (record { value = value; before = before }))) }
        ensures err { OnErr result (self.new ≡ self.old) }
    {
        let place = self.taken.len() as u64;
        if place >= MOST_SCOPES {
            return Err(too_many_to_keep());
        }
        self.taken.push(Argument { value, before })?;
        Ok(place)
    }

    /// The innermost scope of an environment; the outermost environment has none.
    pub fn scope(&self, env: EnvId) -> Option<Scope>
        ensures { result ≡ scope_in self.now.scopes env }
    {
        let number = env.number();
        if number == 0 {
            return None;
        }
        let before = number - 1;
        match self.kept(before / STRIDE) {
            None => None,
            Some(scope) => Some(nth_scope(scope, before % STRIDE, EnvId::new(before))),
        }
    }

    /// The scope that is kept at a place.
    pub fn kept(&self, place: u64) -> Option<Scope>
        ensures kept { result ≡ slice_get self.now.scopes place }
        ensures room { IfSome result HasRoom }
    {
        self.scopes.get(place as usize).copied()
    }

    /// An enclosing environment, or the same one, before which no scope outward has this key. The key of a scope is the name that
    /// it binds, or its list of definitions.
    pub fn lead(&self, env: EnvId, key: u64) -> EnvId
        ensures { PassesTo self.now.scopes (λ m. m ≡ key) env result }
    {
        self.ways.lead(env, key)
    }

    /// The last `count` arguments that rules have taken, in order. The last one has the number `last`.
    pub fn arguments(&self, alloc: Global, count: u64, last: u64) -> Result<Vec<Value>, AllocError>
        ensures { IfOk result (λ v. (w : World) (T : Taken)
            → w.taken ≡ self.now.taken → ShowsTaken w count last T → ShowsValues w v.items (in_order T [])) }
    {
        let _within: Option<(Value, Ruled)> = None;
        let mut arguments = Vec::new(alloc);
        let mut left = count;
        let mut at = last;
        'back: while left > 0 {
            let Some(argument) = self.argument(at) else {
                return Ok(arguments);
            };
            arguments.push(argument.value)?;
            at = argument.before;
            left -= 1;
        }
        arguments.reverse();
        Ok(arguments)
    }

    // An argument that was taken.
    fn argument(&self, place: u64) -> Option<Argument>
        ensures { result ≡ slice_get self.now.taken place }
    {
        self.taken.get(place as usize).copied()
    }

    /// Names bound to values, one after the other, in an environment: the number of the innermost environment.
    pub fn bind_all(&mut self, bindings: &[Binding], outer: EnvId) -> Result<EnvId, AllocError>
        ensures grows { (w : World) → w.scopes ≡ self.old.scopes → Grows w (record w { scopes = self.new.scopes }) }
        ensures taken { self.new.taken ≡ self.old.taken }
        ensures bound { IfOk result (λ i. (w : World) (E : Env) (bs : Bindings)
            → w.scopes ≡ self.old.scopes → ShowsEnv w outer E → ShowsBindings w bindings.now bs
            → ShowsEnv (record w { scopes = self.new.scopes }) i (bound_in E bs)) }
    {
        let mut env = outer;
        for binding in bindings {
            env = self.bind(binding.name, binding.value, env)?;
        }
        Ok(env)
    }
}

/// The number of the first environment of the scope that is kept at a place.
pub(crate) fn first_number(place: u64) -> EnvId
    requires { place < 2 ^ 40 }
    ensures { result ≡ first_number place }
{
    EnvId::new(place * STRIDE + 1)
}

// Returns the innermost scope of environment `k` of a kept scope, counted from 0; `before` is the number of the environment before it.
fn nth_scope(scope: Scope, k: u64, before: EnvId) -> Scope
    requires room { HasRoom scope }
    requires few { k < MOST_NUMBERS }
    ensures { result ≡ nth_scope k before scope }
{
    if k == 0 {
        return scope;
    }
    match scope {
        Scope::Slots {
            node,
            parameter,
            slot,
            outer: _,
        } => Scope::Slots {
            node,
            parameter: parameter + k,
            slot: slot + k,
            outer: before,
        },
        Scope::Bound { name, value, outer } => Scope::Bound { name, value, outer },
        Scope::Definitions { list, outer } => Scope::Definitions { list, outer },
    }
}
