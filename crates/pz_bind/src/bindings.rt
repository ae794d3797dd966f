// What the parameters of an instance are given.

ghost use Rattle.std.specs.Prelude.{◌≡◌, ◌<◌, List, ℕ, None, Some, [], length, map, get_or, IfOk, OnOk, if◌then◌else◌};
ghost use Rattle.std.specs.Option.{option_copied, option_or, unwrap_or};
ghost use Rattle.std.specs.Str.{bytes_eq};
ghost use Rattle.pz_bind_rules.specs.pz_classes_code.devices.Above.{names_above};
ghost use Rattle.pz_bind_rules.specs.Values as spec;
ghost use Rattle.pz_bind.specs.devices.Bindings.{meaning_value, bound_in, value_in};

use indexmap::IndexMap;
use pz_bind_rules::pz_classes_code::{NameFront, constant};
use pz_bind_rules::pz_items::Items;
use pz_bind_rules::pz_syntax::{Arg, Given, Instance, Literal};
use pz_bind_rules::pz_value::Value;
use std::alloc::{AllocError, Global};

/// What a parameter is given, handed down from where it is written. `Negated` has the integer behind
/// the minus.
#[derive(Clone, Copy)]
pub(crate) enum Meaning<'a> {
    Nothing,
    Plain(&'a Literal),
    Negated(i64),
}

impl<'a> Meaning<'a> {
    /// The value itself. The only error is want of memory.
    pub(crate) fn value(self, alloc: Global) -> Result<Value, AllocError>
        ensures { IfOk result (λ value. value ≡ meaning_value self.entry) }
    {
        match self {
            Meaning::Nothing => Ok(Value::Nil),
            Meaning::Plain(literal) => constant(alloc, literal),
            Meaning::Negated(n) => Ok(Value::Int(n.wrapping_neg())),
        }
    }
}

/// What each parameter of an instance is given, by its name.
#[derive(Drop)]
pub(crate) struct Bindings<'a> {
    map: IndexMap<&'a [u8], Meaning<'a>>,
}

impl<'a> Bindings<'a> {
    /// Nothing is given. Takes no memory.
    pub(crate) fn new(alloc: Global) -> Bindings<'a>
        ensures { (q : List ℕ) → bound_in result q ≡ None }
    {
        Bindings {
            map: IndexMap::new(alloc),
        }
    }

    /// What the parameter of this name is given.
    pub(crate) fn get(&self, name: &[u8]) -> Meaning<'a>
        ensures { meaning_value result ≡ value_in self.now name.now }
    {
        match self.map.get(name) {
            Some(meaning) => *meaning,
            None => Meaning::Nothing,
        }
    }

    /// Gives a parameter this, unless it is given something. The only error is want of memory.
    fn add(&mut self, name: &'a [u8], meaning: Meaning<'a>) -> Result<(), AllocError>
        ensures { OnOk result ((q : List ℕ) → bound_in self.new q ≡ option_or (bound_in self.old q)
            (if bytes_eq q name.now then Some (meaning_value meaning.entry) else None)) }
    {
        if self.map.get(name).is_none() {
            self.map.insert(name, meaning)?;
        }
        Ok(())
    }

    /// What an argument means, where this is given to the parameters of the cluster around it.
    fn meaning_of(&self, arg: &'a Arg) -> Meaning<'a>
        ensures { meaning_value result ≡ spec.argument_value (value_in self.now) arg.now }
    {
        match arg {
            Arg::Plain(literal, _) => Meaning::Plain(literal),
            Arg::Negated(n, _) => Meaning::Negated(*n),
            Arg::Parameter(parameter) => self.get(parameter.name.as_str().as_bytes()),
        }
    }

    /// What an instance is given, where this is given to the parameters of the cluster around it. The
    /// only error is want of memory.
    pub(crate) fn below(
        &self,
        alloc: Global,
        instance: &'a Instance,
    ) -> Result<Bindings<'a>, AllocError>
        ensures { IfOk result (λ inner. (q : List ℕ) →
            value_in inner q ≡ spec.given_value (value_in self.now)
            (unwrap_or instance.now.given []) q) }
    {
        let mut inner = Bindings::new(alloc);
        let all = given_to(instance);
        for given in all {
            let meaning = self.meaning_of(&given.arg);
            inner.add(given.name.name.as_str().as_bytes(), meaning)?;
        }
        Ok(inner)
    }

    /// The value of the parameter or variable at this place. The only error is want of memory.
    fn value_at(&self, alloc: Global, names: &NameFront, place: u32) -> Result<Value, AllocError>
        requires { place < length names.now.names }
        ensures { IfOk result (λ value. value ≡ value_in self.now
            (get_or names.now.names place [])) }
    {
        match names.name(place) {
            Some(name) => self.get(name.as_str().as_bytes()).value(alloc),
            None => unreachable!(),
        }
    }

    /// The values of these parameters and variables. The only error is want of memory.
    pub(crate) fn values(
        &self,
        alloc: Global,
        names: Option<&NameFront>,
    ) -> Result<Items<Value>, AllocError>
        ensures { IfOk result (λ values. values ≡ map (value_in self.now)
            (names_above (option_copied names.entry))) }
    {
        let mut values = Items::new(alloc);
        let Some(names) = names else {
            return Ok(values);
        };
        for place in 0..names.len() {
            values.push(self.value_at(alloc, names, place)?)?;
        }
        Ok(values)
    }
}

/// What stands in the brackets of an instance.
fn given_to(instance: &Instance) -> &[Given]
    ensures { result.now ≡ unwrap_or instance.now.given [] }
{
    match &instance.given {
        Some(given) => given.as_slice(),
        None => &[],
    }
}
