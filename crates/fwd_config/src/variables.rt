//! Variables, and their replacement in values.

ghost use Rattle.std.specs.Prelude.{◌≡◌, List, ℕ, IfOk, OnOk, MatchResult};
ghost use Rattle.fwd_config.specs.Variables.{environment, with_value};
ghost use Rattle.fwd_config.specs.Representation.{value_of, IsReplacement};

use crate::ConfigKind;
use fwd_base::{Bytes, Memory, index_of};
use std::alloc::Global;
use std::collections::HashMap;

/// The variables of `@SET`, and those of the environment.
#[derive(Drop)]
pub struct Variables {
    values: HashMap<Vec<u8>, Bytes>,
}

impl Variables {
    /// Returns the variables of the environment. If a name occurs several times, the first counts.
    pub fn new(alloc: Global, env: &[(String, String)]) -> Result<Variables, Memory>
        ensures { IfOk result (λ variables. (name : List ℕ) → value_of variables name
            ≡ environment env.now name) }
    {
        let mut variables = Variables {
            values: HashMap::new(alloc),
        };
        let mut left = env.len();
        while left > 0 {
            left -= 1;
            let (name, value) = &env[left];
            let value = Bytes::from_slice(alloc, value.as_bytes())?;
            variables.set(alloc, name.as_bytes(), value)?;
        }
        Ok(variables)
    }

    /// Returns the value of a variable, which is empty if it isn't set.
    pub fn get(&self, name: &[u8]) -> &[u8]
        ensures { result.now ≡ value_of self.now name.now }
    {
        match self.values.get(name) {
            Some(value) => value.as_slice(),
            None => &[],
        }
    }

    /// Sets a variable.
    pub fn set(&mut self, alloc: Global, name: &[u8], value: Bytes) -> Result<(), Memory>
        ensures { OnOk result ((other : List ℕ) → value_of self.new other
            ≡ with_value (value_of self.old) name.now value other) }
    {
        let name = Vec::from_slice(alloc, name)?;
        self.values.insert(name, value)?;
        Ok(())
    }

    /// Returns a value with each `${NAME}` replaced. Fails if a `${` has no `}` after it.
    pub fn replace_variables(&self, alloc: Global, value: &[u8]) -> Result<Bytes, ConfigKind>
        ensures { IsReplacement (value_of self.now) value.now result }
    {
        let mut text = Bytes::new(alloc);
        let mut rest = value;
        while !rest.is_empty() {
            if let Some(named) = rest.strip_prefix(b"${") {
                let end = index_of(named, b'}');
                if end == named.len() {
                    return Err(ConfigKind::OpenBrace);
                }
                text.extend_from_slice(self.get(&named[..end]))?;
                rest = &named[end + 1..];
            } else {
                text.push(rest[0])?;
                rest = &rest[1..];
            }
        }
        Ok(text)
    }
}
