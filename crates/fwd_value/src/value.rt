//! The value type, and its lists of values and of key-value pairs.

ghost use Rattle.std.specs.Prelude.{◌≡◌, ◌↔◌, ℕ, ◌<◌, ◌≤◌, ◌^◌, List, [], ◌∷◌, ◌++◌, length, map, set, insert, remove, slice_get, option_map, option_to_list, IsTrue, IfNone, IfOk, OnOk, OnErr};
ghost use Rattle.std.specs.Slice.Iter.{iter_rest, iter_steps};
ghost use Rattle.std.specs.Iterator.Runs.{EveryRun, ItemsMapTo};
ghost use Rattle.fwd_value.specs.Val.{Val, vals_of, entries_of};
ghost use Rattle.fwd_value.specs.Limits.{nesting, nestings, entry_nestings};
ghost use Rattle.fwd_value.specs.declared.value.Value.{Value};
ghost use Rattle.fwd_value.specs.View.{val_of, pair_of};
ghost use Rattle.fwd_value.specs.Edits.{ReplacesKey, ReplacesValue};

use crate::Below;
use fwd_base::{Bytes, Memory, crosses};
use std::alloc::Global;
use std::marker::Model;
use std::slice;

/// A value of MessagePack. A float is stored as its bits.
#[derive(Debug, Drop)]
#[cycle(value)]
pub enum Value {
    Nil,
    Truth(bool),
    /// A whole number from 0 on.
    Uint(u64),
    /// A negative whole number.
    Neg(Below),
    /// A text. Its bytes need not be UTF-8.
    Text(Bytes),
    Bin(Bytes),
    Float32(u32),
    Float64(u64),
    /// An extension: its type, and its bytes.
    Ext(i8, Bytes),
    List(Values),
    Map(Pairs),
}

/// A list of values. Contracts see the list of their mathematical values.
#[derive(Debug, Drop)]
#[cycle(value)]
pub struct Values {
    items: Vec<Value>,
}

/// The key-value pairs of a map, in order. A key may occur more than once. Contracts see the list of their
/// mathematical values.
#[derive(Debug, Drop)]
#[cycle(value)]
pub struct Pairs {
    items: Vec<(Value, Value)>,
}

impl Model for Values {
    ghost use Rattle.std.specs.Prelude.{List, map};
    ghost use Rattle.std.specs.Coded.{coded_list};
    ghost use Rattle.fwd_value.specs.Val.{Val, vals_of};
    ghost use Rattle.fwd_value.specs.Weight.{weights};
    ghost use Rattle.fwd_value.specs.ValueCode.{val_code};

    ghost Value = { List Val };

    ghost coded = { coded_list val_code };

    ghost use Rattle.fwd_value.specs.View.{val_of};

    ghost view = { λ a. map val_of a.items.items };

    ghost size = { λ vs. weights (vals_of vs) };

    ghost use Rattle.std.proofs.Common.{arith};
    ghost use Rattle.fwd_value.specs.WeightOrder.{deep_below_weights};

    ghost size_decreases = { λ a h. omega (arith, deep_below_weights a.items.items) };
}

impl Model for Pairs {
    ghost use Rattle.std.specs.Prelude.{List, map};
    ghost use Rattle.std.specs.Coded.{coded_list, coded×};
    ghost use Rattle.fwd_value.specs.Val.{Val, entries_of};
    ghost use Rattle.fwd_value.specs.Weight.{entry_weights};
    ghost use Rattle.fwd_value.specs.ValueCode.{val_code};

    ghost Value = { List (Val × Val) };

    ghost coded = { coded_list (coded× val_code val_code) };

    ghost use Rattle.fwd_value.specs.View.{pair_of};

    ghost view = { λ a. map pair_of a.items.items };

    ghost size = { λ es. entry_weights (entries_of es) };

    ghost use Rattle.std.proofs.Common.{arith};
    ghost use Rattle.fwd_value.specs.WeightOrder.{pairs_below};

    ghost size_decreases = { λ a h. pairs_below a.items.items };
}

impl Value {
    /// Returns whether lists and maps are nested at most `depth` deep in this value. The recursion goes no
    /// deeper.
    #[cycle(nests_within)]
    pub fn nests_within(&self, depth: u64) -> bool
        ensures { IsTrue result ↔ (nesting (val_of self.now) ≤ depth) }
    {
        match self {
            Value::List(values) => depth > 0 && values.nest_within(depth - 1),
            Value::Map(pairs) => depth > 0 && pairs.nest_within(depth - 1),
            Value::Nil
            | Value::Truth(_)
            | Value::Uint(_)
            | Value::Neg(_)
            | Value::Text(_)
            | Value::Bin(_)
            | Value::Float32(_)
            | Value::Float64(_)
            | Value::Ext(_, _) => true,
        }
    }

    /// Returns a copy. Fails only if memory is out.
    #[cycle(try_clone)]
    pub fn try_clone(&self, alloc: Global) -> Result<Value, Memory>
        ensures { IfOk result (λ copy. val_of copy ≡ val_of self.now) }
    {
        match self {
            Value::Nil => Ok(Value::Nil),
            Value::Truth(truth) => Ok(Value::Truth(*truth)),
            Value::Uint(n) => Ok(Value::Uint(*n)),
            Value::Neg(n) => Ok(Value::Neg(*n)),
            Value::Text(text) => Ok(Value::Text(text.try_clone(alloc)?)),
            Value::Bin(bytes) => Ok(Value::Bin(bytes.try_clone(alloc)?)),
            Value::Float32(bits) => Ok(Value::Float32(*bits)),
            Value::Float64(bits) => Ok(Value::Float64(*bits)),
            Value::Ext(kind, bytes) => Ok(Value::Ext(*kind, bytes.try_clone(alloc)?)),
            Value::List(values) => Ok(Value::List(values.try_clone(alloc)?)),
            Value::Map(pairs) => Ok(Value::Map(pairs.try_clone(alloc)?)),
        }
    }
}

impl Values {
    pub fn new(alloc: Global) -> Values
        ensures { result ≡ [] }
    {
        Values {
            items: Vec::new(alloc),
        }
    }

    pub fn from_vec(items: Vec<Value>) -> Values
        ensures { result ≡ map val_of items.items }
    {
        Values { items }
    }

    pub fn into_vec(self) -> Vec<Value>
        ensures { map val_of result.items ≡ self }
    {
        let Values { items } = self;
        items
    }

    pub fn len(&self) -> usize
        ensures { result ≡ length self.now }
    {
        self.items.len()
    }

    pub fn is_empty(&self) -> bool
        ensures { IsTrue result ↔ (self.now ≡ []) }
    {
        self.items.is_empty()
    }

    /// Returns the value at an index, if there is one.
    pub fn get(&self, index: usize) -> Option<&Value>
        ensures { option_map (λ v. val_of v.now) result ≡ slice_get self.now index }
    {
        self.items.get(index)
    }

    pub fn as_slice(&self) -> &[Value]
        ensures { map val_of result.now ≡ self.now }
    {
        self.items.as_slice()
    }

    pub fn iter(&self) -> slice::Iter<'_, Value>
        ensures { map val_of (iter_rest result) ≡ self.now }
    {
        self.items.iter()
    }

    /// Appends a value. After `Err` the list is unchanged.
    pub fn push(&mut self, value: Value) -> Result<(), Memory>
        ensures ok { OnOk result (self.new ≡ self.old ++ val_of value ∷ []) }
        ensures err { OnErr result (self.new ≡ self.old) }
    {
        self.items.push(value)?;
        Ok(())
    }

    /// Reserves capacity for `more` further values. The list is unchanged.
    pub fn reserve(&mut self, more: usize) -> Result<(), Memory>
        ensures { self.new ≡ self.old }
    {
        self.items.reserve(more)?;
        Ok(())
    }

    /// Replaces the value at an index.
    pub fn set(&mut self, index: usize, value: Value)
        requires { index < length self.old }
        ensures { self.new ≡ set self.old index (val_of value) }
    {
        self.items[index] = value;
    }

    /// Inserts a value at an index, and shifts those from there on. After `Err` the list is unchanged.
    pub fn insert(&mut self, index: usize, value: Value) -> Result<(), Memory>
        requires { index ≤ length self.old }
        ensures ok { OnOk result (self.new ≡ insert self.old index (val_of value)) }
        ensures err { OnErr result (self.new ≡ self.old) }
    {
        self.items.insert(index, value)?;
        Ok(())
    }

    /// Removes and returns the value at an index, and shifts those after it.
    pub fn remove(&mut self, index: usize) -> Value
        requires { index < length self.old }
        ensures left { self.new ≡ remove self.old index }
        ensures taken { slice_get self.old index ≡ Some (val_of result) }
    {
        self.items.remove(index)
    }

    /// Removes and returns the last value, if there is one.
    pub fn pop(&mut self) -> Option<Value>
        ensures taken { self.old ≡ self.new ++ option_to_list (option_map val_of result) }
        ensures none { IfNone result (self.old ≡ []) }
    {
        self.items.pop()
    }

    /// Returns whether lists and maps are nested at most `depth` deep in each value.
    #[cycle(nests_within)]
    pub fn nest_within(&self, depth: u64) -> bool
        ensures { IsTrue result ↔ (nestings (vals_of self.now) ≤ depth) }
    {
        for value in &self.items {
            if !value.nests_within(depth) {
                return false;
            }
        }
        true
    }

    /// Returns a copy. Fails only if memory is out.
    #[cycle(try_clone)]
    pub fn try_clone(&self, alloc: Global) -> Result<Values, Memory>
        ensures { IfOk result (λ copy. copy ≡ self.now) }
    {
        let mut items = Vec::with_capacity(alloc, self.items.len())?;
        for value in &self.items {
            items.push(value.try_clone(alloc)?)?;
        }
        Ok(Values { items })
    }
}

impl Pairs {
    pub fn new(alloc: Global) -> Pairs
        ensures { result ≡ [] }
    {
        Pairs {
            items: Vec::new(alloc),
        }
    }

    pub fn from_vec(items: Vec<(Value, Value)>) -> Pairs
        ensures { result ≡ map pair_of items.items }
    {
        Pairs { items }
    }

    pub fn into_vec(self) -> Vec<(Value, Value)>
        ensures { map pair_of result.items ≡ self }
    {
        let Pairs { items } = self;
        items
    }

    pub fn len(&self) -> usize
        ensures { result ≡ length self.now }
    {
        self.items.len()
    }

    pub fn is_empty(&self) -> bool
        ensures { IsTrue result ↔ (self.now ≡ []) }
    {
        self.items.is_empty()
    }

    /// Returns the pair at an index, if there is one.
    pub fn get(&self, index: usize) -> Option<&(Value, Value)>
        ensures { option_map (λ p. pair_of p.now) result ≡ slice_get self.now index }
    {
        self.items.get(index)
    }

    pub fn as_slice(&self) -> &[(Value, Value)]
        ensures { map pair_of result.now ≡ self.now }
    {
        self.items.as_slice()
    }

    pub fn iter(&self) -> slice::Iter<'_, (Value, Value)>
        ensures { map pair_of (iter_rest result) ≡ self.now }
    {
        self.items.iter()
    }

    /// Appends a pair. After `Err` the pairs are unchanged.
    pub fn push(&mut self, pair: (Value, Value)) -> Result<(), Memory>
        ensures ok { OnOk result (self.new ≡ self.old ++ pair_of pair ∷ []) }
        ensures err { OnErr result (self.new ≡ self.old) }
    {
        self.items.push(pair)?;
        Ok(())
    }

    /// Reserves capacity for `more` further pairs. The pairs are unchanged.
    pub fn reserve(&mut self, more: usize) -> Result<(), Memory>
        ensures { self.new ≡ self.old }
    {
        self.items.reserve(more)?;
        Ok(())
    }

    /// Replaces the value of the pair at an index, and keeps its key.
    pub fn set_value(&mut self, index: usize, value: Value)
        requires { index < length self.old }
        ensures { ReplacesValue self.old index (val_of value) self.new }
    {
        self.items[index].1 = value;
    }

    /// Replaces the key of the pair at an index, and keeps its value.
    pub fn set_key(&mut self, index: usize, key: Value)
        requires { index < length self.old }
        ensures { ReplacesKey self.old index (val_of key) self.new }
    {
        self.items[index].0 = key;
    }

    /// Inserts a pair at an index, and shifts those from there on. After `Err` the pairs are unchanged.
    pub fn insert(&mut self, index: usize, pair: (Value, Value)) -> Result<(), Memory>
        requires { index ≤ length self.old }
        ensures ok { OnOk result (self.new ≡ insert self.old index (pair_of pair)) }
        ensures err { OnErr result (self.new ≡ self.old) }
    {
        self.items.insert(index, pair)?;
        Ok(())
    }

    /// Removes and returns the pair at an index, and shifts those after it.
    pub fn remove(&mut self, index: usize) -> (Value, Value)
        requires { index < length self.old }
        ensures left { self.new ≡ remove self.old index }
        ensures taken { slice_get self.old index ≡ Some (pair_of result) }
    {
        self.items.remove(index)
    }

    /// Removes and returns the last pair, if there is one.
    pub fn pop(&mut self) -> Option<(Value, Value)>
        ensures taken { self.old ≡ self.new ++ option_to_list (option_map pair_of result) }
        ensures none { IfNone result (self.old ≡ []) }
    {
        self.items.pop()
    }

    /// Returns whether lists and maps are nested at most `depth` deep in each key and each value.
    #[cycle(nests_within)]
    pub fn nest_within(&self, depth: u64) -> bool
        ensures { IsTrue result ↔ (entry_nestings (entries_of self.now) ≤ depth) }
    {
        for pair in &self.items {
            if !pair.0.nests_within(depth) || !pair.1.nests_within(depth) {
                return false;
            }
        }
        true
    }

    /// Returns a copy. Fails only if memory is out.
    #[cycle(try_clone)]
    pub fn try_clone(&self, alloc: Global) -> Result<Pairs, Memory>
        ensures { IfOk result (λ copy. copy ≡ self.now) }
    {
        let mut items = Vec::with_capacity(alloc, self.items.len())?;
        for pair in &self.items {
            let key = pair.0.try_clone(alloc)?;
            let value = pair.1.try_clone(alloc)?;
            items.push((key, value))?;
        }
        Ok(Pairs { items })
    }
}

impl<'a> IntoIterator for &'a Values {
    type Item = &'a Value;

    type IntoIter = slice::Iter<'a, Value>;

    ghost into_iter_gives = { λ l r. (map val_of (iter_rest r) ≡ l.now) × (length (iter_rest r) < 2 ^ 64)
        × EveryRun (iter_steps {A = Value}) (λ p. ItemsMapTo p (λ y. y.now) (iter_rest p.from)) };

    fn into_iter(self) -> slice::Iter<'a, Value> {
        self.items.as_slice().iter()
    }
}

impl<'a> IntoIterator for &'a Pairs {
    type Item = &'a (Value, Value);

    type IntoIter = slice::Iter<'a, (Value, Value)>;

    ghost into_iter_gives = { λ l r. (map pair_of (iter_rest r) ≡ l.now) × (length (iter_rest r) < 2 ^ 64)
        × EveryRun (iter_steps {A = Value × Value}) (λ p. ItemsMapTo p (λ y. y.now) (iter_rest p.from)) };

    fn into_iter(self) -> slice::Iter<'a, (Value, Value)> {
        self.items.as_slice().iter()
    }
}

/// Shows that `Value`, `Values` and `Pairs` are `Send` and `Sync`.
pub fn values_are_send_sync(value: &Value, values: &Values, pairs: &Pairs) {
    crosses(value);
    crosses(values);
    crosses(pairs);
}
