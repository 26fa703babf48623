//! What the code that runs has at hand: its operands, and what it printed and did not yet write.
ghost use Rattle.std.specs.Prelude.{◌≡◌, ◌++◌, [], ℤ, Bool, List, ℕ, None, OnOk, MatchOption};
ghost use Rattle.bim_machine.specs.Machine.{Work as Hand, Act, idle, push};
ghost use Rattle.bim_machine.specs.Instructions.{on_integer, on_text, on_truth, values_off};
ghost use Rattle.mos_vm.specs.Rows.{with_top};

use crate::value::Value;
use mos_text::{NoMemory, Text};
use std::alloc::Global;
use std::marker::Model;

/// Operands and held texts. A contract sees them as the work of the definitions.
#[derive(Drop)]
pub(crate) struct Work {
    /// The top last.
    stack: Vec<Value>,
    held: Vec<u8>,
}

impl Model for Work {
    ghost use Rattle.std.specs.Prelude.{map, reverse};
    ghost use Rattle.mos_value.specs.Values.{Holds};
    ghost use Rattle.bim_machine.specs.Machine.{Work as Hand};

    ghost Value = { Hand };

    ghost view = { λ w. record { stack = map Holds (reverse w.stack.items); held = w.held.items } };
}

impl Work {
    /// Nothing at hand.
    pub(crate) fn idle(alloc: Global) -> Work
        ensures { result ≡ idle }
    {
        Work {
            stack: Vec::new(alloc),
            held: Vec::new(alloc),
        }
    }

    /// Puts a value on top.
    pub(crate) fn push(&mut self, value: Value) -> Result<(), NoMemory>
        ensures { OnOk result (self.new ≡ push value self.old) }
    {
        Ok(self.stack.push(value)?)
    }

    /// Takes the value on top.
    pub(crate) fn pop(&mut self) -> Option<Value>
        ensures { MatchOption result (self.old.stack ≡ [])
            (λ value. self.old ≡ push value self.new) }
    {
        self.stack.pop()
    }

    /// Takes two values; the second is the one on top.
    pub(crate) fn pop_two(&mut self) -> Option<(Value, Value)>
        ensures { MatchOption result (values_off 2 self.old.stack [] ≡ None)
            (λ pair. self.old ≡ push pair.1 (push pair.0 self.new)) }
    {
        match self.pop() {
            Some(right) => match self.pop() {
                Some(left) => Some((left, right)),
                None => None,
            },
            None => None,
        }
    }

    /// Takes the top, where it is an integer.
    pub(crate) fn pop_integer(&mut self) -> Option<i32>
        ensures { (go : ℤ → Hand → Act)
            → on_integer self.old.stack self.old go ≡ with_top result self.new go }
    {
        match self.pop() {
            Some(value) => value.into_integer(),
            None => None,
        }
    }

    /// Takes the top, where it is a boolean.
    pub(crate) fn pop_truth(&mut self) -> Option<bool>
        ensures { (go : Bool → Hand → Act)
            → on_truth self.old.stack self.old go ≡ with_top result self.new go }
    {
        match self.pop() {
            Some(value) => value.into_truth(),
            None => None,
        }
    }

    /// Takes the top, where it is a text.
    pub(crate) fn pop_text(&mut self) -> Option<Text>
        ensures { (go : List ℕ → Hand → Act)
            → on_text self.old.stack self.old go ≡ with_top result self.new go }
    {
        match self.pop() {
            Some(value) => value.into_text(),
            None => None,
        }
    }

    /// Holds these bytes too.
    pub(crate) fn hold(&mut self, bytes: &[u8]) -> Result<(), NoMemory>
        ensures { OnOk result (self.new ≡ record self.old { held = self.old.held ++ bytes.now }) }
    {
        Ok(self.held.extend_from_slice(bytes)?)
    }

    /// What is held.
    pub(crate) fn held(&self) -> &[u8]
        ensures { result.now ≡ self.now.held }
    {
        self.held.as_slice()
    }

    /// Holds nothing any more.
    pub(crate) fn let_held_go(&mut self)
        ensures { self.new ≡ record self.old { held = [] } }
    {
        self.held.clear();
    }
}
