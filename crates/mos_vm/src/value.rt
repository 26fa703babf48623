//! Values as the machine holds them.
ghost use Rattle.std.specs.Prelude.{◌≡◌, [], None, IfOk, MatchOption};
ghost use Rattle.mos_text.specs.declared.scalar.Scalar.TheVariants as scalar;
ghost use Rattle.mos_value.specs.Values.{One, SetOf, ListOf, Range, Fields};
ghost use Rattle.mos_vm.specs.HeldValues.{scalar_in, integer_in, truth_in, text_in};
ghost use Rattle.mos_vm.specs.declared.value.Form.TheVariants.{Fields as fields};

use mos_text::{NoMemory, Scalar, Text};
use mos_value::MemberType;
use sqlite_items::Items;
use std::alloc::Global;
use std::marker::Model;

/// A value. A contract sees it as the value of the definitions.
#[derive(Drop)]
pub(crate) struct Value {
    form: Form,
}

/// How a value is held.
#[derive(Drop)]
enum Form {
    One(Scalar),
    /// Members, each once, in the order in which they were added.
    SetOf(MemberType, mos_value::Items),
    ListOf(MemberType, mos_value::Items),
    /// The integers from the first to the last.
    Range(i32, i32),
    /// The names and values of the fields of a record, in the order of its type.
    Fields(Items<Text>, Items<Scalar>),
}

impl Model for Value {
    ghost use Rattle.mos_value.specs.Values.{Value as Meant};

    ghost Value = { Meant };

    ghost use Rattle.mos_vm.specs.HeldValues.{value_of};

    ghost view = { λ v. value_of v.form };
}

impl Value {
    /// A value without parts.
    pub(crate) fn one(value: Scalar) -> Value
        ensures { result ≡ One value }
    {
        Value {
            form: Form::One(value),
        }
    }

    /// A set without members.
    pub(crate) fn no_members(alloc: Global, member: MemberType) -> Value
        ensures { result ≡ SetOf member [] }
    {
        Value {
            form: Form::SetOf(member, mos_value::Items::new(alloc)),
        }
    }

    /// A list without items.
    pub(crate) fn no_items(alloc: Global, member: MemberType) -> Value
        ensures { result ≡ ListOf member [] }
    {
        Value {
            form: Form::ListOf(member, mos_value::Items::new(alloc)),
        }
    }

    /// The integers from the first to the last.
    pub(crate) fn range(first: i32, last: i32) -> Value
        ensures { result ≡ Range first last }
    {
        Value {
            form: Form::Range(first, last),
        }
    }

    /// A record with these fields.
    pub(crate) fn fields(names: Items<Text>, values: Items<Scalar>) -> Value
        ensures { result ≡ Fields names values }
    {
        Value {
            form: Form::Fields(names, values),
        }
    }

    /// The same value once more.
    pub(crate) fn copy(&self, alloc: Global) -> Result<Value, NoMemory>
        ensures { IfOk result (λ value. value ≡ self.now) }
    {
        let form = self.form.copy(alloc)?;
        Ok(Value { form })
    }

    /// The value, where it is one without parts.
    pub(crate) fn into_scalar(self) -> Option<Scalar>
        ensures { MatchOption result (scalar_in self ≡ None) (λ value. self ≡ One value) }
    {
        let Value { form } = self;
        match form {
            Form::One(value) => Some(value),
            Form::SetOf(_, _) | Form::ListOf(_, _) => None,
            Form::Range(_, _) | Form::Fields(_, _) => None,
        }
    }

    /// The integer, where it is one.
    pub(crate) fn into_integer(self) -> Option<i32>
        ensures { MatchOption result (integer_in self ≡ None)
            (λ number. self ≡ One (scalar.Int number)) }
    {
        match self.into_scalar() {
            Some(Scalar::Int(number)) => Some(number),
            Some(Scalar::Bool(_) | Scalar::Str(_) | Scalar::Model(_) | Scalar::Event(_, _)) => None,
            None => None,
        }
    }

    /// The boolean, where it is one.
    pub(crate) fn into_truth(self) -> Option<bool>
        ensures { MatchOption result (truth_in self ≡ None)
            (λ truth. self ≡ One (scalar.Bool truth)) }
    {
        match self.into_scalar() {
            Some(Scalar::Bool(truth)) => Some(truth),
            Some(Scalar::Int(_) | Scalar::Str(_) | Scalar::Model(_) | Scalar::Event(_, _)) => None,
            None => None,
        }
    }

    /// The text, where it is one.
    pub(crate) fn into_text(self) -> Option<Text>
        ensures { MatchOption result (text_in self ≡ None)
            (λ text. self ≡ One (scalar.Str text)) }
    {
        match self.into_scalar() {
            Some(Scalar::Str(text)) => Some(text),
            Some(Scalar::Int(_) | Scalar::Bool(_) | Scalar::Model(_) | Scalar::Event(_, _)) => None,
            None => None,
        }
    }
}

impl Form {
    fn copy(&self, alloc: Global) -> Result<Form, NoMemory>
        ensures { IfOk result (λ form. form ≡ self.now) }
    {
        match self {
            Form::One(value) => Ok(Form::One(value.copy(alloc)?)),
            Form::SetOf(member, members) => Ok(Form::SetOf(*member, members.copy(alloc)?)),
            Form::ListOf(member, items) => Ok(Form::ListOf(*member, items.copy(alloc)?)),
            Form::Range(first, last) => Ok(Form::Range(*first, *last)),
            Form::Fields(names, values) => fields_copy(alloc, names.as_slice(), values.as_slice()),
        }
    }
}

fn fields_copy(alloc: Global, names: &[Text], values: &[Scalar]) -> Result<Form, NoMemory>
    ensures { IfOk result (λ form. form ≡ fields names.now values.now) }
{
    let names = name_copies(alloc, names)?;
    match copies(alloc, values) {
        Ok(values) => Ok(Form::Fields(names, values)),
        Err(refusal) => Err(refusal),
    }
}

/// The same names in the same order.
fn name_copies(alloc: Global, names: &[Text]) -> Result<Items<Text>, NoMemory>
    ensures { IfOk result (λ copied. copied ≡ names.now) }
{
    let mut copied = Items::new(alloc);
    for name in names {
        copied.push(name.copy(alloc)?)?;
    }
    Ok(copied)
}

/// The same values in the same order.
fn copies(alloc: Global, values: &[Scalar]) -> Result<Items<Scalar>, NoMemory>
    ensures { IfOk result (λ copied. copied ≡ values.now) }
{
    let mut copied = Items::new(alloc);
    for value in values {
        copied.push(value.copy(alloc)?)?;
    }
    Ok(copied)
}
