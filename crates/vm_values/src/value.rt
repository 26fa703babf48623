//! Values as the machine holds them.
ghost use Rattle.std.specs.Prelude.{◌≡◌, [], None, IfOk, MatchOption};
ghost use Rattle.mos_text.specs.declared.scalar.Scalar.TheVariants as scalar;
ghost use Rattle.mos_value.specs.Values.{One, SetOf, ListOf, Range, Fields};
ghost use Rattle.vm_values.specs.Kinds as spec;
ghost use Rattle.vm_values.specs.declared.value.Form.TheVariants.{Fields as fields};

use mos_text::{NoMemory, Scalar, Text};
use mos_value::MemberType;
use sqlite_items::Items;
use std::alloc::Global;
use std::marker::Model;

/// A value. A contract sees it as the value of the definitions.
#[derive(Drop)]
pub struct Value {
    pub(crate) form: Form,
}

/// How a value is held.
#[derive(Drop)]
pub(crate) enum Form {
    One(Scalar),
    /// Members, each once, in the order in which they were added.
    SetOf(MemberType, mos_value::Items),
    ListOf(MemberType, mos_value::Items),
    /// The integers from the first to the last.
    Range(i32, i32),
    /// The names and values of the fields of a record, in the order of its type.
    Fields(Items<Text>, Items<Scalar>),
}

impl Model for Value {
    ghost use Rattle.mos_value.specs.Values.{Value as Meant};

    ghost Value = { Meant };

    ghost use Rattle.vm_values.specs.HeldValues.{value_of};

    ghost view = { λ v. value_of v.form };
}

impl Value {
    /// A value without parts.
    pub fn one(value: Scalar) -> Value
        ensures { result ≡ One value }
    {
        Value {
            form: Form::One(value),
        }
    }

    /// A set without members.
    pub fn no_members(alloc: Global, member: MemberType) -> Value
        ensures { result ≡ SetOf member [] }
    {
        Value {
            form: Form::SetOf(member, mos_value::Items::new(alloc)),
        }
    }

    /// A list without items.
    pub fn no_items(alloc: Global, member: MemberType) -> Value
        ensures { result ≡ ListOf member [] }
    {
        Value {
            form: Form::ListOf(member, mos_value::Items::new(alloc)),
        }
    }

    /// The integers from the first to the last.
    pub fn range(first: i32, last: i32) -> Value
        ensures { result ≡ Range first last }
    {
        Value {
            form: Form::Range(first, last),
        }
    }

    /// A record with these fields.
    pub fn fields(names: Items<Text>, values: Items<Scalar>) -> Value
        ensures { result ≡ Fields names values }
    {
        Value {
            form: Form::Fields(names, values),
        }
    }

    /// The same value once more.
    pub fn copy(&self, alloc: Global) -> Result<Value, NoMemory>
        ensures { IfOk result (λ value. value ≡ self.now) }
    {
        let form = self.form.copy(alloc)?;
        Ok(Value { form })
    }

    /// A set of these members, each once.
    pub fn set(member: MemberType, members: mos_value::Items) -> Value
        ensures { result ≡ SetOf member members }
    {
        Value {
            form: Form::SetOf(member, members),
        }
    }

    /// A list of these items.
    pub fn list(member: MemberType, items: mos_value::Items) -> Value
        ensures { result ≡ ListOf member items }
    {
        Value {
            form: Form::ListOf(member, items),
        }
    }

    /// The scalar, where the value is one.
    pub fn into_scalar(self) -> Option<Scalar>
        ensures { MatchOption result (spec.scalar_in self ≡ None) (λ value. self ≡ One value) }
    {
        let Value { form } = self;
        match form {
            Form::One(value) => Some(value),
            Form::SetOf(_, _) | Form::ListOf(_, _) => None,
            Form::Range(_, _) | Form::Fields(_, _) => None,
        }
    }

    /// The members and their type, where the value is a set.
    pub fn into_set(self) -> Option<(MemberType, mos_value::Items)>
        ensures { MatchOption result (spec.set_in self ≡ None) (λ set. self ≡ SetOf set.0 set.1) }
    {
        let Value { form } = self;
        match form {
            Form::SetOf(member, members) => Some((member, members)),
            Form::One(_) | Form::ListOf(_, _) => None,
            Form::Range(_, _) | Form::Fields(_, _) => None,
        }
    }

    /// The items and their type, where the value is a list.
    pub fn into_list(self) -> Option<(MemberType, mos_value::Items)>
        ensures { MatchOption result (spec.list_in self ≡ None)
            (λ list. self ≡ ListOf list.0 list.1) }
    {
        let Value { form } = self;
        match form {
            Form::ListOf(member, items) => Some((member, items)),
            Form::One(_) | Form::SetOf(_, _) => None,
            Form::Range(_, _) | Form::Fields(_, _) => None,
        }
    }

    /// The text, where the value is one.
    pub fn into_text(self) -> Option<Text>
        ensures { MatchOption result (spec.text_in self ≡ None)
            (λ text. self ≡ One (scalar.Str text)) }
    {
        match self.into_scalar() {
            Some(Scalar::Str(text)) => Some(text),
            Some(Scalar::Int(_) | Scalar::Bool(_) | Scalar::Model(_) | Scalar::Event(_, _)) => None,
            None => None,
        }
    }

    /// The scalar, where the value is one.
    pub fn as_scalar(&self) -> Option<&Scalar>
        ensures { MatchOption result (spec.scalar_in self.now ≡ None)
            (λ value. self.now ≡ One value.now) }
    {
        match &self.form {
            Form::One(value) => Some(value),
            Form::SetOf(_, _) | Form::ListOf(_, _) => None,
            Form::Range(_, _) | Form::Fields(_, _) => None,
        }
    }

    /// The integer, where the value is one.
    pub fn as_integer(&self) -> Option<i32>
        ensures { MatchOption result (spec.integer_in self.now ≡ None)
            (λ number. self.now ≡ One (scalar.Int number)) }
    {
        match self.as_scalar() {
            Some(Scalar::Int(number)) => Some(*number),
            Some(Scalar::Bool(_) | Scalar::Str(_) | Scalar::Model(_) | Scalar::Event(_, _)) => None,
            None => None,
        }
    }

    /// The truth, where the value is one.
    pub fn as_truth(&self) -> Option<bool>
        ensures { MatchOption result (spec.truth_in self.now ≡ None)
            (λ truth. self.now ≡ One (scalar.Bool truth)) }
    {
        match self.as_scalar() {
            Some(Scalar::Bool(truth)) => Some(*truth),
            Some(Scalar::Int(_) | Scalar::Str(_) | Scalar::Model(_) | Scalar::Event(_, _)) => None,
            None => None,
        }
    }

    /// The text, where the value is one.
    pub fn as_text(&self) -> Option<&Text>
        ensures { MatchOption result (spec.text_in self.now ≡ None)
            (λ text. self.now ≡ One (scalar.Str text.now)) }
    {
        match self.as_scalar() {
            Some(Scalar::Str(text)) => Some(text),
            Some(Scalar::Int(_) | Scalar::Bool(_) | Scalar::Model(_) | Scalar::Event(_, _)) => None,
            None => None,
        }
    }

    /// The members and their type, where the value is a set.
    pub fn as_set(&self) -> Option<(MemberType, &mos_value::Items)>
        ensures { MatchOption result (spec.set_in self.now ≡ None)
            (λ set. self.now ≡ SetOf set.0 set.1.now) }
    {
        match &self.form {
            Form::SetOf(member, members) => Some((*member, members)),
            Form::One(_) | Form::ListOf(_, _) => None,
            Form::Range(_, _) | Form::Fields(_, _) => None,
        }
    }

    /// The items and their type, where the value is a list.
    pub fn as_list(&self) -> Option<(MemberType, &mos_value::Items)>
        ensures { MatchOption result (spec.list_in self.now ≡ None)
            (λ list. self.now ≡ ListOf list.0 list.1.now) }
    {
        match &self.form {
            Form::ListOf(member, items) => Some((*member, items)),
            Form::One(_) | Form::SetOf(_, _) => None,
            Form::Range(_, _) | Form::Fields(_, _) => None,
        }
    }

    /// The bounds, where the value is a range.
    pub fn as_range(&self) -> Option<(i32, i32)>
        ensures { MatchOption result (spec.range_in self.now ≡ None)
            (λ range. self.now ≡ Range range.0 range.1) }
    {
        match &self.form {
            Form::Range(first, last) => Some((*first, *last)),
            Form::One(_) | Form::SetOf(_, _) => None,
            Form::ListOf(_, _) | Form::Fields(_, _) => None,
        }
    }
}

impl Form {
    fn copy(&self, alloc: Global) -> Result<Form, NoMemory>
        ensures { IfOk result (λ form. form ≡ self.now) }
    {
        match self {
            Form::One(value) => Ok(Form::One(value.copy(alloc)?)),
            Form::SetOf(member, members) => Ok(Form::SetOf(*member, members.copy(alloc)?)),
            Form::ListOf(member, items) => Ok(Form::ListOf(*member, items.copy(alloc)?)),
            Form::Range(first, last) => Ok(Form::Range(*first, *last)),
            Form::Fields(names, values) => fields_copy(alloc, names.as_slice(), values.as_slice()),
        }
    }
}

fn fields_copy(alloc: Global, names: &[Text], values: &[Scalar]) -> Result<Form, NoMemory>
    ensures { IfOk result (λ form. form ≡ fields names.now values.now) }
{
    let names = name_copies(alloc, names)?;
    match copies(alloc, values) {
        Ok(values) => Ok(Form::Fields(names, values)),
        Err(refusal) => Err(refusal),
    }
}

/// The same names in the same order.
fn name_copies(alloc: Global, names: &[Text]) -> Result<Items<Text>, NoMemory>
    ensures { IfOk result (λ copied. copied ≡ names.now) }
{
    let mut copied = Items::new(alloc);
    for name in names {
        copied.push(name.copy(alloc)?)?;
    }
    Ok(copied)
}

/// The same values in the same order.
fn copies(alloc: Global, values: &[Scalar]) -> Result<Items<Scalar>, NoMemory>
    ensures { IfOk result (λ copied. copied ≡ values.now) }
{
    let mut copied = Items::new(alloc);
    for value in values {
        copied.push(value.copy(alloc)?)?;
    }
    Ok(copied)
}
