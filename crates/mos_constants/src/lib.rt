//! Constant expressions: which expressions have the form, and their values by the operators of the language.
#![tactic(auto)]

mod form;
mod found;
mod no_value;
mod operators;
mod value;
mod wanted;

pub use form::has_constant_form;
pub use value::constant_value;
pub use wanted::constant;
