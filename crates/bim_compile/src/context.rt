//! What is known where code is made.
ghost use Rattle.std.specs.Prelude.{◌≡◌, ◌<◌, ◌^◌, length};
ghost use Rattle.mos_names.specs.NameLists.{place_of};
ghost use Rattle.bim_compile.specs.Contexts.{outside_of};

use mos_names::Names;
use mos_text::Text;
use std::marker::Model;

/// The names of the variables.
#[derive(Drop)]
pub(crate) struct Context<'a> {
    variables: Names<'a>,
}

impl<'a> Model for Context<'a> {
    ghost use Rattle.bim_compile.specs.Contexts.{Context as Known, outside_of};

    ghost Value = { Known };

    ghost view = { λ c. outside_of c.variables };
}

impl<'a> Context<'a> {
    /// Outside of routines, where the model has these variables.
    pub(crate) fn outside(variables: Names<'a>) -> Context<'a>
        ensures { result ≡ outside_of variables.entry }
    {
        Context { variables }
    }

    /// The variables of the model.
    pub(crate) fn variables(&self) -> &Names<'a>
        ensures { result.now ≡ self.now.names.model }
    {
        &self.variables
    }

    /// The global slot of a variable.
    pub(crate) fn slot(&self, name: &Text) -> u32
        requires { length self.now.names.model < 2 ^ 31 }
        ensures { result ≡ place_of name.now self.now.names.model }
    {
        self.variables.place(name) as u32
    }
}
