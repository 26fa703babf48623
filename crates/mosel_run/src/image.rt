//! The image of an accepted source, and its name.
ghost use Rattle.std.specs.Prelude.{◌≡◌, ◌≤◌, ◌<◌, ◌^◌, true, IfOk};
ghost use Rattle.bim_code.specs.Code.{code_size};
ghost use Rattle.bim_code.specs.Limits.{CountsInRange};
ghost use Rattle.bim_code.specs.Rules.{KeepsRules};
ghost use Rattle.bim_compile.specs.Means.{Means, NeverFails};
ghost use Rattle.mos_meaning.specs.Sources.{model_of};
ghost use Rattle.mos_text.specs.FileName.{is_source_name};
ghost use Rattle.mos_text.specs.Limits.{source_limit};
ghost use Rattle.mos_tree.specs.Sizes.{size_of_tree};
ghost use Rattle.mosel_run.specs.Accepted.{IsSound};
ghost use Rattle.mosel_run.specs.Puts.{image_name};

use bim_code::Image;
use bim_compile::compile;
use mos_check::checked_models;
use mos_text::{NoMemory, Text};
use mos_tree::Tree;
use std::alloc::Global;

/// The image of a sound tree, with which the machine is never stuck or lost.
pub(crate) fn image_of(alloc: Global, tree: &Tree) -> Result<Image, NoMemory>
    requires sound { IsSound tree.now }
    requires not_large { size_of_tree tree.now ≤ source_limit }
    ensures means { IfOk result (Means (model_of tree.now)) }
    ensures never_fails { IfOk result NeverFails }
    ensures rules { IfOk result KeepsRules }
    ensures fields { IfOk result CountsInRange }
    ensures small { IfOk result (λ image. code_size image.code < 2 ^ 30) }
{
    checked_models();
    compile(alloc, tree)
}

/// The name of a source's image: `.bim` in place of the last four bytes.
pub(crate) fn name_of_image(alloc: Global, source: &Text) -> Result<Text, NoMemory>
    requires { is_source_name source.now ≡ true }
    ensures { IfOk result (λ name. name ≡ image_name source.now) }
{
    let source = source.as_str();
    let mut name = String::from_str(alloc, &source[..source.len() - 4])?;
    name.push_str(".bim")?;
    Ok(Text::from_string(name))
}
