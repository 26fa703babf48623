//! The whole image: the code of the statements, the end, and the tables.
ghost use Rattle.std.specs.Prelude.{◌≡◌, ◌∷◌, [], ℕ, ◌<◌, ◌≤◌, ◌+◌, ◌*◌, ◌^◌, IfOk, OnOk, length, map, replicate};
ghost use Rattle.bim_code.specs.Code.{code_size};
ghost use Rattle.bim_code.specs.Limits.{CountsInRange};
ghost use Rattle.bim_code.specs.Rules.{KeepsRules};
ghost use Rattle.mos_meaning.specs.Sources.{block, core_of_top, model_of, statements_of, variables_of};
ghost use Rattle.bim_compile.specs.Built.{IsBuiltBlock};
ghost use Rattle.bim_compile.specs.Compiled.{image_of, image_over, labelled_of, texts_in_block, types_of, instructions};
ghost use Rattle.bim_compile.specs.Contexts.{context_of};
ghost use Rattle.bim_compile.specs.InSize.{IsSmallBlock};
ghost use Rattle.bim_compile.specs.Means.{Means, KeepsGlobals, NeverFails, CanCompile};
ghost use Rattle.mos_meaning.specs.Working.{NeverLost, CallsNothing};
ghost use Rattle.bim_compile.specs.Sizes.{size_of_block};

use crate::context::Context;
use crate::draft::{Draft, JumpTargets, Labelled};
use crate::ends::end_of_tops;
use crate::names::note_tops;
use crate::statements::emit_tops;
use bim_code::{Image, ImageType, Instruction};
use bim_machine::machine_laws;
use mos_meaning::working_models;
use mos_names::Names;
use mos_text::{NoMemory, let_go};
use mos_tree::{Top, Tree};
use sqlite_items::Items;
use std::alloc::Global;

/// The image of a model. Which code it has is the compiler's choice.
pub fn compile(alloc: Global, tree: &Tree) -> Result<Image, NoMemory>
    requires can_compile { CanCompile tree.now }

    // The machine does with it what the model means, is never stuck or lost, and calls nothing.
    ensures means { IfOk result (Means (model_of tree.now)) }
    ensures globals { IfOk result (KeepsGlobals (model_of tree.now)) }
    ensures never_fails { IfOk result NeverFails }
    ensures never_lost { NeverLost (model_of tree.now) }
    ensures calls_nothing { CallsNothing (model_of tree.now) }

    // It keeps the verifier's rules on tables, addresses and ticks.
    ensures rules { IfOk result KeepsRules }

    // Its file can hold it.
    ensures fields { IfOk result CountsInRange }

    // It has few instructions for each node and statement of the model: 5, and 2 for the end.
    ensures few { IfOk result (λ image. length image.code
        ≤ 5 * size_of_block (statements_of tree.now) + 2) }
    ensures size { IfOk result (λ image. code_size image.code
        ≤ 13 * size_of_block (statements_of tree.now) + 6) }
{
    machine_laws();
    working_models();
    build(alloc, tree)
}

fn build(alloc: Global, tree: &Tree) -> Result<Image, NoMemory>
    requires built { IsBuiltBlock (statements_of tree.now) }
    requires small { size_of_block (statements_of tree.now) < 2 ^ 24 }
    ensures built { IfOk result (λ image. image ≡ image_of (statements_of tree.now)) }
    ensures small { OnOk result (IsSmallBlock (statements_of tree.now)) }
{
    let tops = tree.tops.as_slice();
    let mut names = Names::new(alloc);
    note_tops(&mut names, tops)?;
    let context = Context::outside(names);
    let draft = draft_of(alloc, &context, tops)?;
    image_with(alloc, context.variables(), draft)
}

/// What is made of the statements of a model: their code, and the end of the run.
fn draft_of(alloc: Global, context: &Context<'_>, tops: &[Top]) -> Result<Draft, NoMemory>
    requires names { context.now ≡ context_of (block (map core_of_top tops.now)) }
    requires built { IsBuiltBlock (block (map core_of_top tops.now)) }
    requires small { size_of_block (block (map core_of_top tops.now)) < 2 ^ 24 }
    ensures code { IfOk result (λ draft.
        draft.code ≡ labelled_of (block (map core_of_top tops.now))) }
    ensures constants { IfOk result (λ draft.
        draft.constants ≡ texts_in_block (block (map core_of_top tops.now))) }
    ensures small { OnOk result (IsSmallBlock (block (map core_of_top tops.now))) }
{
    let end = end_of_tops(0, tops);
    let targets = JumpTargets {
        break_: end,
        next_: end,
    };
    let mut draft = Draft::new(alloc);
    emit_tops(alloc, &mut draft, context, targets, tops)?;
    draft.put(0, Instruction::PushInt(0))?;
    draft.put(0, Instruction::End)?;
    Ok(draft)
}

/// The image of a draft over these variables.
fn image_with(alloc: Global, names: &Names<'_>, draft: Draft) -> Result<Image, NoMemory>
    ensures { IfOk result (λ image. image ≡ image_over names.now draft.constants draft.code) }
{
    let Draft {
        constants,
        code: labelled,
        ..
    } = draft;
    match tables(alloc, names, labelled.as_slice()) {
        Ok((types, globals, code)) => {
            let_go(labelled);
            Ok(Image {
                constants,
                types,
                params: Items::new(alloc),
                globals,
                routines: Items::new(alloc),
                points: Items::new(alloc),
                code,
            })
        }
        Err(refused) => {
            let_go(constants);
            let_go(labelled);
            Err(refused)
        }
    }
}

/// The types and the types of the variables, and the instructions of labelled code.
fn tables(
    alloc: Global,
    names: &Names<'_>,
    labelled: &[Labelled],
) -> Result<(Items<ImageType>, Items<u16>, Items<Instruction>), NoMemory>
    ensures types { IfOk result (λ made. made.0 ≡ types_of names.now) }
    ensures globals { IfOk result (λ made. made.1 ≡ replicate (length names.now) 0) }
    ensures code { IfOk result (λ made. made.2 ≡ instructions labelled.now) }
{
    let types = types(alloc, names)?;
    let globals = globals(alloc, names.len())?;
    let code = without_lines(alloc, labelled)?;
    Ok((types, globals, code))
}

/// The instructions of labelled code.
fn without_lines(alloc: Global, labelled: &[Labelled]) -> Result<Items<Instruction>, NoMemory>
    ensures { IfOk result (λ code. code ≡ instructions labelled.now) }
{
    let mut code = Items::new(alloc);
    for one in labelled {
        code.push(one.instruction)?;
    }
    Ok(code)
}

/// The types that the variables need: the integer, where there is one.
fn types(alloc: Global, names: &Names<'_>) -> Result<Items<ImageType>, NoMemory>
    ensures { IfOk result (λ types. types ≡ types_of names.now) }
{
    let mut types = Items::new(alloc);
    if !names.is_empty() {
        types.push(ImageType::Integer)?;
    }
    Ok(types)
}

/// The type of each variable, an integer.
fn globals(alloc: Global, many: usize) -> Result<Items<u16>, NoMemory>
    ensures { IfOk result (λ globals. globals ≡ replicate many 0) }
{
    Ok(Items::from_vec(vec![in alloc; 0u16; many]?))
}
