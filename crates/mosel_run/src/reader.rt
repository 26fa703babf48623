//! From a source to the tree of a model that can be run.
mod fault;

ghost use Rattle.std.specs.Prelude.{◌≡◌, ◌≤◌, ℕ, length, IfOk, OnOk, IfErr, None};
ghost use Rattle.mos_text.specs.Limits.{source_limit};
ghost use Rattle.mos_text.specs.declared.kind.Kind.{Kind as kind_type};
ghost use Rattle.mos_tree.specs.declared.source.Tree.{Tree as tree_type};
ghost use Rattle.mos_tree.specs.Sizes.{size_of_tree};
ghost use Rattle.mos_check.specs.NotBuilt.{unbuilt_of};
ghost use Rattle.mosel_run.specs.Accepted.{IsAccepted, IsRefusedAt, IsSound, IsChecked};
ghost use Rattle.mosel_run.specs.ReadAnswers.{IsRefusal, IsJudged, GivesTree, GivesRefusal};

pub use fault::ReadFault;
use mos_check::{check, not_built};
use mos_parse::parse;
use mos_text::NoMemory;
use mos_tree::Tree;
use std::alloc::Global;

/// The tree of a source, or why and where it is refused: at its first fault of tokens or grammar;
/// where it has none, at its first piece of a form that cannot be run; and where all can, at the
/// first that uses a name without a value, or leaves or continues a loop where there is none. A
/// source has at most 1,048,576 bytes.
pub fn read_source(alloc: Global, source: &[u8]) -> Result<Tree, ReadFault>
    requires { length source.now ≤ source_limit }
    ensures tree { IfOk result (IsAccepted source.now) }
    ensures refusal { IfErr result (IsRefusal source.now) }

    // What is true of the source is the answer, but for want of memory.
    ensures only_tree { (tree : tree_type) → IsAccepted source.now tree → GivesTree result tree }
    ensures only_refusal { (line : ℕ) (kind : kind_type)
        → IsRefusedAt source.now line kind → GivesRefusal result line kind }

    ensures no_larger { IfOk result (λ tree. size_of_tree tree ≤ length source.now) }
{
    let tree = parse(alloc, source)?;
    judge(alloc, &tree)?;
    Ok(tree)
}

/// Refuses a tree that cannot be run.
fn judge(alloc: Global, tree: &Tree) -> Result<(), ReadFault>
    ensures sound { OnOk result (IsSound tree.now) }
    ensures wrong { IfErr result (IsJudged tree.now) }
{
    refuse_unbuilt(alloc, tree)?;
    refuse_unchecked(alloc, tree)
}

/// Refuses a tree with a piece of a form that cannot be run.
fn refuse_unbuilt(alloc: Global, tree: &Tree) -> Result<(), ReadFault>
    ensures built { OnOk result (unbuilt_of tree.now ≡ None) }
    ensures wrong { IfErr result (IsJudged tree.now) }
{
    match not_built(alloc, tree)? {
        Some(refusal) => Err(ReadFault::Refused(refusal)),
        None => Ok(()),
    }
}

/// Refuses a tree, of forms that can be run, in which the check finds a fault.
fn refuse_unchecked(alloc: Global, tree: &Tree) -> Result<(), ReadFault>
    ensures known { OnOk result (IsChecked tree.now) }
    ensures wrong { IfErr result (λ fault. unbuilt_of tree.now ≡ None → IsJudged tree.now fault) }
{
    check(alloc, tree)?;
    Ok(())
}
