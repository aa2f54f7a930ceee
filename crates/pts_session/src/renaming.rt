// The line that renames, over a draft.

ghost use Rattle.std.specs.Prelude.{◌≡◌, ◌≢◌, ◌∷◌, [], IfOk, OnOk, OnErr};
ghost use Rattle.pts_draft.specs.declared.fault.RenameFault.{RenameFault};
ghost use Rattle.pts_session.specs.Drafting.{RenamesIn};
ghost use Rattle.pts_session.specs.Faults.{rename_line};

use crate::replies::{name_line, one};
use pts_draft::{Draft, RenameFault};
use pts_names::{Name, Text};
use std::alloc::{AllocError, Global};

/// `rename OLD NEW`: the reply, after which the draft has a declaration under the new name where there is no refusal.
pub(crate) fn rename(
    alloc: Global,
    draft: &mut Draft,
    old: &Name,
    new: &Name,
) -> Result<Vec<Text>, AllocError>
    ensures renames { IfOk result (λ lines. RenamesIn draft.old old.now new.now lines.items draft.new) }
    ensures system { draft.new.system ≡ draft.old.system }
    ensures same { OnErr result (draft.new ≡ draft.old) }
{
    let lines = one(alloc, name_line(alloc, "renamed", new)?)?;
    match draft.rename(old, new.copy()?) {
        Ok(()) => Ok(lines),
        Err(fault) => refused(alloc, &fault),
    }
}

// The reply where a draft does not rename.
fn refused(alloc: Global, fault: &RenameFault) -> Result<Vec<Text>, AllocError>
    ensures lines { IfOk result (λ lines. lines.items ≡ rename_line fault.now ∷ []) }
    ensures refusal { OnOk result (fault.now ≢ RenameFault.Memory) }
{
    one(alloc, rename_line(alloc, fault)?)
}

fn rename_line(alloc: Global, fault: &RenameFault) -> Result<Text, AllocError>
    ensures line { IfOk result (λ line. line ≡ rename_line fault.now) }
    ensures refusal { OnOk result (fault.now ≢ RenameFault.Memory) }
{
    match fault {
        RenameFault::NotThere(name) => Ok(Text::of(format!(in alloc; "refused NotThere {name}")?)),
        RenameFault::Taken(name, place) => {
            Ok(Text::of(format!(in alloc; "refused Taken {name} {place}")?))
        }
        RenameFault::Memory => Err(AllocError),
    }
}
