// Names of the scope: those of the front, and after them those of the hypotheses.

ghost use Rattle.std.specs.Prelude.{◌≡◌, IfErr, List as Sequence, None, OnOk};
ghost use Rattle.std.specs.List.{position};
ghost use Rattle.pts_names.specs.Name.{Name, same_name};
ghost use Rattle.pts_ctx.specs.Seen.{place_of};
ghost use Rattle.pts_prove_cost.specs.Commands.{place_in_scope, taken};
ghost use Rattle.pts_prove.specs.Answered.{IsTaken, Tells};

use crate::fault::ProveFault;
use pts_ctx::Context;
use pts_names::Name;

/// The place of a name among those of the hypotheses.
pub(crate) fn place_among(names: &[Name], name: &Name) -> Option<usize>
    ensures { result ≡ position (same_name name.now) names.now }
{
    names.iter().position(|other| name.same(other))
}

// The refusal of a name that exists at a place.
fn refuse_taken(name: &Name, place: usize) -> ProveFault
    ensures { (xs : Sequence Name) → Tells xs (taken name.now place) result }
{
    match name.copy() {
        Ok(name) => ProveFault::Taken(name, place),
        Err(_) => ProveFault::Memory,
    }
}

/// The name does not exist in the scope.
pub(crate) fn check_fresh(front: &Context, names: &[Name], name: &Name) -> Result<(), ProveFault>
    ensures fresh { OnOk result (place_in_scope front.now.entries names.now name.now ≡ None) }
    ensures taken { IfErr result (IsTaken names.now name.now (place_in_scope front.now.entries names.now name.now)) }
{
    match front.place_of(name) {
        Some(place) => Err(refuse_taken(name, place)),
        None => check_new(front, names, name),
    }
}

// The same of a name that the front does not have.
fn check_new(front: &Context, names: &[Name], name: &Name) -> Result<(), ProveFault>
    requires front { place_of name.now front.now.entries ≡ None }
    ensures fresh { OnOk result (place_in_scope front.now.entries names.now name.now ≡ None) }
    ensures taken { IfErr result (IsTaken names.now name.now (place_in_scope front.now.entries names.now name.now)) }
{
    match place_among(names, name) {
        Some(place) => match front.len().checked_add(place) {
            Some(place) => Err(refuse_taken(name, place)),
            None => Err(ProveFault::Memory),
        },
        None => Ok(()),
    }
}
