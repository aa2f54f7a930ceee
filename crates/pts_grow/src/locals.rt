// The types of the entries of local contexts.

ghost use Rattle.std.specs.Prelude.{◌≡◌, ◌<◌, length, IfSome};
ghost use Rattle.std.specs.Option.{option_map, option_and_then};
ghost use Rattle.pts_ctx.specs.Front.{entry_at};
ghost use Rattle.pts_record.specs.Table.{named_at};
ghost use Rattle.pts_record.specs.Said.{named_told, scope_of};
ghost use Rattle.pts_grow.specs.Judges.{type_in};

use pts_record::{LocalEntry, Record};

/// The type of the entry with that index, as it stands in the context of that entry. The walk is as long as the index.
pub fn entry_type(proof: &Record, ctx: usize, index: u32) -> Option<usize>
    requires { ctx < length proof.now.nodes }
    ensures stands { IfSome result (λ t. t < length proof.now.shapes) }
    ensures ty { option_map (named_at proof.now.shapes) result ≡ option_and_then type_in (entry_at (scope_of (named_told proof.now ctx)).entries index) }
{
    match proof.entry(ctx, index)? {
        LocalEntry::Assumed(ty) | LocalEntry::Defined(_, ty) => Some(ty),
        LocalEntry::Unknown => None,
    }
}
