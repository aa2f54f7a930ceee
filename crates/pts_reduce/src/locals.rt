// The definitions of local contexts.

ghost use Rattle.std.specs.Prelude.{◌≡◌, ◌<◌, length, IfSome};
ghost use Rattle.std.specs.Option.{option_map, option_and_then};
ghost use Rattle.pts_ctx.specs.Front.{entry_at};
ghost use Rattle.pts_record.specs.Table.{named_at};
ghost use Rattle.pts_record.specs.Said.{named_told, scope_of};
ghost use Rattle.pts_reduce.specs.Given.{definition_of};

use pts_record::{LocalEntry, Record};

/// The definition that the index stands for. The walk is as long as the index.
pub(crate) fn definition(proof: &Record, ctx: usize, index: u32) -> Option<usize>
    requires { ctx < length proof.now.nodes }
    ensures stands { IfSome result (λ t. t < length proof.now.shapes) }
    ensures definition { option_map (named_at proof.now.shapes) result ≡ option_and_then definition_of (entry_at (scope_of (named_told proof.now ctx)).entries index) }
{
    match proof.entry(ctx, index)? {
        LocalEntry::Defined(body, _) => Some(body),
        LocalEntry::Assumed(_) | LocalEntry::Unknown => None,
    }
}
