// The lines of declarations.

ghost use Rattle.std.specs.Prelude.{◌≡◌, map, IfOk, string_bytes};
ghost use Rattle.pts_check.specs.Entered.{declared, declared_entries};
ghost use Rattle.pts_batch.specs.Batches.{entry_line};

use pts_ctx::System;
use pts_names::Text;
use pts_printer::print_term;
use pts_record::Declaration;
use std::alloc::{AllocError, Global};

/// Each declaration with its type.
pub(crate) fn entry_lines(
    alloc: Global,
    system: &System,
    declarations: &[Declaration],
) -> Result<Vec<Text>, AllocError>
    ensures { IfOk result (λ v. v.items ≡ map (entry_line system.now.sorts) (declared_entries declarations.now)) }
{
    let mut lines = Vec::new(alloc);
    for declaration in declarations {
        let line = entry_line(alloc, system, declaration)?;
        lines.push(Text::of(line))?;
    }
    Ok(lines)
}

fn entry_line(
    alloc: Global,
    system: &System,
    declaration: &Declaration,
) -> Result<String, AllocError>
    ensures { IfOk result (λ s. string_bytes s ≡ entry_line system.now.sorts (declared declaration.now)) }
{
    let ty = print_term(alloc, system, &[], &declaration.ty)?;
    let name = &declaration.name;
    format!(in alloc; "{name} : {ty}")
}
