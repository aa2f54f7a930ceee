ghost use Rattle.std.specs.Prelude.{◌≡◌, Ok, Err, IfOk, IfErr};
ghost use Rattle.toml.specs.View.{table_view};
ghost use Rattle.pts_ctx.specs.System.{written};
ghost use Rattle.pts_ctx.specs.declared.system.SystemFault.{SystemFault};
ghost use Rattle.pts_spec.specs.declared.fault.SpecFault.{SpecFault};
ghost use Rattle.pts_spec.specs.Calls.{Answers, AnswersAs};
ghost use Rattle.pts_spec.specs.SpecFile.{system_of, UnlessMemory};
ghost use Rattle.pts_spec.specs.SpecFile as file;

use crate::fault::SpecFault;
use crate::keys::{KeyLists, lists_in};
use pts_ctx::{System, SystemFault};
use std::alloc::Global;
use toml::Table;

/// The system that a specification file writes: a document of TOML with the keys `sorts`, a list of spellings,
/// `axioms`, a list of lists of two spellings, and `rules`, a list of lists of two or three (after Barendregt 1992;
/// the format is this project's). A rule of two spellings s, r is the rule s, r, r.
///
/// # Errors
///
/// `NotToml` comes first, then `Shape` with the first key at fault in the order `sorts`, `axioms`, `rules`, and after
/// these the least other key, then `System` with the first fault of the lists.
#[tactic(auto, unfolding(crate::specs::SpecFile::system_of))]
pub fn read_system(alloc: Global, bytes: &[u8]) -> Result<System, SpecFault>
    ensures read { IfOk result (λ system. system_of bytes.now ≡ Ok system) }
    ensures refused { IfErr result (λ e. UnlessMemory e (system_of bytes.now ≡ Err e)) }
    ensures memory { ¬ (result ≡ Err (SpecFault.System SystemFault.Memory)) }
{
    let document = document_of(alloc, bytes)?;
    let lists = lists_in(alloc, &document)?;
    system_with(alloc, lists)
}

/// The document that bytes are.
#[tactic(auto, using(crate::proofs::Documents::is_document, crate::proofs::Documents::no_document))]
fn document_of(alloc: Global, bytes: &[u8]) -> Result<Table, SpecFault>
    ensures document { AnswersAs table_view result (file.document_of bytes.now) }
    ensures memory { ¬ (result ≡ Err (SpecFault.System SystemFault.Memory)) }
{
    match toml::table_from_slice(alloc, bytes) {
        Ok(document) => Ok(document),
        Err(error) if error.is_memory() => Err(SpecFault::Memory),
        Err(_) => Err(SpecFault::NotToml),
    }
}

/// The system that lists are.
fn system_with(alloc: Global, lists: KeyLists) -> Result<System, SpecFault>
    ensures system { Answers result (file.system_with (written lists.sorts.items lists.axioms.items lists.rules.items)) }
    ensures memory { ¬ (result ≡ Err (SpecFault.System SystemFault.Memory)) }
{
    match System::new(alloc, lists.sorts, lists.axioms, lists.rules) {
        Ok(system) => Ok(system),
        Err(SystemFault::Memory) => Err(SpecFault::Memory),
        Err(fault) => Err(SpecFault::System(fault)),
    }
}
