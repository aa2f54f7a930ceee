// `show NAME`

ghost use Rattle.std.specs.Prelude.{◌≡◌, ◌<◌, IfOk, length};
ghost use Rattle.std.specs.Option.{option_and_then};
ghost use Rattle.pts_ctx.specs.Front.{entry_at};
ghost use Rattle.pts_grow.specs.Judges.{type_in};
ghost use Rattle.pts_queries.specs.Queries.{AnswersShow, AnswersShowUnder, hypothesis_line};
ghost use Rattle.pts_queries.specs.Hypotheses.{IsContext, entries_in};

use crate::hypotheses::{Under, index_of};
use crate::reading::unread_line;
use crate::replies::{shown_line, typed_line};
use pts_ctx::{Context, System};
use pts_grow::entry_type;
use pts_names::{Name, Text};
use pts_parser::ReadFault;
use std::alloc::{AllocError, Global};

/// The reply to `show NAME` over a front, where the name is at that place of the text: the entry of the name with its type,
/// and with its body if it has one. A name without an entry is refused as `UnknownName`. The only error is that memory runs
/// out. It costs no units.
pub fn show(
    alloc: Global,
    system: &System,
    front: &Context,
    place: usize,
    name: &Name,
) -> Result<Text, AllocError>
    ensures { IfOk result (λ line. AnswersShow system.now front.now.entries place name.now line) }
{
    match front.lookup(name) {
        Some(entry) => shown_line(alloc, system, entry),
        None => unread_line(alloc, &ReadFault::UnknownName(place, name.copy()?)),
    }
}

impl Under<'_> {
    /// The reply to `show NAME` under the hypotheses: the innermost one of a plain name, if one has it, with its type; else
    /// as `show` gives it without any.
    pub fn show(
        &self,
        alloc: Global,
        system: &System,
        front: &Context,
        place: usize,
        name: &Name,
    ) -> Result<Text, AllocError>
        requires context { IsContext self.now }
        ensures { IfOk result (λ line. AnswersShowUnder system.now front.now.entries self.now.names.now (entries_in self.now) place name.now line) }
    {
        match index_of(self.names, name) {
            Some(index) => self.hypothesis_line(alloc, system, place, name, index),
            None => show(alloc, system, front, place, name),
        }
    }

    // A hypothesis with its type. An index that does not fit 32 bits finds no memory.
    fn hypothesis_line(
        &self,
        alloc: Global,
        system: &System,
        place: usize,
        name: &Name,
        index: usize,
    ) -> Result<Text, AllocError>
        requires context { IsContext self.now }
        requires index { index < length self.now.names.now }
        ensures { IfOk result (λ line. line ≡ hypothesis_line system.now.sorts self.now.names.now place name.now index (option_and_then type_in (entry_at (entries_in self.now) index))) }
    {
        let before = &self.names[..self.names.len() - (index + 1)];
        let Ok(short) = u32::try_from(index) else {
            return Err(AllocError);
        };
        match entry_type(self.proof, self.ctx, short) {
            Some(ty) => {
                let ty = self.proof.tree(ty)?;
                typed_line(alloc, system, before, name, &ty)
            }
            None => unread_line(alloc, &ReadFault::UnknownName(place, name.copy()?)),
        }
    }
}
