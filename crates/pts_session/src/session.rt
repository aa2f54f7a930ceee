// Sessions.

ghost use Rattle.std.specs.Prelude.{◌≡◌, ◌≢◌, ◌∷◌, ◌++◌, [], ◌≤◌, length, map, drop, true, false, Some, None, IfOk, OnOk, OnErr, option_map};
ghost use Rattle.pts_lines.specs.declared.line.Line.TheVariants as line;
ghost use Rattle.pts_parser.specs.declared.fault.ReadFault.{ReadFault};
ghost use Rattle.pts_parser.specs.FaultText.{read_text};
ghost use Rattle.pts_queries.specs.Replies.{refusal, shown_line};
ghost use Rattle.pts_play.specs.Machines.{done};
ghost use Rattle.pts_play.specs.declared.machines.Local.TheVariants.{Ask};
ghost use Rattle.pts_session.specs.State.{State, awaited_after, new_session};
ghost use Rattle.pts_session.specs.Lines.{ComesTo, Does, draft_lines, first_failing, tests};
ghost use Rattle.pts_session.specs.Seen.{awaited_by, came_to};
ghost use Rattle.pts_names.specs.Name.{is_plain};
ghost use Rattle.pts_lines.specs.Seen.{line_of};
ghost use Rattle.pts_session.specs.Plain.{NamesArePlain};
ghost use Rattle.pts_session.specs.Players.{Hears, IsFree, MayHear};
ghost use Rattle.pts_session.specs.Tested.{Tested, is_query, is_single};
ghost use Rattle.pts_session.specs.Moves.{is_look, moved_lines, moved_to};
ghost use Rattle.pts_session.specs.Answers.{first_taken, reply_in};
ghost use Rattle.pts_ctx.specs.Front.{bare_front};
ghost use Rattle.pts_ctx.specs.Seen.{IsPrefix};
ghost use Rattle.pts_rules.specs.Derives.{Legal};
ghost use Rattle.pts_core.specs.Cores.{labelled};
ghost use Rattle.pts_core.specs.ReplyText.{reply_text};

use crate::declaring::{assume, define};
use crate::moving::move_draft;
use crate::renaming::rename;
use crate::replies::{count_line, one, refused_line, reply_line, unread_line};
use crate::request::{Awaited, Request};
use crate::world::World;
use pts_core::Answer;
use pts_ctx::{Context, System};
use pts_draft::Draft;
use pts_lines::{Line, ReadFault, read_line};
use pts_names::{Name, Text};
use pts_parser::Tree;
use pts_play::Local;
use pts_queries::{equal, infer, reduce, show, shown_line};
use sqlite_items::Boxed;
use std::alloc::{AllocError, Global};
use std::marker::Model;

/// How many units a line may spend at first.
pub const BUDGET: u64 = 1_000_000;

/// A session: a base, which is a front of the core, a draft over it, and the budget of its lines. It learns of the core by
/// answers alone.
///
/// It is in the system of the world in which it was made, and that world is lent to each call.
#[derive(Drop)]
pub struct Session {
    draft: Draft,
    budget: u64,
    awaited: Option<Awaited>,
}

impl Model for Session {
    ghost use Rattle.std.specs.Coded.{codes};
    ghost use Rattle.pts_terms.specs.Code.{coded_tree};
    ghost use Rattle.pts_check.specs.Entered.{declared_entries};
    ghost use Rattle.pts_core.specs.InnerNames.{NoneInner};
    ghost use Rattle.pts_session.specs.Seen.{SeenSession, state_of};

    ghost Value = { SeenSession };

    ghost coded = { Prim.hlevel (codes, coded_tree) };

    ghost view = { λ s. record { system = s.draft.system; state = state_of s.draft s.budget; awaited = s.awaited } };

    ghost invariant = { λ s. NoneInner (declared_entries s.draft.declarations) };
}

impl Session {
    /// A session with an empty base and an empty draft.
    ///
    /// # Errors
    ///
    /// Out of memory.
    pub fn new(alloc: Global, world: &World) -> Result<Session, AllocError>
        ensures system { IfOk result (λ s. s.system ≡ world.now.system) }
        ensures state { IfOk result (λ s. s.state ≡ new_session) }
        ensures free { IfOk result (λ s. s.awaited ≡ None) }
    {
        Ok(Session {
            draft: Draft::new(alloc, &world.system, Context::new(alloc))?,
            budget: BUDGET,
            awaited: None,
        })
    }

    /// Runs a line by itself: its replies, or the one request that it makes. All work on the line is done here, but for what its
    /// answer leads to.
    ///
    /// # Errors
    ///
    /// Out of memory. Then the session is as before.
    #[tactic(auto, using(crate::proofs::Plain::said_plain, crate::proofs::Doing::line_read, crate::proofs::Doing::line_unread))]
    pub fn run_local(
        &mut self,
        alloc: Global,
        world: &World,
        text: &str,
    ) -> Result<Local<Request>, AllocError>
        requires free { IsFree world.now.system self.old }
        ensures line { IfOk result (λ l. ComesTo world.now.system self.old.state text.now (came_to l self.new.state)) }
        ensures awaits { IfOk result (λ l. self.new.awaited ≡ awaited_by l) }
        ensures system { self.new.system ≡ self.old.system }
        ensures same { OnErr result (self.new ≡ self.old) }
    {
        match read_line(alloc, text) {
            Ok(line) => self.run_boxed(alloc, world, Boxed::new(alloc, line)?),
            Err(fault) => unread(alloc, &fault),
        }
    }

    // The same of a line that was read. It is let go in its box.
    fn run_boxed(
        &mut self,
        alloc: Global,
        world: &World,
        line: Boxed<Line>,
    ) -> Result<Local<Request>, AllocError>
        requires free { IsFree world.now.system self.old }
        requires plain { NamesArePlain (line_of line) }
        ensures line { IfOk result (λ l. Tested world.now.system self.old.state line (came_to l self.new.state)) }
        ensures awaits { IfOk result (λ l. self.new.awaited ≡ awaited_by l) }
        ensures system { self.new.system ≡ self.old.system }
        ensures same { OnErr result (self.new ≡ self.old) }
    {
        self.run(alloc, world, line.get())
    }

    // Tests a line, and does it.
    #[tactic(auto, using(crate::proofs::Doing::run_refused, crate::proofs::Doing::run_done))]
    fn run(
        &mut self,
        alloc: Global,
        world: &World,
        line: &Line,
    ) -> Result<Local<Request>, AllocError>
        requires free { IsFree world.now.system self.old }
        requires plain { NamesArePlain (line_of line.now) }
        ensures line { IfOk result (λ l. Tested world.now.system self.old.state line.now (came_to l self.new.state)) }
        ensures awaits { IfOk result (λ l. self.new.awaited ≡ awaited_by l) }
        ensures system { self.new.system ≡ self.old.system }
        ensures same { OnErr result (self.new ≡ self.old) }
    {
        match self.refusal(line) {
            Some(why) => refused(alloc, why),
            None => self.does(alloc, world, line),
        }
    }

    // Why a line may not be given now.
    fn refusal(&self, line: &Line) -> Option<&'static str>
        ensures { option_map (λ s. s.now) result ≡ first_failing (tests self.now.state line.now) }
    {
        match line {
            Line::Look
            | Line::Assume(..)
            | Line::Define(..)
            | Line::Budget(_)
            | Line::Infer(_)
            | Line::Reduce(_)
            | Line::Equal(..)
            | Line::Rename(..)
            | Line::Discard
            | Line::Show(..)
            | Line::Draft => None,
            Line::Commit => {
                if self.draft.len() == 0 {
                    return Some("NothingToCommit");
                }
                None
            }
            _ => Some("NotBuilt"),
        }
    }

    // Does a line that may be given.
    fn does(
        &mut self,
        alloc: Global,
        world: &World,
        line: &Line,
    ) -> Result<Local<Request>, AllocError>
        requires free { IsFree world.now.system self.old }
        requires plain { NamesArePlain (line_of line.now) }
        requires may { first_failing (tests self.old.state line.now) ≡ None }
        ensures line { IfOk result (λ l. Does world.now.system self.old.state line.now (came_to l self.new.state)) }
        ensures awaits { IfOk result (λ l. self.new.awaited ≡ awaited_by l) }
        ensures system { self.new.system ≡ self.old.system }
        ensures same { OnErr result (self.new ≡ self.old) }
    {
        match line {
            Line::Look => Ok(self.ask(Awaited::Look, Request::Look)),
            Line::Commit => self.commit(world),
            Line::Assume(name, ty) => self.assume(alloc, world, name, ty),
            Line::Define(name, ty, body) => self.define(alloc, world, name, ty, body),
            Line::Budget(units) => self.set_budget(alloc, world, *units),
            Line::Rename(old, new) => self.rename(alloc, world, old, new),
            Line::Discard => self.discard(alloc, world),
            _ => self.query(alloc, world, line),
        }
    }

    // Asks the core.
    fn ask(&mut self, awaited: Awaited, request: Request) -> Local<Request>
        requires { awaited ≡ awaited_after request }
        ensures asks { result ≡ Ask request }
        ensures state { self.new.state ≡ self.old.state }
        ensures awaits { self.new.awaited ≡ Some awaited }
        ensures system { self.new.system ≡ self.old.system }
    {
        self.awaited = Some(awaited);
        Local::Ask(request)
    }

    // `commit`
    fn commit(&mut self, world: &World) -> Result<Local<Request>, AllocError>
        requires free { IsFree world.now.system self.old }
        ensures line { IfOk result (λ l. Does world.now.system self.old.state line.Commit (came_to l self.new.state)) }
        ensures awaits { IfOk result (λ l. self.new.awaited ≡ awaited_by l) }
        ensures system { self.new.system ≡ self.old.system }
        ensures same { OnErr result (self.new ≡ self.old) }
    {
        let examined = self.draft.examined(&world.system)?;
        Ok(self.ask(Awaited::Submission, Request::Submit(examined)))
    }

    // `assume NAME : TERM`
    fn assume(
        &mut self,
        alloc: Global,
        world: &World,
        name: &Name,
        ty: &Tree,
    ) -> Result<Local<Request>, AllocError>
        requires free { IsFree world.now.system self.old }
        requires plain { is_plain name.now ≡ true }
        ensures line { IfOk result (λ l. Does world.now.system self.old.state (line.Assume name.now ty.now) (came_to l self.new.state)) }
        ensures awaits { IfOk result (λ l. self.new.awaited ≡ awaited_by l) }
        ensures system { self.new.system ≡ self.old.system }
        ensures same { OnErr result (self.new ≡ self.old) }
    {
        let lines = assume(alloc, &world.system, &mut self.draft, self.budget, name, ty)?;
        Ok(Local::Done(lines))
    }

    // `define NAME := TERM`, `define NAME : TERM := TERM`
    fn define(
        &mut self,
        alloc: Global,
        world: &World,
        name: &Name,
        ty: &Option<Tree>,
        body: &Tree,
    ) -> Result<Local<Request>, AllocError>
        requires free { IsFree world.now.system self.old }
        requires plain { is_plain name.now ≡ true }
        ensures line { IfOk result (λ l. Does world.now.system self.old.state (line.Define name.now ty.now body.now) (came_to l self.new.state)) }
        ensures awaits { IfOk result (λ l. self.new.awaited ≡ awaited_by l) }
        ensures system { self.new.system ≡ self.old.system }
        ensures same { OnErr result (self.new ≡ self.old) }
    {
        let lines = define(
            alloc,
            &world.system,
            &mut self.draft,
            self.budget,
            name,
            ty,
            body,
        )?;
        Ok(Local::Done(lines))
    }

    // `budget N`
    #[tactic(auto, using(crate::proofs::Doing::done_as))]
    fn set_budget(
        &mut self,
        alloc: Global,
        world: &World,
        units: u64,
    ) -> Result<Local<Request>, AllocError>
        requires free { IsFree world.now.system self.old }
        ensures line { IfOk result (λ l. Does world.now.system self.old.state (line.Budget units) (came_to l self.new.state)) }
        ensures awaits { IfOk result (λ l. self.new.awaited ≡ awaited_by l) }
        ensures system { self.new.system ≡ self.old.system }
        ensures same { OnErr result (self.new ≡ self.old) }
    {
        let _ = world;
        let lines = one(alloc, count_line(alloc, "budget", units)?)?;
        self.budget = units;
        Ok(Local::Done(lines))
    }

    // `rename OLD NEW`
    fn rename(
        &mut self,
        alloc: Global,
        world: &World,
        old: &Name,
        new: &Name,
    ) -> Result<Local<Request>, AllocError>
        requires free { IsFree world.now.system self.old }
        requires plain { is_plain new.now ≡ true }
        ensures line { IfOk result (λ l. Does world.now.system self.old.state (line.Rename old.now new.now) (came_to l self.new.state)) }
        ensures awaits { IfOk result (λ l. self.new.awaited ≡ awaited_by l) }
        ensures system { self.new.system ≡ self.old.system }
        ensures same { OnErr result (self.new ≡ self.old) }
    {
        let _ = world;
        let lines = rename(alloc, &mut self.draft, old, new)?;
        Ok(Local::Done(lines))
    }

    // `discard`
    #[tactic(auto, using(crate::proofs::Doing::done_as))]
    fn discard(&mut self, alloc: Global, world: &World) -> Result<Local<Request>, AllocError>
        requires free { IsFree world.now.system self.old }
        ensures line { IfOk result (λ l. Does world.now.system self.old.state line.Discard (came_to l self.new.state)) }
        ensures awaits { IfOk result (λ l. self.new.awaited ≡ awaited_by l) }
        ensures system { self.new.system ≡ self.old.system }
        ensures same { OnErr result (self.new ≡ self.old) }
    {
        let _ = world;
        let count = self.draft.len() as u64;
        let lines = one(alloc, count_line(alloc, "discarded", count)?)?;
        self.draft.discard();
        Ok(Local::Done(lines))
    }

    // A line that asks about the scope or the draft, and changes nothing.
    fn query(&self, alloc: Global, world: &World, line: &Line) -> Result<Local<Request>, AllocError>
        requires query { is_query line.now ≡ true }
        ensures line { IfOk result (λ l. Does world.now.system self.now.state line.now (came_to l self.now.state)) }
        ensures awaits { IfOk result (λ l. awaited_by l ≡ None) }
    {
        Ok(Local::Done(self.answer(alloc, world, line)?))
    }

    // What such a line answers.
    fn answer(&self, alloc: Global, world: &World, line: &Line) -> Result<Vec<Text>, AllocError>
        requires query { is_query line.now ≡ true }
        ensures { IfOk result (λ lines. Does world.now.system self.now.state line.now (done lines.items self.now.state)) }
    {
        match line {
            Line::Draft => self.draft_lines(alloc, world),
            _ => one(alloc, self.answer_line(alloc, world, line)?),
        }
    }

    // The same where it is one line.
    fn answer_line(&self, alloc: Global, world: &World, line: &Line) -> Result<Text, AllocError>
        requires single { is_single line.now ≡ true }
        ensures { IfOk result (λ text. Does world.now.system self.now.state line.now (done (text ∷ []) self.now.state)) }
    {
        let system = &world.system;
        let scope = self.draft.scope();
        match line {
            Line::Infer(term) => infer(alloc, system, scope, self.budget, term),
            Line::Reduce(term) => reduce(alloc, system, scope, self.budget, term),
            Line::Equal(left, right) => equal(alloc, system, scope, self.budget, left, right),
            Line::Show(place, name) => show(alloc, system, scope, *place, name),
            _ => unreachable!(),
        }
    }

    // `draft`
    fn draft_lines(&self, alloc: Global, world: &World) -> Result<Vec<Text>, AllocError>
        ensures { IfOk result (λ lines. lines.items ≡ draft_lines world.now.system self.now.state) }
    {
        let count = self.draft.len() as u64;
        let mut lines = one(alloc, count_line(alloc, "draft", count)?)?;
        let from = self.draft.front().len();
        let mut shown = shown_lines(alloc, &world.system, self.draft.scope(), from)?;
        lines.append(&mut shown)?;
        Ok(lines)
    }

    /// Takes the answer for which the session waits: the replies with which the line ends.
    ///
    /// # Errors
    ///
    /// Out of memory. Then nothing is said of the session.
    pub fn resume(
        &mut self,
        alloc: Global,
        world: &World,
        answer: Answer,
    ) -> Result<Vec<Text>, AllocError>
        requires system { self.old.system ≡ world.now.system }
        requires answer { MayHear self.old answer }
        ensures hears { IfOk result (λ lines. Hears self.old answer lines.items self.new) }
    {
        let lines = reply_lines(alloc, &answer)?;
        let looked = is_look(self.awaited);
        self.awaited = None;
        match front_of(answer) {
            Some(front) => self.hear_front(alloc, world, looked, front, lines),
            None => Ok(lines),
        }
    }

    // Goes on with the front that came with an answer.
    fn hear_front(
        &mut self,
        alloc: Global,
        world: &World,
        looked: bool,
        front: Context,
        lines: Vec<Text>,
    ) -> Result<Vec<Text>, AllocError>
        requires system { self.old.system ≡ world.now.system }
        requires longer { IsPrefix self.old.state.base.entries front.entries }
        requires legal { Legal self.old.system (bare_front front.entries) }
        ensures moved { looked ≡ true → IfOk result (λ out. out.items ≡ lines.items ++ moved_lines (first_taken front.entries self.old.state.draft)) }
        ensures base { looked ≡ true → OnOk result (self.new.state ≡ moved_to self.old.state (labelled front)) }
        ensures begun { looked ≡ false → IfOk result (λ out. out.items ≡ lines.items) }
        ensures empty { looked ≡ false → OnOk result (self.new.state ≡ record self.old.state { base = labelled front; draft = [] }) }
        ensures system { self.new.system ≡ self.old.system }
        ensures awaits { self.new.awaited ≡ self.old.awaited }
    {
        if looked {
            self.move_base(alloc, front, lines)
        } else {
            self.begin(alloc, world, front, lines)
        }
    }

    // Moves base and draft to the front of a look. Where a name of the draft is taken there, a line more says so.
    fn move_base(
        &mut self,
        alloc: Global,
        front: Context,
        lines: Vec<Text>,
    ) -> Result<Vec<Text>, AllocError>
        requires longer { IsPrefix self.old.state.base.entries front.entries }
        requires legal { Legal self.old.system (bare_front front.entries) }
        ensures lines { IfOk result (λ out. out.items ≡ lines.items ++ moved_lines (first_taken front.entries self.old.state.draft)) }
        ensures state { OnOk result (self.new.state ≡ moved_to self.old.state (labelled front)) }
        ensures system { self.new.system ≡ self.old.system }
        ensures awaits { self.new.awaited ≡ self.old.awaited }
    {
        let mut lines = lines;
        if let Some(line) = move_draft(alloc, &mut self.draft, front)? {
            lines.push(line)?;
        }
        Ok(lines)
    }

    // Begins an empty draft over the front that has what was committed.
    fn begin(
        &mut self,
        alloc: Global,
        world: &World,
        front: Context,
        lines: Vec<Text>,
    ) -> Result<Vec<Text>, AllocError>
        requires system { self.old.system ≡ world.now.system }
        requires legal { Legal self.old.system (bare_front front.entries) }
        ensures lines { IfOk result (λ out. out.items ≡ lines.items) }
        ensures state { OnOk result (self.new.state ≡ record self.old.state { base = labelled front; draft = [] }) }
        ensures system { self.new.system ≡ self.old.system }
        ensures awaits { self.new.awaited ≡ self.old.awaited }
    {
        self.draft = Draft::new(alloc, &world.system, front)?;
        Ok(lines)
    }
}

// A line for each entry of a scope from a place on.
fn shown_lines(
    alloc: Global,
    system: &System,
    scope: &Context,
    from: usize,
) -> Result<Vec<Text>, AllocError>
    requires inside { from ≤ length scope.now.entries }
    ensures { IfOk result (λ lines. lines.items ≡ map (shown_line system.now.sorts) (drop from scope.now.entries)) }
{
    let mut lines = Vec::new(alloc);
    for place in from..scope.len() {
        lines.push(shown_line(alloc, system, scope.entry(place))?)?;
    }
    Ok(lines)
}

// The reply in an answer.
fn reply_lines(alloc: Global, answer: &Answer) -> Result<Vec<Text>, AllocError>
    ensures { IfOk result (λ lines. lines.items ≡ reply_text (reply_in answer.now) ∷ []) }
{
    one(alloc, reply_line(alloc, &answer.receipt.reply)?)
}

// The front that comes with an answer.
fn front_of(answer: Answer) -> Option<Context>
    ensures { result ≡ answer.front }
{
    let Answer { front, .. } = answer;
    front
}

// Whether a session waits for the answer to a look.
fn is_look(awaited: Option<Awaited>) -> bool
    ensures { result ≡ is_look awaited }
{
    match awaited {
        Some(Awaited::Look) => true,
        Some(Awaited::Submission) | None => false,
    }
}

// A text that is no line.
fn unread(alloc: Global, fault: &ReadFault) -> Result<Local<Request>, AllocError>
    ensures line { IfOk result (λ l. (s : State) → came_to l s ≡ done (refusal (read_text fault.now) ∷ []) s) }
    ensures awaits { IfOk result (λ l. awaited_by l ≡ None) }
    ensures refusal { OnOk result (fault.now ≢ ReadFault.Memory) }
{
    Ok(Local::Done(one(alloc, unread_line(alloc, fault)?)?))
}

// A line that may not be given now.
fn refused(alloc: Global, why: &str) -> Result<Local<Request>, AllocError>
    ensures line { IfOk result (λ l. (s : State) → came_to l s ≡ done (refusal why.now ∷ []) s) }
    ensures awaits { IfOk result (λ l. awaited_by l ≡ None) }
{
    Ok(Local::Done(one(alloc, refused_line(alloc, why)?)?))
}
