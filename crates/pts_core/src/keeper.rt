// The core.

ghost use Rattle.std.specs.Prelude.{◌≡◌, ◌<◌, ◌≤◌, ◌++◌, ◌∷◌, [], length, Some, IfOk, IfErr, OnOk, slice_get};
ghost use Rattle.std.specs.Option.{option_map};
ghost use Rattle.pts_core.specs.declared.event.Event.TheVariants as event;
ghost use Rattle.pts_core.specs.Histories.{after, look};
ghost use Rattle.pts_core.specs.Cores.{IsLegalCore, MaySubmit, front_of, labelled, submitted};
ghost use Rattle.pts_core.specs.Events.{MayHappen, past_of};
ghost use Rattle.pts_core.specs.Ports.{IsAnswer, IsNoAnswer, handed_on};

use crate::entering::{answer, enter_copies};
use crate::event::Event;
use crate::examined::Examined;
use crate::obstacle::first_obstacle;
use crate::past::Past;
use crate::port::{Answer, PortFault, Receipt};
use crate::reply::Reply;
use pts_ctx::{Context, System};
use std::alloc::{AllocError, Global};
use std::marker::Model;
use std::snapshot::Snapshot;

/// How many events a history has at most.
pub const EVENTS: u64 = 4_000_000;

/// A front, to which nothing is added but by `step`, and the history of its events. The front is legal in the system.
#[derive(Drop)]
pub struct Core {
    system: System,
    context: Context,
    history: Vec<Past>,
    alloc: Global,
}

impl Model for Core {
    ghost use Rattle.std.specs.Prelude.{vec_len, vec_capacity, ◌-◌};
    ghost use Rattle.std.specs.Coded.{codes};
    ghost use Rattle.pts_terms.specs.Code.{coded_tree};
    ghost use Rattle.pts_core.specs.contracts.finding.Finding as f;
    ghost use Rattle.pts_core.specs.contracts.reply.Reply as r;
    ghost use Rattle.pts_core.specs.Cores.{SeenCore, IsLegalCore};

    ghost Value = { SeenCore };

    ghost coded = { Prim.hlevel (codes, coded_tree, f.the_row.coded, r.the_row.coded) };

    ghost view = { λ c. record { system = c.system; entries = c.context.entries; labels = c.context.labels; history = c.history.items; spare_entries = c.context.spare_entries; spare_labels = c.context.spare_labels; spare_events = vec_capacity c.history - vec_len c.history } };

    ghost invariant = { λ c. IsLegalCore c.system (record { entries = c.context.entries; labels = c.context.labels }) c.history.items };
}

impl Core {
    /// The core of a system, with the empty front and no event.
    pub fn new(alloc: Global, system: System) -> Core
        ensures system { result.system ≡ system }
        ensures entries { result.entries ≡ [] }
        ensures labels { result.labels ≡ [] }
        ensures history { result.history ≡ [] }
    {
        Core {
            system,
            context: Context::new(alloc),
            history: Vec::new(alloc),
            alloc,
        }
    }

    /// The system.
    pub fn system(&self) -> &System
        ensures { result.now ≡ self.now.system }
    {
        &self.system
    }

    /// The front.
    pub fn context(&self) -> &Context
        ensures entries { result.now.entries ≡ self.now.entries }
        ensures labels { result.now.labels ≡ self.now.labels }
    {
        &self.context
    }

    /// The front, for which the rest is given up.
    pub fn into_context(self) -> Context
        ensures entries { result.entries ≡ self.entries }
        ensures labels { result.labels ≡ self.labels }
    {
        let Core { context, .. } = self;
        context
    }

    /// How many events there were.
    pub fn events(&self) -> u64
        ensures { result ≡ length self.now.history }
    {
        self.history.len() as u64
    }

    /// The session of the event with that number, from 0 on.
    pub fn past_session(&self, number: u64) -> u32
        requires { number < length self.now.history }
        ensures { option_map (λ p. p.session) (slice_get self.now.history number) ≡ Some result }
    {
        let past = &self.history[number as usize];
        past.session
    }

    /// The reply to the event with that number, from 0 on.
    pub fn past_reply(&self, number: u64) -> &Reply
        requires { number < length self.now.history }
        ensures { option_map (λ p. p.reply) (slice_get self.now.history number) ≡ Some result.now }
    {
        let past = &self.history[number as usize];
        &past.reply
    }

    /// What is sure of every core: its history leaves its front, which is legal.
    pub fn is_legal(&self)
        ensures { IsLegalCore self.now.system (front_of self.now) self.now.history }
    {
        let _ = &self.history;
    }

    /// Makes room for so many entries, one label and one event.
    ///
    /// # Errors
    ///
    /// Out of memory.
    pub fn reserve(&mut self, declarations: usize) -> Result<(), AllocError>
        ensures system { self.new.system ≡ self.old.system }
        ensures entries { self.new.entries ≡ self.old.entries }
        ensures labels { self.new.labels ≡ self.old.labels }
        ensures history { self.new.history ≡ self.old.history }
        ensures room { OnOk result ((declarations ≤ self.new.spare_entries) × (0 < self.new.spare_labels) × (0 < self.new.spare_events)) }
    {
        self.context.reserve(declarations, 1)?;
        self.history.reserve(1)
    }

    /// The event happens. It takes no memory. What it costs does not depend on the history, nor on the front but for the few
    /// indices in which a name is looked up, nor on the size of the offered terms but where an offer is refused and they are
    /// given back.
    pub fn step(&mut self, event: Event) -> Reply
        requires may { MayHappen event self.old }
        ensures system { self.new.system ≡ self.old.system }
        ensures front { front_of self.new ≡ after (front_of self.old) (past_of event (front_of self.old)) }
        ensures history { self.new.history ≡ self.old.history ++ past_of event (front_of self.old) ∷ [] }
        ensures reply { result ≡ (past_of event (front_of self.old)).reply }
    {
        let asked = Snapshot::of(&event);
        match event {
            Event::Look(session) => self.look(session, asked),
            Event::Submit(session, examined) => self.submit(session, examined, asked),
        }
    }

    /// The front that a submission of what was examined would leave.
    ///
    /// # Errors
    ///
    /// Out of memory.
    pub fn after(&self, examined: &Examined) -> Result<Context, AllocError>
        requires may { MaySubmit examined.now self.now }
        ensures front { IfOk result (λ c. labelled c ≡ after (front_of self.now) (submitted 0 examined.now (front_of self.now))) }
    {
        match self.committed(examined)? {
            Some(front) => Ok(front),
            None => self.context.copy(),
        }
    }

    /// A look of a session, with room made for it.
    ///
    /// # Errors
    ///
    /// The history is full, or out of memory. Then nothing has happened.
    pub fn answer_look(&mut self, session: u32) -> Result<Answer, PortFault>
        ensures system { self.new.system ≡ self.old.system }
        ensures answered { IfOk result (λ a. IsAnswer (look session) self.old.history self.new.history a) }
        ensures refused { IfErr result (λ e. IsNoAnswer e self.old.history self.new.history) }
    {
        let number = self.events();
        self.is_legal();
        if number >= EVENTS {
            return Err(PortFault::HistoryFull(number));
        }
        self.reserve(0)?;
        let front = self.context().copy()?;
        let reply = self.step(Event::Look(session));
        self.is_legal();
        Ok(Answer {
            receipt: Receipt { number, reply },
            front: Some(front),
        })
    }

    /// A submission by a session, with room made for it.
    ///
    /// # Errors
    ///
    /// The history is full, or out of memory. Then nothing has happened.
    pub fn answer_submit(&mut self, session: u32, examined: Examined) -> Result<Answer, PortFault>
        requires may { MaySubmit examined self.old }
        ensures system { self.new.system ≡ self.old.system }
        ensures answered { IfOk result (λ a. IsAnswer (submitted session examined) self.old.history self.new.history a) }
        ensures refused { IfErr result (λ e. IsNoAnswer e self.old.history self.new.history) }
    {
        let number = self.events();
        self.is_legal();
        if number >= EVENTS {
            return Err(PortFault::HistoryFull(number));
        }
        self.reserve(examined.len())?;
        let front = self.committed(&examined)?;
        let reply = self.step(Event::Submit(session, examined));
        self.is_legal();
        Ok(Answer {
            receipt: Receipt { number, reply },
            front,
        })
    }

    // The front that a submission would leave, where it would enter.
    fn committed(&self, examined: &Examined) -> Result<Option<Context>, AllocError>
        requires may { MaySubmit examined.now self.now }
        ensures { IfOk result (λ o. option_map labelled o ≡ handed_on (submitted 0 examined.now (front_of self.now)).reply (after (front_of self.now) (submitted 0 examined.now (front_of self.now)))) }
    {
        if let Some(_) = first_obstacle(&self.context, examined) {
            return Ok(None);
        }
        let mut front = self.context.copy()?;
        enter_copies(self.alloc, &mut front, examined)?;
        Ok(Some(front))
    }

    // A look.
    fn look(&mut self, session: u32, asked: Snapshot<Event>) -> Reply
        requires asked { asked.value ≡ event.Look session }
        requires few { length self.old.history < 4000000 }
        requires room { 0 < self.old.spare_events }
        ensures system { self.new.system ≡ self.old.system }
        ensures front { front_of self.new ≡ front_of self.old }
        ensures history { self.new.history ≡ self.old.history ++ look session (front_of self.old) ∷ [] }
        ensures reply { result ≡ (look session (front_of self.old)).reply }
    {
        let front = self.context.len();
        let past = Past {
            session,
            front,
            asked,
            reply: Reply::Seen(front),
        };
        match self.history.push(past) {
            Ok(()) => Reply::Seen(front),
            Err(_) => unreachable!(),
        }
    }

    // A submission.
    fn submit(&mut self, session: u32, examined: Examined, asked: Snapshot<Event>) -> Reply
        requires asked { asked.value ≡ event.Submit session examined }
        requires few { length self.old.history < 4000000 }
        requires room { 0 < self.old.spare_events }
        requires may { MaySubmit examined self.old }
        requires entries { length examined.offer.declarations ≤ self.old.spare_entries }
        requires labels { 0 < self.old.spare_labels }
        ensures system { self.new.system ≡ self.old.system }
        ensures front { front_of self.new ≡ after (front_of self.old) (submitted session examined (front_of self.old)) }
        ensures history { self.new.history ≡ self.old.history ++ submitted session examined (front_of self.old) ∷ [] }
        ensures reply { result ≡ (submitted session examined (front_of self.old)).reply }
    {
        examined.is_examined();
        let front = examined.front_len();
        let replies = answer(&mut self.context, examined);
        let past = Past {
            session,
            front,
            asked,
            reply: replies.kept,
        };
        match self.history.push(past) {
            Ok(()) => replies.shown,
            Err(_) => unreachable!(),
        }
    }
}
