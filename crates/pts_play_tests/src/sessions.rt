// Small sessions over a small core, with which rounds are tried. Names are assumed, and committed to one list.

ghost use Rattle.std.specs.Prelude.{◌≡◌, true, false, IfOk};
ghost use Rattle.pts_play.specs.Seen.{outcome_of};
ghost use Rattle.pts_play_tests.specs.Sessions.{Comes};

use pts_names::Text;
use pts_play::{Local, Player, Rounds, Table};
use std::alloc::{AllocError, Global};

/// What is the same for all sessions: what follows a name that is assumed.
#[derive(Drop)]
pub struct Sort {
    pub text: String,
}

#[derive(Drop)]
pub enum Request {
    Look,
    Submit(Vec<Text>),
}

#[derive(Drop)]
pub enum Answer {
    /// The names of the core.
    Seen(Vec<Text>),
    /// How many there were before, and all.
    Committed(usize, Vec<Text>),
    /// A name that was there, and its place.
    Clash(Text, usize),
}

/// The names that were committed, in order.
#[derive(Drop)]
pub struct Register {
    pub names: Vec<Text>,
    /// How often a step was taken.
    pub steps: u64,
}

/// A session: the names that it has seen, those that it has assumed since, and whether it waits.
#[derive(Drop)]
pub struct Session {
    pub base: Vec<Text>,
    pub draft: Vec<Text>,
    pub waits: bool,
}

impl Session {
    /// A session that has seen and assumed nothing, and that does not wait.
    pub fn new(alloc: Global) -> Session
        ensures { result.waits ≡ false }
    {
        Session {
            base: Vec::new(alloc),
            draft: Vec::new(alloc),
            waits: false,
        }
    }
}

// The place of a name.
fn place_of(names: &[Text], name: &str) -> Option<usize> {
    for (place, known) in names.iter().enumerate() {
        if known.text() == name {
            return Some(place);
        }
    }
    None
}

// The same names once more.
fn copies(alloc: Global, names: &[Text]) -> Result<Vec<Text>, AllocError> {
    let mut copies = Vec::new(alloc);
    for name in names {
        copies.push(Text::of(String::from_str(alloc, name.text())?))?;
    }
    Ok(copies)
}

// The first of the names that is known, with its place.
fn first_clash(
    alloc: Global,
    known: &[Text],
    names: &[Text],
) -> Result<Option<Answer>, AllocError> {
    for name in names {
        if let Some(place) = place_of(known, name.text()) {
            let name = String::from_str(alloc, name.text())?;
            return Ok(Some(Answer::Clash(Text::of(name), place)));
        }
    }
    Ok(None)
}

impl Register {
    fn submit(&mut self, alloc: Global, names: Vec<Text>) -> Result<Answer, AllocError> {
        if let Some(clash) = first_clash(alloc, self.names.as_slice(), names.as_slice())? {
            return Ok(clash);
        }
        let before = self.names.len();
        let mut names = names;
        self.names.append(&mut names)?;
        Ok(Answer::Committed(before, copies(alloc, self.names.as_slice())?))
    }
}

impl Table<Request, Answer> for Register {
    ghost may = { λ _ _. Unit {0} };

    ghost steps = { λ _ _ _ _ _. Unit {0} };

    ghost keeps = { λ _ _. Unit {0} };

    ghost keeps_itself = { λ _. tt };

    ghost keeps_on = { λ _ _ _ _ _. tt };

    fn step(
        &mut self,
        alloc: Global,
        _session: u32,
        request: Request,
    ) -> Result<Answer, AllocError> {
        self.steps = self.steps.saturating_add(1);
        match request {
            Request::Look => Ok(Answer::Seen(copies(alloc, self.names.as_slice())?)),
            Request::Submit(names) => self.submit(alloc, names),
        }
    }
}

// One reply.
fn reply(alloc: Global, line: String) -> Result<Vec<Text>, AllocError> {
    let mut lines = Vec::new(alloc);
    lines.push(Text::of(line))?;
    Ok(lines)
}

impl Session {
    // What `commit` comes to.
    fn commit(&mut self, alloc: Global) -> Result<Local<Request>, AllocError>
        requires { self.old.waits ≡ false }
        ensures { IfOk result (λ l. Comes (λ s. s.waits) (outcome_of l self.new)) }
    {
        if self.draft.is_empty() {
            let line = String::from_str(alloc, "refused NothingToCommit")?;
            return Ok(Local::Done(reply(alloc, line)?));
        }
        let names = copies(alloc, self.draft.as_slice())?;
        self.waits = true;
        Ok(Local::Ask(Request::Submit(names)))
    }

    // The reply to any other line.
    fn assume(&mut self, alloc: Global, sort: &str, text: &str) -> Result<String, AllocError>
        ensures { self.new.waits ≡ self.old.waits }
    {
        let Some(name) = name_in(text, sort) else {
            return String::from_str(alloc, "refused NotBuilt");
        };
        if let Some(place) = self.place(name) {
            return format!(in alloc; "refused Taken {name} {place}");
        }
        self.draft.push(Text::of(String::from_str(alloc, name)?))?;
        format!(in alloc; "assumed {name}{sort}")
    }

    // The place of a name among those that it knows.
    fn place(&self, name: &str) -> Option<usize> {
        match place_of(self.base.as_slice(), name) {
            Some(place) => Some(place),
            None => {
                let place = place_of(self.draft.as_slice(), name)?;
                Some(self.base.len().saturating_add(place))
            }
        }
    }

    // The reply to an answer.
    fn hear(&mut self, alloc: Global, answer: Answer) -> Result<String, AllocError>
        ensures { self.new.waits ≡ self.old.waits }
    {
        match answer {
            Answer::Seen(names) => {
                let count = names.len();
                self.base = names;
                format!(in alloc; "seen {count}")
            }
            Answer::Committed(before, names) => {
                let count = names.len();
                self.base = names;
                self.draft = Vec::new(alloc);
                format!(in alloc; "committed {before} {count}")
            }
            Answer::Clash(name, place) => {
                let name = name.text();
                format!(in alloc; "refused Clash {name} {place}")
            }
        }
    }
}

// The name in `assume NAME`, which the sort follows.
fn name_in<'a>(text: &'a str, sort: &str) -> Option<&'a str> {
    text.strip_prefix("assume ")?.strip_suffix(sort)
}

impl Player for Session {
    type World = Sort;

    type Request = Request;

    type Answer = Answer;

    type Core = Register;

    ghost local = { λ _ _ _ o. Comes (λ s. s.waits) o };

    ghost resumes = { λ _ _ _ _ t. t.waits ≡ false };

    ghost free = { λ _ s. s.waits ≡ false };

    ghost awaits = { λ _ s _. s.waits ≡ true };

    ghost takes = { λ _ s _. s.waits ≡ true };

    ghost fits = { λ _ _ _. Unit {0} };

    fn run_local(
        &mut self,
        alloc: Global,
        world: &Sort,
        text: &str,
    ) -> Result<Local<Request>, AllocError> {
        if text == "look" {
            self.waits = true;
            return Ok(Local::Ask(Request::Look));
        }
        if text == "commit" {
            return self.commit(alloc);
        }
        let line = self.assume(alloc, world.text.as_str(), text)?;
        Ok(Local::Done(reply(alloc, line)?))
    }

    fn resume(
        &mut self,
        alloc: Global,
        _world: &Sort,
        answer: Answer,
    ) -> Result<Vec<Text>, AllocError> {
        self.waits = false;
        let line = self.hear(alloc, answer)?;
        reply(alloc, line)
    }

    ghost stays_free = { λ _ _ _ _ _ _ d. d };

    ghost waits = { λ _ _ _ _ _ _ d. d };

    ghost done_fits = { λ _ _ _ _ _ _ _ _. tt };

    ghost asks_fits = { λ _ _ _ _ _ _ _ _. tt };

    ghost may_ask = { λ _ _ _ _ _ _. tt };

    ghost may_answer = { λ _ _ _ _ _ _ _ _ w _. w };

    ghost resumed = { λ _ _ _ _ _ _ _ _ _ _ _ _ h. (h, tt) };

    ghost others = { λ _ _ _ _ _ _ _ _ _. tt };
}

impl Rounds for Session {
    type World = Sort;

    type Waiting = Session;

    type Request = Request;

    type Answer = Answer;

    type Core = u64;

    type Entry = u64;

    ghost local = { λ _ _ _ o. Comes (λ s. s.waits) o };

    ghost resumes = { λ _ _ _ _ t. t.waits ≡ false };

    ghost steps = { λ _ _ _ _ _. Unit {0} };

    ghost core_at = { λ _. 0 };

    ghost chosen = { λ numbers order. numbers ≡ order };

    ghost is_text = { λ _. Unit {0} };
}
