ghost use Rattle.std.specs.Prelude.{◌≡◌, ◌≢◌, ℕ, ◌+◌, ◌-◌, ◌<◌, ◌≤◌, ◌⊎◌, ◌↔◌, List, true, false, [], length, take, drop, vec_len, Contains, Ok, Err, IfOk, IfSome, IfErr, IsTrue, MatchOption, MatchResult};
ghost use Rattle.std.specs.Option.{option_map};
ghost use Rattle.std.specs.Io.KnownBytes.{prepend_known, IsAtEnd};
ghost use Rattle.std.specs.Io.BufRead.{first_line, strip_last};
ghost use Rattle.pts_io.specs.Counts.{raised, Rose};
ghost use Rattle.pts_io.specs.Calls.{moved};
ghost use Rattle.pts_io.specs.Lines.{within, IsAnswer, IsNext, behind, Took, Gets, NoFeed, IsFirstFeed};

use crate::faults::{Fail, ReadFail};
use crate::sources::Source;
use crate::whole::PIECE;
use std::alloc::{AllocError, Global};
use std::marker::Model;

const LINE_FEED: u8 = 10;

const CARRIAGE_RETURN: u8 = 13;

/// The most bytes that a line may have.
pub const LINE_LIMIT: usize = 65_536;

/// What a reader of lines answers.
#[derive(Debug, Drop)]
pub enum Input {
    /// A line, without the line feed at its end and one carriage return before that.
    Text(String),
    /// A line of more than `LINE_LIMIT` bytes, or one that isn't UTF-8.
    Bad,
    /// More bytes than the limit were taken.
    TooMuch,
    /// No line is left.
    End,
}

/// Lines of a source, which takes no more than one byte after a limit, and nothing after the source's end.
#[derive(Debug, Drop)]
pub struct LineReader {
    bytes: Vec<u8>,
    start: usize,
    taken: u64,
    is_over: bool,
    is_ended: bool,
    limit: u64,
    alloc: Global,
}

impl Model for LineReader {
    ghost use Rattle.std.specs.Prelude.{◌≡◌, ◌+◌, ◌≤◌, drop, vec_len, true, if◌then◌else◌};
    ghost use Rattle.pts_io.specs.Lines.{Reading};

    ghost Value = { Reading };

    ghost view = { λ s. record { held = drop s.start s.bytes.items; taken = s.taken + (if s.is_over then 1 else 0); limit = s.limit; ended = s.is_ended } };

    ghost invariant = { λ s. (s.start ≤ vec_len s.bytes) × (s.taken ≤ s.limit) × (s.is_over ≡ true → s.taken ≡ s.limit) × (s.is_ended ≡ true → s.start ≡ vec_len s.bytes) };
}

impl LineReader {
    /// A reader that has taken nothing, and may take so many bytes.
    pub fn new(alloc: Global, limit: u64) -> Result<LineReader, AllocError>
        ensures held { IfOk result (λ reader. reader.held ≡ []) }
        ensures taken { IfOk result (λ reader. reader.taken ≡ 0) }
        ensures limit { IfOk result (λ reader. reader.limit ≡ limit) }
        ensures ended { IfOk result (λ reader. reader.ended ≡ false) }
    {
        Ok(LineReader {
            bytes: Vec::with_capacity(alloc, PIECE)?,
            start: 0,
            taken: 0,
            is_over: false,
            is_ended: false,
            limit,
            alloc,
        })
    }

    /// The next line.
    ///
    /// Takes from the source only while no line feed is held, and asks for a byte after the limit
    /// only where all before it were taken. After `TooMuch` it answers that again. After the source's
    /// end it answers `End`, and asks the source no more.
    ///
    /// # Errors
    ///
    /// `Failed` only where the source's count of faults rose, and `Memory`. What was taken is then
    /// held.
    pub fn next<S: Source>(&mut self, source: &mut S) -> Result<Input, ReadFail>
        ensures never_falls { (S.state source.old).faults ≤ (S.state source.new).faults }
        ensures failed { result ≡ Err ReadFail.Failed → Rose (S.state source.old).faults (S.state source.new).faults }
        ensures faults { result ≢ Err ReadFail.Failed → (S.state source.new).faults ≡ (S.state source.old).faults }

        ensures grows { self.old.taken ≤ self.new.taken }
        ensures given { (S.state source.new).given ≡ raised (S.state source.old).given (self.new.taken - self.old.taken) }
        ensures limit { self.new.limit ≡ self.old.limit }
        ensures most { self.new.taken ≤ self.new.limit + 1 }
        ensures too_much { (result ≡ Ok Input.TooMuch) ↔ (self.new.limit < self.new.taken) }
        ensures waits { Contains self.old.held 10 ⊎ (self.old.limit < self.old.taken) → source.new ≡ source.old }
        ensures part { result ≡ Err ReadFail.Failed → ¬ Contains self.new.held 10 }

        ensures ahead { prepend_known self.new.held (S.state source.new).left
            ≡ option_map (behind result) (prepend_known self.old.held (S.state source.old).left) }
        ensures answer { self.old.taken ≤ self.old.limit → (self.old.ended ≡ true → IsAtEnd (S.state source.old).left) → IfOk result (λ input.
            IfSome (prepend_known self.old.held (S.state source.old).left) (λ bytes. IsNext (within self.old) bytes input)) }
        ensures room { IfSome (prepend_known self.old.held (S.state source.old).left)
            (λ bytes. within self.new + length bytes ≡ within self.old + length (behind result bytes)) }

        ensures done { self.old.ended ≡ true → self.old.taken ≤ self.old.limit → result ≡ Ok Input.End }
        ensures stays { self.old.ended ≡ true → source.new ≡ source.old }
        ensures ended { (self.old.ended ≡ true → IsAtEnd (S.state source.old).left) → self.new.ended ≡ true → IsAtEnd (S.state source.new).left }
        ensures fed { self.new.ended ≡ false → IfSome (prepend_known self.old.held (S.state source.old).left)
            (λ bytes. Contains bytes 10 ⊎ (behind result bytes ≡ bytes)) }
        ensures closes { result ≡ Ok Input.End → self.new.ended ≡ true }
        ensures took { (taken : List ℕ) × ((S.state source.old).left ≡ prepend_known taken (S.state source.new).left)
            × Took self.old self.new result taken }
    {
        if self.is_over {
            return Ok(Input::TooMuch);
        }
        if self.is_ended {
            return Ok(Input::End);
        }
        match self.line_end(0) {
            Some(end) => self.hand_out(end),
            None => self.read_line(source),
        }
    }

    // The next line where no line feed is held.
    fn read_line<S: Source>(&mut self, source: &mut S) -> Result<Input, ReadFail>
        requires open { self.old.taken ≤ self.old.limit }
        requires no_line { NoFeed self.old.held }
        requires not_ended { self.old.ended ≡ false }
        ensures never_falls { (S.state source.old).faults ≤ (S.state source.new).faults }
        ensures failed { result ≡ Err ReadFail.Failed → Rose (S.state source.old).faults (S.state source.new).faults }
        ensures faults { result ≢ Err ReadFail.Failed → (S.state source.new).faults ≡ (S.state source.old).faults }

        ensures grows { self.old.taken ≤ self.new.taken }
        ensures given { (S.state source.new).given ≡ raised (S.state source.old).given (self.new.taken - self.old.taken) }
        ensures limit { self.new.limit ≡ self.old.limit }
        ensures most { self.new.taken ≤ self.new.limit + 1 }
        ensures too_much { (result ≡ Ok Input.TooMuch) ↔ (self.new.limit < self.new.taken) }
        ensures part { result ≡ Err ReadFail.Failed → NoFeed self.new.held }

        ensures ahead { prepend_known self.new.held (S.state source.new).left
            ≡ option_map (behind result) (prepend_known self.old.held (S.state source.old).left) }
        ensures answer { IfOk result (λ input.
            IfSome (prepend_known self.old.held (S.state source.old).left) (λ bytes. IsNext (within self.old) bytes input)) }
        ensures room { IfSome (prepend_known self.old.held (S.state source.old).left)
            (λ bytes. within self.new + length bytes ≡ within self.old + length (behind result bytes)) }

        ensures ended { self.new.ended ≡ true → IsAtEnd (S.state source.new).left }
        ensures fed { self.new.ended ≡ false → IfSome (prepend_known self.old.held (S.state source.old).left)
            (λ bytes. Contains bytes 10 ⊎ (behind result bytes ≡ bytes)) }
        ensures closes { result ≡ Ok Input.End → self.new.ended ≡ true }
        ensures took { (taken : List ℕ) × ((S.state source.old).left ≡ prepend_known taken (S.state source.new).left)
            × Took self.old self.new result taken }
    {
        'turns: loop {
            let seen = self.held().len();
            let count = self.fill(source)?;
            if self.is_over() {
                return Ok(Input::TooMuch);
            }
            if count == 0 {
                return self.hand_out_last();
            }
            if let Some(end) = self.line_end(seen) {
                return self.hand_out(end);
            }
        }
    }

    fn held(&self) -> &[u8]
        ensures { result.now ≡ self.now.held }
    {
        &self.bytes[self.start..]
    }

    // A byte after the limit was taken.
    fn is_over(&self) -> bool
        ensures { IsTrue result ↔ (self.now.limit < self.now.taken) }
    {
        self.is_over
    }

    // How many bytes are asked for: none after the limit, but for one where all within were taken.
    fn wanted(&self) -> usize
        requires { self.now.taken ≤ self.now.limit }
        ensures some { 0 < result }
        ensures fits { result ≤ 65536 }
        ensures most { self.now.taken + result ≤ self.now.limit + 1 }
        ensures one { self.now.taken < self.now.limit → self.now.taken + result ≤ self.now.limit }
    {
        let room = self.limit - self.taken;
        if room == 0 {
            return 1;
        }
        room.min(PIECE as u64) as usize
    }

    // Where the first line feed is held, if none is among the first `seen` bytes.
    fn line_end(&self, seen: usize) -> Option<usize>
        requires seen { seen ≤ length self.now.held }
        requires clear { NoFeed (take seen self.now.held) }
        ensures { MatchOption result (NoFeed self.now.held) (IsFirstFeed self.now.held) }
    {
        first_feed(self.held(), seen)
    }

    // Answers the line before the first line feed, which stands at `end`.
    fn hand_out(&mut self, end: usize) -> Result<Input, ReadFail>
        requires feed { IsFirstFeed self.old.held end }
        requires not_ended { self.old.ended ≡ false }
        ensures answer { IfOk result (IsAnswer (first_line self.old.held)) }
        ensures refused { IfErr result (λ fail. fail ≡ ReadFail.Memory) }
        ensures held { self.new.held ≡ behind result self.old.held }
        ensures taken { self.new.taken ≡ self.old.taken }
        ensures limit { self.new.limit ≡ self.old.limit }
        ensures ended { self.new.ended ≡ false }
    {
        let line = without_return(&self.held()[..end]);
        let Ok(answer) = answer_to(self.alloc, line) else {
            return Err(ReadFail::Memory);
        };
        self.start += end + 1;
        Ok(answer)
    }

    // Answers what is held as the last line, if it isn't empty.
    fn hand_out_last(&mut self) -> Result<Input, ReadFail>
        requires no_line { NoFeed self.old.held }
        requires not_ended { self.old.ended ≡ false }
        ensures empty { (result ≡ Ok Input.End) ↔ (self.old.held ≡ []) }
        ensures answer { IfOk result (λ input. 0 < length self.old.held → IsAnswer (first_line self.old.held) input) }
        ensures refused { IfErr result (λ fail. fail ≡ ReadFail.Memory) }
        ensures held { self.new.held ≡ behind result self.old.held }
        ensures taken { self.new.taken ≡ self.old.taken }
        ensures limit { self.new.limit ≡ self.old.limit }
        ensures ended { MatchResult result (λ _. self.new.ended ≡ true) (λ _. self.new.ended ≡ false) }
        ensures nothing_held { self.new.ended ≡ true → self.new.held ≡ [] }
    {
        let line = self.held();
        if line.is_empty() {
            self.is_ended = true;
            return Ok(Input::End);
        }
        let Ok(answer) = answer_to(self.alloc, line) else {
            return Err(ReadFail::Memory);
        };
        self.start = self.bytes.len();
        self.is_ended = true;
        Ok(answer)
    }

    // Takes once more, and holds what came.
    fn fill<S: Source>(&mut self, source: &mut S) -> Result<usize, ReadFail>
        requires open { self.old.taken ≤ self.old.limit }
        requires not_ended { self.old.ended ≡ false }
        ensures never_falls { (S.state source.old).faults ≤ (S.state source.new).faults }
        ensures failed { result ≡ Err ReadFail.Failed → Rose (S.state source.old).faults (S.state source.new).faults }
        ensures faults { result ≢ Err ReadFail.Failed → (S.state source.new).faults ≡ (S.state source.old).faults }

        ensures given { (S.state source.new).given ≡ raised (S.state source.old).given (moved result) }
        ensures taken { self.new.taken ≡ self.old.taken + moved result }
        ensures limit { self.new.limit ≡ self.old.limit }
        ensures ended { self.new.ended ≡ false }
        ensures most { self.new.taken ≤ self.new.limit + 1 }
        ensures one { self.old.taken < self.new.limit → self.new.taken ≤ self.new.limit }

        ensures gets { Gets self.old.held self.new.held (S.state source.old).left (S.state source.new).left }
        ensures front { take (length self.old.held) self.new.held ≡ self.old.held }
        ensures len { length self.new.held ≡ length self.old.held + moved result }
        ensures ahead { prepend_known self.new.held (S.state source.new).left ≡ prepend_known self.old.held (S.state source.old).left }
        ensures end { IfOk result (λ n. n ≡ 0 → IsAtEnd (S.state source.new).left) }
    {
        drop_front(&mut self.bytes, self.start);
        self.start = 0;
        let most = self.wanted();
        let count = take_onto(source, &mut self.bytes, most)?;
        if self.taken == self.limit {
            self.is_over = count > 0;
        } else {
            self.taken += count as u64;
        }
        Ok(count)
    }
}

// Takes once, at most so many bytes, and appends what came.
fn take_onto<S: Source>(source: &mut S, bytes: &mut Vec<u8>, most: usize) -> Result<usize, ReadFail>
    requires { most ≤ 65536 }
    ensures never_falls { (S.state source.old).faults ≤ (S.state source.new).faults }
    ensures failed { result ≡ Err ReadFail.Failed → Rose (S.state source.old).faults (S.state source.new).faults }
    ensures faults { result ≢ Err ReadFail.Failed → (S.state source.new).faults ≡ (S.state source.old).faults }

    ensures given { (S.state source.new).given ≡ raised (S.state source.old).given (moved result) }
    ensures bound { moved result ≤ most }
    ensures gets { Gets bytes.old.items bytes.new.items (S.state source.old).left (S.state source.new).left }
    ensures front { take (vec_len bytes.old) bytes.new.items ≡ bytes.old.items }
    ensures len { vec_len bytes.new ≡ vec_len bytes.old + moved result }
    ensures ahead { prepend_known bytes.new.items (S.state source.new).left ≡ prepend_known bytes.old.items (S.state source.old).left }
    ensures end { IfOk result (λ n. n ≡ 0 → 0 < most → IsAtEnd (S.state source.new).left) }
{
    let held = bytes.len();
    let Ok(()) = bytes.resize(held + most, 0) else {
        return Err(ReadFail::Memory);
    };
    match source.take(&mut bytes[held..]) {
        Ok(count) => {
            bytes.truncate(held + count);
            Ok(count)
        }
        Err(Fail::Failed) => {
            bytes.truncate(held);
            Err(ReadFail::Failed)
        }
    }
}

// Where the first line feed stands, if none stands in the first `seen` bytes.
fn first_feed(bytes: &[u8], seen: usize) -> Option<usize>
    requires seen { seen ≤ length bytes.now }
    requires clear { NoFeed (take seen bytes.now) }
    ensures { MatchOption result (NoFeed bytes.now) (IsFirstFeed bytes.now) }
{
    for place in seen..bytes.len() {
        if bytes[place] == LINE_FEED {
            return Some(place);
        }
    }
    None
}

// Takes the first bytes off.
fn drop_front(bytes: &mut Vec<u8>, count: usize)
    requires { count ≤ vec_len bytes.old }
    ensures { bytes.new.items ≡ drop count bytes.old.items }
{
    if count > 0 {
        let kept = bytes.len() - count;
        bytes.copy_within(count.., 0);
        bytes.truncate(kept);
    }
}

// The line without one carriage return at its end.
fn without_return(line: &[u8]) -> &[u8]
    ensures { result.now ≡ strip_last 13 line.now }
{
    match line {
        [front @ .., CARRIAGE_RETURN] => front,
        _ => line,
    }
}

fn answer_to(alloc: Global, line: &[u8]) -> Result<Input, AllocError>
    ensures { IfOk result (IsAnswer line.now) }
{
    if line.len() > LINE_LIMIT {
        return Ok(Input::Bad);
    }
    match str::from_utf8(line) {
        Ok(text) => Ok(Input::Text(String::from_str(alloc, text)?)),
        Err(_) => Ok(Input::Bad),
    }
}
