//! Lines from a reader, replies to a writer.

ghost use Rattle.std.specs.Prelude.{◌≡◌, ℕ, List, [], true, false, IfOk};
ghost use Rattle.cr_shell.specs.Asking.{asked, AsksReady};
ghost use Rattle.cr_served.specs.Running.{watch};
ghost use Rattle.cr_shell.specs.Running.{RanAs};
ghost use Rattle.cr_shell.specs.Serving.{Entry, asks, IsKept, IsNewLine, IsPushed, IsEmpty, Answers, Replies, Hears, HearsLine, HearsUnfinished, Takes, Ends, Serves};

use crate::asking::{Asked, Gathered};
use crate::printing::{Answer, print_answer};
use crate::watched::{Failed, Watched};
use cr_guard::guarding::Guarding;
use cr_host::functions::Functions;
use cr_script::speaking::{Speaking, Watching};
use cr_served::served::Served;
use cr_world::command::FleetReply;
use cr_world::refusal::{Limit, Refusal};
use std::alloc::{AllocError, Global};
use std::io::{Read, Write};
use thiserror::Error;

/// The length at which an input is refused, in bytes.
pub const INPUT_LIMIT: usize = 16_000_000;

/// How a run ended.
#[derive(Clone, Copy, Debug, PartialEq, Eq, Drop)]
pub enum End {
    /// At `.quit`.
    Quit,
    /// At the end of the input.
    Input,
}

/// Why a run ended before its input did.
#[derive(Clone, Copy, Debug, PartialEq, Eq, Drop, Error)]
pub enum ServeFault {
    /// The reader failed, or the input reached 16,000,000 bytes.
    #[error("the reader failed, or the input is too long")]
    Read,
    /// The writer failed.
    #[error("the writer failed")]
    Write,
}

// What comes after a byte.
#[derive(Clone, Copy, Debug, PartialEq, Eq, Drop)]
enum Next {
    Goes,
    Quits,
    // The writer failed.
    Fails,
}

// A line as far as it was read; where there was no memory for it, it is lost.
#[derive(Drop)]
struct Line {
    bytes: Vec<u8>,
    is_lost: bool,
}

impl Line {
    fn new(alloc: Global) -> Line
        ensures { IsNewLine result }
    {
        Line {
            bytes: Vec::new(alloc),
            is_lost: false,
        }
    }

    fn push(&mut self, byte: u8)
        ensures { IsPushed self.old self.new byte }
    {
        if !self.is_lost {
            self.is_lost = self.bytes.push(byte).is_err();
        }
    }

    fn clear(&mut self)
        ensures { IsNewLine self.new }
    {
        self.bytes.clear();
        self.is_lost = false;
    }

    fn is_empty(&self) -> bool
        ensures { (bytes : List ℕ) → IsKept self.now bytes → IsEmpty bytes result }
    {
        !self.is_lost && self.bytes.is_empty()
    }
}

// What was read and isn't run yet: the line, and what is gathered of those before it.
#[derive(Drop)]
struct Input {
    line: Line,
    gathered: Gathered,
}

impl Input {
    fn new(alloc: Global) -> Input
        ensures line { IsNewLine result.line }
        ensures gathered { result.gathered ≡ [] }
    {
        Input {
            line: Line::new(alloc),
            gathered: Gathered::new(alloc),
        }
    }

    // What the line asks, unless memory doesn't suffice; the next line is empty then.
    fn ask(&mut self, alloc: Global) -> Result<Asked, AllocError>
        ensures value { IfOk result (λ it. (self.old.line.is_lost ≡ false) × ((it, self.new.gathered) ≡ asked self.old.gathered self.old.line.bytes.items)) }
        ensures ready { IfOk result AsksReady }
        ensures line { IsNewLine self.new.line }
    {
        let request = if self.line.is_lost {
            Err(AllocError)
        } else {
            self.gathered.ask(alloc, &self.line.bytes)
        };
        self.line.clear();
        request
    }
}

// The answer to what is asked, `None` where it ends the run; where memory did not suffice, what is gathered is dropped.
fn answer<T: Served, F: Functions, G: Guarding>(
    alloc: Global,
    served: &mut T,
    functions: &F,
    guard: &mut G,
    gathered: &mut Gathered,
    request: Result<Asked, AllocError>,
) -> Option<Answer>
    requires functions { F.is_faithful functions.now }
    requires guard { G.is_faithful guard.old }
    requires ready { IfOk request AsksReady }
    ensures replies { (entry : Entry) (before : List ℕ) → IfOk request (λ it. (it, gathered.old) ≡ asks before entry)
        → Replies (RanAs T.ran (⟦<F as Speaking>⟧.are_names functions.now) (⟦<F as Speaking>⟧.language functions.now) (⟦<G as Watching>⟧.closures guard.old)) (served.old, watch G.rules G.noted G.noting guard.old, before) entry result (served.new, watch G.rules G.noted G.noting guard.new, gathered.new) }
    ensures answers { IfOk request (λ it. Answers (RanAs T.ran (⟦<F as Speaking>⟧.are_names functions.now) (⟦<F as Speaking>⟧.language functions.now) (⟦<G as Watching>⟧.closures guard.old)) (served.old, watch G.rules G.noted G.noting guard.old) (served.new, watch G.rules G.noted G.noting guard.new) it result) }
    ensures gathered { IfOk request (λ it. gathered.new ≡ gathered.old) }
    ensures closures { ⟦<G as Watching>⟧.closures guard.new ≡ ⟦<G as Watching>⟧.closures guard.old }
    ensures noting { G.noting guard.new ≡ G.noting guard.old }
    ensures faithful { G.is_faithful guard.new }
{
    match request {
        Ok(Asked::Nothing) => Some(Answer::Reply(FleetReply::Done)),
        Ok(Asked::Help) => Some(Answer::Help),
        Ok(Asked::Quit) => None,
        Ok(Asked::NoCommand) => Some(Answer::Reply(FleetReply::Refused(Refusal::Command))),
        Ok(Asked::TooLong) => {
            Some(Answer::Reply(FleetReply::Refused(Refusal::Limit(Limit::Script))))
        }
        Ok(Asked::Asks(command)) => {
            let reply = served.carry_out(alloc, functions, guard, &command);
            Some(Answer::Reply(reply))
        }
        Err(AllocError) => {
            gathered.clear();
            Some(Answer::Reply(FleetReply::Refused(Refusal::Memory)))
        }
    }
}

// Answers what is asked; false where it ends the run.
fn hear<W: Write, T: Served, F: Functions, G: Guarding>(
    alloc: Global,
    writer: &mut Watched<W>,
    served: &mut T,
    functions: &F,
    guard: &mut G,
    gathered: &mut Gathered,
    request: Result<Asked, AllocError>,
) -> bool
    requires functions { F.is_faithful functions.now }
    requires guard { G.is_faithful guard.old }
    requires ready { IfOk request AsksReady }
    ensures hears { (entry : Entry) (before : List ℕ) → IfOk request (λ it. (it, gathered.old) ≡ asks before entry)
        → Hears W.contents (RanAs T.ran (⟦<F as Speaking>⟧.are_names functions.now) (⟦<F as Speaking>⟧.language functions.now) (⟦<G as Watching>⟧.closures guard.old)) writer.old writer.new (served.old, watch G.rules G.noted G.noting guard.old, before) (served.new, watch G.rules G.noted G.noting guard.new, gathered.new) entry result }
    ensures closures { ⟦<G as Watching>⟧.closures guard.new ≡ ⟦<G as Watching>⟧.closures guard.old }
    ensures noting { G.noting guard.new ≡ G.noting guard.old }
    ensures faithful { G.is_faithful guard.new }
{
    match answer(alloc, served, functions, guard, gathered, request) {
        Some(answered) => {
            print_answer(writer, &answered);
            true
        }
        None => false,
    }
}

// Answers the line.
fn hear_line<W: Write, T: Served, F: Functions, G: Guarding>(
    alloc: Global,
    writer: &mut Watched<W>,
    served: &mut T,
    functions: &F,
    guard: &mut G,
    input: &mut Input,
) -> Next
    requires functions { F.is_faithful functions.now }
    requires guard { G.is_faithful guard.old }
    ensures hears { (bytes : List ℕ) → IsKept input.old.line bytes
        → HearsLine W.contents (RanAs T.ran (⟦<F as Speaking>⟧.are_names functions.now) (⟦<F as Speaking>⟧.language functions.now) (⟦<G as Watching>⟧.closures guard.old)) writer.old writer.new (served.old, watch G.rules G.noted G.noting guard.old, input.old.gathered) (served.new, watch G.rules G.noted G.noting guard.new, input.new.gathered) bytes result }
    ensures line { IsNewLine input.new.line }
    ensures closures { ⟦<G as Watching>⟧.closures guard.new ≡ ⟦<G as Watching>⟧.closures guard.old }
    ensures noting { G.noting guard.new ≡ G.noting guard.old }
    ensures faithful { G.is_faithful guard.new }
{
    let request = input.ask(alloc);
    if !hear(
        alloc,
        writer,
        served,
        functions,
        guard,
        &mut input.gathered,
        request,
    ) {
        return Next::Quits;
    }
    if writer.failed() {
        return Next::Fails;
    }
    Next::Goes
}

// Takes a byte, and at a line feed the line that it ends.
fn take_byte<W: Write, T: Served, F: Functions, G: Guarding>(
    alloc: Global,
    writer: &mut Watched<W>,
    served: &mut T,
    functions: &F,
    guard: &mut G,
    input: &mut Input,
    byte: u8,
) -> Next
    requires functions { F.is_faithful functions.now }
    requires guard { G.is_faithful guard.old }
    ensures takes { Takes W.contents (RanAs T.ran (⟦<F as Speaking>⟧.are_names functions.now) (⟦<F as Speaking>⟧.language functions.now) (⟦<G as Watching>⟧.closures guard.old)) writer.old writer.new (served.old, watch G.rules G.noted G.noting guard.old, input.old.gathered) (served.new, watch G.rules G.noted G.noting guard.new, input.new.gathered) input.old.line input.new.line byte result }
    ensures closures { ⟦<G as Watching>⟧.closures guard.new ≡ ⟦<G as Watching>⟧.closures guard.old }
    ensures noting { G.noting guard.new ≡ G.noting guard.old }
    ensures faithful { G.is_faithful guard.new }
{
    if byte != b'\n' {
        input.line.push(byte);
        return Next::Goes;
    }
    hear_line(alloc, writer, served, functions, guard, input)
}

// Answers what stands behind the last line feed, if anything does.
fn hear_unfinished<W: Write, T: Served, F: Functions, G: Guarding>(
    alloc: Global,
    writer: &mut Watched<W>,
    served: &mut T,
    functions: &F,
    guard: &mut G,
    input: &mut Input,
) -> Next
    requires functions { F.is_faithful functions.now }
    requires guard { G.is_faithful guard.old }
    requires writer { writer.old.1 ≡ false }
    ensures hears { (bytes : List ℕ) → IsKept input.old.line bytes
        → HearsUnfinished W.contents (RanAs T.ran (⟦<F as Speaking>⟧.are_names functions.now) (⟦<F as Speaking>⟧.language functions.now) (⟦<G as Watching>⟧.closures guard.old)) writer.old writer.new (served.old, watch G.rules G.noted G.noting guard.old, input.old.gathered) (served.new, watch G.rules G.noted G.noting guard.new, input.new.gathered) bytes result }
    ensures closures { ⟦<G as Watching>⟧.closures guard.new ≡ ⟦<G as Watching>⟧.closures guard.old }
    ensures noting { G.noting guard.new ≡ G.noting guard.old }
    ensures faithful { G.is_faithful guard.new }
{
    if input.line.is_empty() {
        return Next::Goes;
    }
    hear_line(alloc, writer, served, functions, guard, input)
}

// Answers what stands behind the last line feed, and the end of the input.
fn hear_last<W: Write, T: Served, F: Functions, G: Guarding>(
    alloc: Global,
    writer: &mut Watched<W>,
    served: &mut T,
    functions: &F,
    guard: &mut G,
    input: &mut Input,
) -> Result<End, ServeFault>
    requires functions { F.is_faithful functions.now }
    requires guard { G.is_faithful guard.old }
    requires writer { writer.old.1 ≡ false }
    ensures ends { (bytes : List ℕ) → IsKept input.old.line bytes
        → Ends W.contents (RanAs T.ran (⟦<F as Speaking>⟧.are_names functions.now) (⟦<F as Speaking>⟧.language functions.now) (⟦<G as Watching>⟧.closures guard.old)) writer.old writer.new (served.old, watch G.rules G.noted G.noting guard.old, input.old.gathered) (served.new, watch G.rules G.noted G.noting guard.new, input.new.gathered) bytes result }
    ensures closures { ⟦<G as Watching>⟧.closures guard.new ≡ ⟦<G as Watching>⟧.closures guard.old }
    ensures noting { G.noting guard.new ≡ G.noting guard.old }
    ensures faithful { G.is_faithful guard.new }
{
    match hear_unfinished(alloc, writer, served, functions, guard, input) {
        Next::Goes => {}
        Next::Quits => return Ok(End::Quit),
        Next::Fails => return Err(ServeFault::Write),
    }
    let request = input.gathered.ask_rest(alloc);
    hear(
        alloc,
        writer,
        served,
        functions,
        guard,
        &mut input.gathered,
        request,
    );
    if writer.failed() {
        return Err(ServeFault::Write);
    }
    Ok(End::Input)
}

/// Runs the commands and the SQL of the lines that it reads, up to `.quit` or the end, and prints the replies: over a fleet of
/// replicas, or over a session, which is one replica alone and refuses the commands that want others with `NoReplica`. A line that
/// begins with `.` is a command; the others are SQL, which is run once a line's `;` is its last token, or the input ends. The
/// host gives functions and collations, and an authorizer, a policy, a commit hook and a listener.
///
/// # Errors
/// `Read` where the reader failed or the input reached 16,000,000 bytes; an unfinished line isn't run then, nor SQL that no
/// `;` has ended. `Write` where the writer failed: then a front of the replies was written, not all of them, and nothing was
/// heard after the line, or the end of the input, that they failed at.
pub fn serve<R: Read, W: Write, T: Served, F: Functions, G: Guarding>(
    alloc: Global,
    reader: &mut Watched<R>,
    writer: &mut Watched<W>,
    served: &mut T,
    functions: &F,
    guard: &mut G,
) -> Result<End, ServeFault>
    requires reader { reader.old.1 ≡ false }
    requires writer { writer.old.1 ≡ false }
    requires functions { F.is_faithful functions.now }
    requires guard { G.is_faithful guard.old }
    ensures serves { Serves W.contents (RanAs T.ran (⟦<F as Speaking>⟧.are_names functions.now) (⟦<F as Speaking>⟧.language functions.now) (⟦<G as Watching>⟧.closures guard.old)) R.remaining result reader.old reader.new writer.old writer.new (served.old, watch G.rules G.noted G.noting guard.old) (served.new, watch G.rules G.noted G.noting guard.new) }
    ensures closures { ⟦<G as Watching>⟧.closures guard.new ≡ ⟦<G as Watching>⟧.closures guard.old }
    ensures noting { G.noting guard.new ≡ G.noting guard.old }
    ensures faithful { G.is_faithful guard.new }
{
    let mut input = Input::new(alloc);
    for _ in 0..INPUT_LIMIT {
        let byte = match reader.read_byte() {
            Ok(Some(byte)) => byte,
            Ok(None) => return hear_last(alloc, writer, served, functions, guard, &mut input),
            Err(Failed) => return Err(ServeFault::Read),
        };
        match take_byte(alloc, writer, served, functions, guard, &mut input, byte) {
            Next::Goes => {}
            Next::Quits => return Ok(End::Quit),
            Next::Fails => return Err(ServeFault::Write),
        }
    }
    Err(ServeFault::Read)
}
