//! What a line asks, and the SQL that is gathered.

ghost use Rattle.std.specs.Prelude.{◌≡◌, ◌==◌, [], IfOk};
ghost use Rattle.std.specs.Io.BufRead.{strip_last};
ghost use Rattle.cr_language.specs.Texts.{tokens_of};
ghost use Rattle.cr_shell.specs.Asking.{has_token, ends_in_semicolon, has_semicolon, begins_with_dot, asks_command, is_command, is_too_long, gathered_with, asks_sql, asked, asked_at_end, AsksReady};

use crate::line::command_of;
use cr_lex::scan::{SCRIPT_LIMIT, tokens};
use cr_lex::token::Token;
use cr_statement::sql::is_semicolon;
use cr_value::text::Text;
use cr_world::command::Command;
use std::alloc::{AllocError, Global};
use std::marker::Model;
use std::mem;

/// What a line asks, or the end of the input.
#[derive(Debug, Drop)]
pub enum Asked {
    /// Nothing yet: SQL that no `;` has ended, or none.
    Nothing,
    /// What the commands are.
    Help,
    /// The end of the run.
    Quit,
    /// It is no command, or isn't UTF-8.
    NoCommand,
    /// With it the SQL would be over 1,000,000 bytes.
    TooLong,
    /// This command.
    Asks(Command),
}

fn without_return(line: &[u8]) -> &[u8]
    ensures { result.now ≡ strip_last 13 line.now }
{
    match line {
        [text @ .., b'\r'] => text,
        _ => line,
    }
}

fn begins_with_dot(line: &[u8]) -> bool
    ensures { result ≡ begins_with_dot line.now }
{
    match line {
        [first, ..] => *first == b'.',
        [] => false,
    }
}

fn has_semicolon(line: &str) -> bool
    ensures { result ≡ has_semicolon line.now }
{
    line.as_bytes().iter().any(|c| *c == b';')
}

// A text that is gathered is never over the limit, so what has no tokens has none for want of memory.
fn tokens_of(alloc: Global, text: &str) -> Result<Vec<Token>, AllocError>
    ensures { IfOk result (λ found. found.items ≡ tokens_of text.now) }
{
    match tokens(alloc, text) {
        Ok(found) => Ok(found),
        Err(_) => Err(AllocError),
    }
}

fn ends_in_semicolon(alloc: Global, text: &str) -> Result<bool, AllocError>
    ensures { IfOk result (λ b. b ≡ ends_in_semicolon text.now) }
{
    let found = tokens_of(alloc, text)?;
    match found.last() {
        Some(token) => Ok(is_semicolon(text.as_bytes(), token)),
        None => Ok(false),
    }
}

// What a line that begins with `.` asks.
#[tactic(auto, using(cr_value::proofs::Texts::utf8_tests), unfolding(crate::specs::Asking::asks_command))]
fn ask_command(alloc: Global, text: &str) -> Result<Asked, AllocError>
    ensures value { IfOk result (λ it. it ≡ asks_command text.now) }
    ensures ready { IfOk result AsksReady }
{
    if text == ".quit" {
        return Ok(Asked::Quit);
    }
    if text == ".help" {
        return Ok(Asked::Help);
    }
    match command_of(alloc, text)? {
        Some(command) => Ok(Asked::Asks(command)),
        None => Ok(Asked::NoCommand),
    }
}

/// Lines that aren't commands, each with a line feed, up to the `;` that ends them as SQL.
#[derive(Debug, Drop)]
pub struct Gathered {
    text: String,
}

impl Model for Gathered {
    ghost use Rattle.std.specs.Prelude.{ℕ, List};
    ghost use Rattle.std.specs.String.{string_bytes};

    ghost Value = { List ℕ };

    ghost view = { λ g. string_bytes g.text };
}

impl Gathered {
    ghost use Rattle.std.specs.Prelude.{OnOk};

    /// Nothing is gathered.
    pub fn new(alloc: Global) -> Gathered
        ensures { result ≡ [] }
    {
        Gathered {
            text: String::new(alloc),
        }
    }

    /// What is gathered is dropped.
    pub fn clear(&mut self)
        ensures { self.new ≡ [] }
    {
        self.text.clear();
    }

    fn take(&mut self, alloc: Global) -> Text
        ensures taken { result ≡ self.old }
        ensures left { self.new ≡ [] }
    {
        Text::new(mem::replace(&mut self.text, String::new(alloc)))
    }

    /// Whether what is gathered has a token.
    ///
    /// # Errors
    /// Where there is no memory for its tokens.
    pub fn has_token(&self, alloc: Global) -> Result<bool, AllocError>
        ensures { IfOk result (λ b. b ≡ has_token self.now) }
    {
        let found = tokens_of(alloc, self.text.as_str())?;
        Ok(!found.is_empty())
    }

    // Whether with the line it would be over the limit.
    fn is_too_long(&self, line: &[u8]) -> bool
        ensures { result ≡ is_too_long self.now line.now }
    {
        self.text.len() + line.len() + 1 > SCRIPT_LIMIT
    }

    fn add(&mut self, line: &str) -> Result<(), AllocError>
        ensures { OnOk result (self.new ≡ gathered_with self.old line.now) }
    {
        self.text.push_str(line)?;
        self.text.push_str("\n")
    }

    // What a line asks that is no command.
    fn ask_sql(&mut self, alloc: Global, line: &str) -> Result<Asked, AllocError>
        ensures value { IfOk result (λ it. (it, self.new) ≡ asks_sql self.old line.now) }
        ensures ready { IfOk result AsksReady }
    {
        self.add(line)?;
        if has_semicolon(line) && ends_in_semicolon(alloc, self.text.as_str())? {
            return Ok(Asked::Asks(Command::Sql(self.take(alloc))));
        }
        Ok(Asked::Nothing)
    }

    // Whether a line, which need not be UTF-8, is a command.
    fn is_command(&self, alloc: Global, line: &[u8]) -> Result<bool, AllocError>
        ensures { IfOk result (λ b. b ≡ is_command self.now line.now) }
    {
        if !begins_with_dot(line) {
            return Ok(false);
        }
        Ok(!self.has_token(alloc)?)
    }

    /// What a line asks, without the line feed that ends it and a carriage return before that: a command, if it begins with `.`
    /// and what is gathered has no token; else it is gathered, and if its `;` is the last token then, all that is gathered is to
    /// be run. What is gathered is dropped where the line would make it too long, or isn't UTF-8.
    ///
    /// # Errors
    /// Where there is no memory for it; nothing is said of what is gathered then.
    #[tactic(auto, using(cr_value::proofs::Texts::utf8_tests), unfolding(crate::specs::Asking::asked))]
    pub fn ask(&mut self, alloc: Global, line: &[u8]) -> Result<Asked, AllocError>
        ensures value { IfOk result (λ it. (it, self.new) ≡ asked self.old line.now) }
        ensures ready { IfOk result AsksReady }
    {
        let line = without_return(line);
        let is_command = self.is_command(alloc, line)?;
        if !is_command && self.is_too_long(line) {
            self.clear();
            return Ok(Asked::TooLong);
        }
        let Ok(text) = str::from_utf8(line) else {
            self.clear();
            return Ok(Asked::NoCommand);
        };
        if is_command {
            return ask_command(alloc, text);
        }
        self.ask_sql(alloc, text)
    }

    /// What the end of the input asks: to run what is gathered, if that has a token.
    ///
    /// # Errors
    /// Where there is no memory for its tokens.
    pub fn ask_rest(&mut self, alloc: Global) -> Result<Asked, AllocError>
        ensures value { IfOk result (λ it. (it, self.new) ≡ asked_at_end self.old) }
        ensures ready { IfOk result AsksReady }
    {
        if self.has_token(alloc)? {
            return Ok(Asked::Asks(Command::Sql(self.take(alloc))));
        }
        Ok(Asked::Nothing)
    }
}
