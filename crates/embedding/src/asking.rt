//! What the host's authorizer is asked.

use cr_host::meaning::Action;
use cr_value::text::Text;
use std::alloc::{AllocError, Global};
use std::cell::RefCell;
use std::io::{self, Write};

// What is to be done, and the two texts that say to what.
#[derive(Drop)]
struct Question {
    action: Action,
    a: Text,
    b: Text,
}

impl Question {
    fn is_about(&self, action: Action, a: &str, b: &str) -> bool {
        self.action == action && self.a.as_str() == a && self.b.as_str() == b
    }
}

/// The questions of a statement, each once, in the order in which they first came.
#[derive(Drop)]
pub struct Questions {
    alloc: Global,
    list: Vec<Question>,
}

impl Questions {
    /// No questions.
    pub fn new(alloc: Global) -> Questions {
        Questions {
            alloc,
            list: Vec::new(alloc),
        }
    }

    fn note(&mut self, action: Action, a: &str, b: &str) -> Result<(), AllocError> {
        if self.list.iter().any(|noted| noted.is_about(action, a, b)) {
            return Ok(());
        }
        let question = Question {
            action,
            a: Text::from_str(self.alloc, a)?,
            b: Text::from_str(self.alloc, b)?,
        };
        self.list.push(question)?;
        Ok(())
    }
}

/// Notes a question. One that can't be noted for want of memory is left out: an authorizer always answers.
pub fn note(questions: &RefCell<Questions>, action: Action, a: &str, b: &str) {
    if let Ok(mut questions) = questions.try_borrow_mut() {
        let _ = questions.note(action, a, b);
    }
}

// The name of an action. "Authorizer Action Codes" of SQLite's C interface.
fn action_name(action: Action) -> &'static str {
    match action {
        Action::CreateTable => "CREATE_TABLE",
        Action::Delete => "DELETE",
        Action::Insert => "INSERT",
        Action::Read => "READ",
        Action::Select => "SELECT",
        Action::Transaction => "TRANSACTION",
        Action::Update => "UPDATE",
        Action::AlterTable => "ALTER_TABLE",
        Action::Function => "FUNCTION",
    }
}

// A text, or a dash where it is empty.
fn or_dash(text: &str) -> &str {
    if text.is_empty() { "-" } else { text }
}

/// Prints the questions, one a line.
pub fn print_asked<W: Write>(questions: &RefCell<Questions>, out: &mut W) -> io::Result<()> {
    let Ok(questions) = questions.try_borrow() else {
        return Ok(());
    };
    for question in &questions.list {
        writeln!(
            out,
            "asked {} {} {}",
            action_name(question.action),
            or_dash(question.a.as_str()),
            or_dash(question.b.as_str())
        )?;
    }
    Ok(())
}
