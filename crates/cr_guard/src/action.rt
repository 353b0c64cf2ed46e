//! The numbers of actions and of answers, and which of two answers is the stricter.

ghost use Rattle.std.specs.Prelude.{◌≡◌};
ghost use Rattle.cr_guard.specs.Answers.{action_code, auth_code, stricter};

pub use cr_host::meaning::{Action, Auth};

/// The number of an action. "Authorizer Action Codes" of SQLite's C interface.
pub fn action_code(action: Action) -> u8
    ensures { result ≡ action_code action }
{
    match action {
        Action::CreateTable => 2,
        Action::Delete => 9,
        Action::Insert => 18,
        Action::Read => 20,
        Action::Select => 21,
        Action::Transaction => 22,
        Action::Update => 23,
        Action::AlterTable => 26,
        Action::Function => 31,
    }
}

/// The number of an answer. "Authorizer Return Codes" of SQLite's C interface.
pub fn auth_code(auth: Auth) -> u8
    ensures { result ≡ auth_code auth }
{
    match auth {
        Auth::Ok => 0,
        Auth::Deny => 1,
        Auth::Ignore => 2,
    }
}

/// The stricter of two answers: a denial, else an IGNORE, else OK. This project's own.
pub fn stricter(a: Auth, b: Auth) -> Auth
    ensures { result ≡ stricter a b }
{
    match (a, b) {
        (Auth::Deny, _) | (_, Auth::Deny) => Auth::Deny,
        (Auth::Ignore, _) | (_, Auth::Ignore) => Auth::Ignore,
        (Auth::Ok, Auth::Ok) => Auth::Ok,
    }
}
