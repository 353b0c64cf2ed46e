//! Refusals as bytes, in pieces that take no memory.

ghost use Rattle.std.specs.Prelude.{◌≡◌, ◌∷◌, ◌++◌, codes, decimal};
ghost use Rattle.cr_value.specs.Literal.{text_literal};
ghost use Rattle.cr_shell.specs.Printing.{Prints};
ghost use Rattle.cr_shell.specs.Refusing.{outside_word, limit_word, reason_word, denied, eval_fault, details, refusal_head, refusal_line};

use crate::literals::print_text;
use crate::watched::Watched;
use cr_guard::action::{Action, action_code};
use cr_lattice::check::BadChange;
use cr_world::refusal::{EvalFault, Limit, OutOfProfile, Refusal};
use itoa::Buffer;
use std::io::Write;

fn outside_word(what: &OutOfProfile) -> &str
    ensures { result.now ≡ outside_word what.now }
{
    match what {
        OutOfProfile::Word(word) => word.as_str(),
        OutOfProfile::Real => "REAL",
        OutOfProfile::PrimaryKey => "PRIMARY KEY",
        OutOfProfile::Collate => "COLLATE",
        OutOfProfile::RowCid => "-1",
        OutOfProfile::Default => "DEFAULT",
        OutOfProfile::Distinct => "DISTINCT",
    }
}

fn limit_word(which: Limit) -> &'static str
    ensures { result.now ≡ limit_word which }
{
    match which {
        Limit::Script => "Script",
        Limit::Depth => "Depth",
        Limit::Columns => "Columns",
        Limit::KeyColumns => "KeyColumns",
        Limit::Tables => "Tables",
        Limit::Arguments => "Arguments",
        Limit::Replicas => "Replicas",
    }
}

fn reason_word(reason: BadChange) -> &'static str
    ensures { result.now ≡ reason_word reason }
{
    match reason {
        BadChange::Shape => "Shape",
        BadChange::Size => "Size",
        BadChange::Table => "Table",
        BadChange::Key => "Key",
        BadChange::Cid => "Cid",
        BadChange::Length => "Length",
    }
}

fn print_word<W: Write>(writer: &mut Watched<W>, word: &str)
    ensures { Prints W.contents writer.old writer.new (32 ∷ word.now) }
{
    writer.write_all(b" ");
    writer.write_text(word);
}

fn print_name<W: Write>(writer: &mut Watched<W>, name: &str)
    ensures { Prints W.contents writer.old writer.new (32 ∷ text_literal name.now) }
{
    writer.write_all(b" ");
    print_text(writer, name);
}

fn print_place<W: Write>(writer: &mut Watched<W>, at: usize)
    ensures { Prints W.contents writer.old writer.new (32 ∷ decimal at) }
{
    let mut buffer = Buffer::new();
    print_word(writer, buffer.format(at));
}

fn print_no_default<W: Write>(writer: &mut Watched<W>, name: &str)
    ensures { Prints W.contents writer.old writer.new (codes " NoDefault" ++ 32 ∷ text_literal name.now) }
{
    writer.write_all(b" NoDefault");
    print_name(writer, name);
}

fn print_not_yet<W: Write>(writer: &mut Watched<W>, name: &str)
    ensures { Prints W.contents writer.old writer.new (codes " NotYet" ++ 32 ∷ text_literal name.now) }
{
    writer.write_all(b" NotYet");
    print_name(writer, name);
}

fn print_denied<W: Write>(writer: &mut Watched<W>, action: Action, a: &str, b: &str)
    ensures { Prints W.contents writer.old writer.new (denied action a.now b.now) }
{
    let mut buffer = Buffer::new();
    print_word(writer, buffer.format(action_code(action)));
    print_name(writer, a);
    print_name(writer, b);
}

fn print_host_fault<W: Write>(writer: &mut Watched<W>, text: &str)
    ensures { Prints W.contents writer.old writer.new (codes " Host" ++ 32 ∷ text_literal text.now) }
{
    writer.write_all(b" Host");
    print_name(writer, text);
}

fn print_eval_fault<W: Write>(writer: &mut Watched<W>, fault: &EvalFault)
    ensures { Prints W.contents writer.old writer.new (eval_fault fault.now) }
{
    match fault {
        EvalFault::Overflow => writer.write_all(b" Overflow"),
        EvalFault::NotANumber => writer.write_all(b" NotANumber"),
        EvalFault::NotUtf8 => writer.write_all(b" NotUtf8"),
        EvalFault::Host(text) => print_host_fault(writer, text.as_str()),
    }
}

fn print_details<W: Write>(writer: &mut Watched<W>, refusal: &Refusal)
    ensures { Prints W.contents writer.old writer.new (details refusal.now) }
{
    match refusal {
        Refusal::Syntax(at) => print_place(writer, *at),
        Refusal::OutOfProfile(what) => print_word(writer, outside_word(what)),
        Refusal::Limit(which) => print_word(writer, limit_word(*which)),
        Refusal::BadChange(reason) => print_word(writer, reason_word(*reason)),
        Refusal::NoDefault(name) => print_no_default(writer, name.as_str()),
        Refusal::NotYet(name) => print_not_yet(writer, name.as_str()),
        Refusal::Denied(action, a, b) => print_denied(writer, *action, a.as_str(), b.as_str()),
        Refusal::Eval(fault) => print_eval_fault(writer, fault),
        Refusal::NoSuchTable(name)
        | Refusal::NoSuchColumn(name)
        | Refusal::AmbiguousColumn(name)
        | Refusal::NoSuchFunction(name)
        | Refusal::WrongArity(name)
        | Refusal::NoSuchCollation(name)
        | Refusal::TableExists(name)
        | Refusal::ReadOnly(name)
        | Refusal::BadName(name) => print_name(writer, name.as_str()),
        Refusal::Misaggregate
        | Refusal::PrimaryKey
        | Refusal::NotNull
        | Refusal::TooBig
        | Refusal::VersionLimit
        | Refusal::Veto
        | Refusal::TransactionState
        | Refusal::Parameters
        | Refusal::Store(_)
        | Refusal::Memory
        | Refusal::NoReplica
        | Refusal::SameSite
        | Refusal::Command => {}
    }
}

fn print_head<W: Write>(writer: &mut Watched<W>, refusal: &Refusal)
    ensures { Prints W.contents writer.old writer.new (refusal_head refusal.now) }
{
    let mut buffer = Buffer::new();
    writer.write_all(b"error ");
    writer.write_text(buffer.format(refusal.code()));
    print_word(writer, refusal.name());
}

/// Prints `error`, the code, the name and the details of a refusal, as a line.
pub(crate) fn print_refusal<W: Write>(writer: &mut Watched<W>, refusal: &Refusal)
    ensures { Prints W.contents writer.old writer.new (refusal_line refusal.now) }
{
    print_head(writer, refusal);
    print_details(writer, refusal);
    writer.write_all(b"\n");
}
