//! Commands and SQL from standard input, replies to standard output: over replicas in memory, or over one in a file.
#![tactic(auto)]

mod host;
mod kept;
mod prompt;

use cr_fleet::fleet::Fleet;
use cr_guard::guard::Guard;
use cr_host::function::{FinishFn, OrderFn, ScalarFn, StepFn};
use cr_host::functions::Functions;
use cr_host::registry::Registry;
use cr_host::samples::{bylen, half, xorall_finish, xorall_step};
use cr_memory::MemoryCells;
use cr_options::options::{Options, read_options};
use cr_options::stop::{Stop, report};
use cr_served::served::Served;
use cr_shell::serving::{End, ServeFault, serve};
use cr_shell::watched::Watched;
use cr_value::value::Value;
use host::{Samples, added};
use kept::session_in;
use prompt::Prompted;
use std::env;
use std::io::{self, BufReader, ErrorKind, IsTerminal, LineWriter};
use std::process::ExitCode;

fn stop_of(end: Result<End, ServeFault>) -> Stop {
    match end {
        Ok(End::Quit) => Stop::Quit,
        Ok(End::Input) => Stop::Input,
        Err(ServeFault::Read) => Stop::Read,
        Err(ServeFault::Write) => Stop::Write,
    }
}

// Serves standard input to standard output, over a fleet or one replica.
fn serve_over<T: Served>(
    rt: &HostRuntime,
    functions: &Registry<Samples>,
    served: &mut T,
) -> io::Result<Stop>
    requires { ⟦<Registry<Samples> as Functions>⟧.is_faithful functions.now }
{
    let alloc = rt.alloc();
    let is_terminal = rt.stdin().is_terminal();
    let lines = Prompted::new(alloc, rt.stdin(), rt.stderr(), is_terminal);
    let mut reader = Watched::new(BufReader::new(alloc, lines)?);
    let mut writer = Watched::new(LineWriter::new(alloc, rt.stdout())?);
    let mut guard = Guard::<Samples>::new(alloc);
    let end = serve(
        alloc,
        &mut reader,
        &mut writer,
        served,
        functions,
        &mut guard,
    );
    Ok(stop_of(end))
}

// Serves what the words of the command line ask for.
fn serve_asked(
    rt: &HostRuntime,
    functions: &Registry<Samples>,
    words: &[String],
) -> io::Result<Stop>
    requires { ⟦<Registry<Samples> as Functions>⟧.is_faithful functions.now }
{
    match read_options(rt.alloc(), words) {
        Ok(Options::Fleet) => {
            let mut fleet = Fleet::<MemoryCells>::new(rt.alloc());
            serve_over(rt, functions, &mut fleet)
        }
        Ok(Options::File(path, site)) => match session_in(rt, path, site) {
            Ok(mut session) => serve_over(rt, functions, &mut session),
            Err(stop) => Ok(stop),
        },
        Err(stop) => Ok(stop),
    }
}

// The words of the command line, the program's name first.
fn words_of(rt: &HostRuntime) -> Result<Vec<String>, Stop> {
    let words = match env::args(rt) {
        Ok(words) => words,
        Err(error) if error.kind() == ErrorKind::InvalidData => return Err(Stop::Usage),
        Err(_) => return Err(Stop::Store),
    };
    let mut all = Vec::new(rt.alloc());
    for word in words {
        if all.push(word).is_err() {
            return Err(Stop::Store);
        }
    }
    Ok(all)
}

// Registers the scalar `half`, the aggregate `xorall` and the collation `bylen`, and serves.
fn run(rt: &HostRuntime, words: &[String]) -> io::Result<Stop> {
    let alloc = rt.alloc();
    let mut functions: Registry<Samples> = Registry::new(alloc);
    let call: ScalarFn = Box::new(alloc, move |args: &[Value]| half(alloc, args))?;
    added(functions.add_scalar("half", 1, 0, call))?;
    let step: StepFn = Box::new(
        alloc,
        move |held: &Value, row: &[Value]| xorall_step(alloc, held, row),
    )?;
    let finish: FinishFn = Box::new(alloc, move |held: &Value| xorall_finish(alloc, held))?;
    added(functions.add_aggregate("xorall", 1, 0, step, finish))?;
    let order: OrderFn = Box::new(alloc, |a: &str, b: &str| bylen(a, b))?;
    added(functions.add_collation("bylen", 0, order))?;
    serve_asked(rt, &functions, words)
}

fn main(rt: HostRuntime) -> ExitCode {
    let stop = match words_of(&rt) {
        // before serving begins, memory alone can be wanting
        Ok(words) => run(&rt, &words).unwrap_or(Stop::Store),
        Err(stop) => stop,
    };
    let (status, text) = report(stop);
    if !text.is_empty() {
        eprintln!(rt; "{text}").ok();
    }
    ExitCode::from(status)
}
