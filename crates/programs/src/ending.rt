// How a program ends.
ghost use Rattle.std.specs.Prelude.{◌≡◌, IfOk, MatchResult};
ghost use Rattle.std.specs.Process.{exit_status};

use meetings::Refusal;
use std::fmt::Display;
use std::io::{self, ErrorKind, Write};
use std::process::ExitCode;

// What went wrong outside: a sentence on standard error.
pub fn failed<D: Display + Drop>(
    rt: &impl Eprint,
    program: &str,
    sentence: D,
) -> io::Result<ExitCode>
    ensures { IfOk result (λ e. exit_status e ≡ 1) }
{
    eprintln!(rt; "{program}: {sentence}")?;
    Ok(ExitCode::FAILURE)
}

// A refusal is the answer: one line on standard output.
pub fn refused(rt: &impl Print, refusal: Refusal) -> io::Result<ExitCode>
    ensures { IfOk result (λ e. exit_status e ≡ 1) }
{
    println!(rt; "{refusal}")?;
    Ok(ExitCode::FAILURE)
}

// An answer is printed as it is, or its refusal. It is written at once, since `print!` writes a thousand bytes at a time.
pub fn answered(rt: &impl Print, answer: Result<String, Refusal>) -> io::Result<ExitCode>
    ensures { IfOk result (λ e. MatchResult answer (λ _. exit_status e ≡ 0) (λ _. exit_status e ≡ 1)) }
{
    match answer {
        Ok(text) => {
            io::writer(rt).write_all(text.as_bytes())?;
            Ok(ExitCode::SUCCESS)
        }
        Err(refusal) => refused(rt, refusal),
    }
}

// Want of memory is a refusal, and whatever else went wrong outside a sentence on standard error.
fn tell(rt: &(impl Print + Eprint), program: &str, e: io::Error) -> io::Result<()> {
    if e.kind() == ErrorKind::OutOfMemory {
        println!(rt; "{}", Refusal::Memory)
    } else {
        eprintln!(rt; "{program}: {e}")
    }
}

// The status of a program that came to this end. What went wrong is told, as far as that can be written.
pub fn ended(rt: &(impl Print + Eprint), program: &str, end: io::Result<ExitCode>) -> ExitCode
    ensures { MatchResult end (λ e. result ≡ e) (λ _. exit_status result ≡ 1) }
{
    match end {
        Ok(status) => status,
        Err(e) => {
            let _ = tell(rt, program, e);
            ExitCode::FAILURE
        }
    }
}
