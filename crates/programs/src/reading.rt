// Reading what a program is given.
ghost use Rattle.std.specs.Prelude.{◌≡◌, ◌≢◌, codes, IfOk, IfSome, MatchResult, OnOk};
ghost use Rattle.std.specs.Io.KnownBytes.{IsAtEnd};

use std::alloc::Global;
use std::fs::Files;
use std::io::{ErrorKind, Read};
use std::{fs, io};

// All bytes that a source still gives.
fn rest_of<S: Read>(heap: Global, source: &mut S) -> io::Result<Vec<u8>>
    ensures bytes { IfOk result (λ bytes. IfSome (S.remaining source.old) (λ xs. bytes.items ≡ xs)) }
    ensures end { OnOk result (IsAtEnd (S.remaining source.new)) }
{
    let mut bytes = Vec::new(heap);
    source.read_to_end(&mut bytes)?;
    Ok(bytes)
}

// What was read of a path. Where it could not be read, none: a sentence on standard error says why, and that the file with `what` is
// to be named. Want of memory stays an error, since the file may well be there.
fn read_or_none(
    rt: &impl Eprint,
    program: &str,
    path: &str,
    what: &str,
    read: io::Result<Vec<u8>>,
) -> io::Result<Option<Vec<u8>>>
    ensures { MatchResult read (λ bytes. result ≡ Ok (Some bytes)) (λ _. IfOk result (λ o. o ≡ None)) }
{
    match read {
        Ok(bytes) => Ok(Some(bytes)),
        Err(e) if e.kind() == ErrorKind::OutOfMemory => Err(e),
        Err(e) => {
            eprintln!(rt; "{program}: cannot read {path}: {e}. Name the file with {what}.")?;
            Ok(None)
        }
    }
}

// The bytes of what a path names, - for what the input still gives; none where they cannot be read, and that is told. The input is
// not touched for any other path.
pub fn bytes_of<R: Files + AllocGlobal + Eprint, S: Read>(
    rt: &R,
    input: &mut S,
    program: &str,
    path: &str,
    what: &str,
) -> io::Result<Option<Vec<u8>>>
    ensures input { path.now ≡ codes "-" → IfOk result (λ o. IfSome o (λ bytes. IfSome (S.remaining input.old) (λ xs. bytes.items ≡ xs))) }
    ensures untouched { (path.now ≢ codes "-") → input.new ≡ input.old }
{
    let read = if path == "-" {
        rest_of(rt.alloc(), input)
    } else {
        fs::read(rt, path)
    };
    read_or_none(rt, program, path, what, read)
}
