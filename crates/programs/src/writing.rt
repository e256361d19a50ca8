// Writing a file.
ghost use Rattle.std.specs.Prelude.{◌≡◌, length, IfOk, MatchResult, OnOk};
ghost use Rattle.std.specs.Io.KnownBytes.{Appends};

use std::fs::{File, Files, OpenFile, OpenOptions, Permissions};
use std::io::{ErrorKind, Write};
use std::process::Process;
use std::{fs, io, process};

// All the bytes, behind what is there.
fn put_all<W: Write>(to: &mut W, bytes: &[u8]) -> io::Result<usize>
    ensures count { IfOk result (λ n. n ≡ length bytes.now) }
    ensures bytes { OnOk result (Appends (W.contents to.old) (W.contents to.new) bytes.now) }
{
    to.write_all(bytes)?;
    Ok(bytes.len())
}

// A new file gets the bytes, and then the name. It may be read and written by those who may read and write the old one.
fn put_in_place<R: Files>(
    rt: &R,
    mut file: R::File,
    part: &str,
    path: &str,
    old: Option<Permissions>,
    bytes: &[u8],
) -> io::Result<usize>
    ensures { IfOk result (λ n. n ≡ length bytes.now) }
{
    if let Some(permissions) = old {
        file.set_permissions(permissions)?;
    }
    let written = put_all(&mut file, bytes)?;
    file.sync_all()?;
    fs::rename(rt, part, path)?;
    Ok(written)
}

// A new file beside `path` gets the bytes, and then its name. Where that fails, what was at `path` still is. The number of the
// process is in the name of the new file, since two may write the same at once.
fn replace<R: Files + Alloc>(
    rt: &R,
    own: Process,
    path: &str,
    old: Option<Permissions>,
    bytes: &[u8],
) -> io::Result<usize>
    ensures { IfOk result (λ n. n ≡ length bytes.now) }
{
    let part = format!(in rt.alloc(); "{path}.{}.part", process::id(own))?;
    let file = File::create_new(rt, part.as_str())?;
    let written = put_in_place(rt, file, part.as_str(), path, old, bytes);
    if written.is_err() {
        // Of two failures the first is told.
        let _ = fs::remove_file(rt, part.as_str());
    }
    written
}

// What is open is at `path`. A device or a pipe takes the bytes itself; of a link, the file that it names is replaced.
fn write_over<R: Files + Alloc>(
    rt: &R,
    own: Process,
    mut open: R::File,
    path: &str,
    bytes: &[u8],
) -> io::Result<usize>
    ensures { IfOk result (λ n. n ≡ length bytes.now) }
{
    let is = open.metadata()?;
    if !is.is_file() {
        return put_all(&mut open, bytes);
    }
    let named = fs::canonicalize(rt, path)?;
    replace(rt, own, named.as_str(), Some(is.permissions()), bytes)
}

// Writes a file, and answers how many bytes it has then. An existing one is replaced by the whole new one, or stays as it was.
pub fn write_file<R: Files + Alloc>(
    rt: &R,
    own: Process,
    path: &str,
    bytes: &[u8],
) -> io::Result<usize>
    ensures { IfOk result (λ n. n ≡ length bytes.now) }
{
    match OpenOptions::new().write(true).open(rt, path) {
        Ok(open) => write_over(rt, own, open, path, bytes),
        Err(e) if e.kind() == ErrorKind::NotFound => replace(rt, own, path, None, bytes),
        Err(e) => Err(e),
    }
}

// How many bytes were written at a path. Where they could not be, none: a sentence on standard error says why.
pub fn written_or_none(
    rt: &impl Eprint,
    program: &str,
    path: &str,
    written: io::Result<usize>,
) -> io::Result<Option<usize>>
    ensures { MatchResult written (λ many. result ≡ Ok (Some many)) (λ _. IfOk result (λ o. o ≡ None)) }
{
    match written {
        Ok(many) => Ok(Some(many)),
        Err(e) => {
            eprintln!(rt;
                "{program}: cannot write {path}: {e}. Name a file in a folder that can be written to."
            )?;
            Ok(None)
        }
    }
}
