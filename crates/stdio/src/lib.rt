// Standard input and output: short writes, signals and waits are carried on with, and what failed is said in one line on standard error.
// No contract can say what standard input gave or what standard output took. `put_to` and `get_from` do the work on any writer and any reader, and say it of
// those whose bytes are known.
#![tactic(auto)]

#[cfg(test)]
mod tests;

ghost use Rattle.std.specs.Prelude.{◌≡◌, ℕ, ◌≤◌, length, take, pos, unwrap_or, is_ok, IsOk, IfOk, OnOk, IsOkUnless};
ghost use Rattle.std.specs.IoError.{raw_os_error};
ghost use Rattle.std.specs.Io.KnownBytes.{Keeps, Appends, WriteAppends, ReadConsumes};
ghost use Rattle.stdio.specs.Counts.{IsPrefixLen};
ghost use Rattle.stdio.specs.Errors.{is_passing};

use std::fs::OpenFile;
use std::io::{Error, ErrorKind, Read, Write};
use std::os::fd::AsFd;
use std::rt::{Clock, Files};
use std::time::Duration;
use std::{fs, io, thread};

// Linux's numbers of two errors: a signal came, and the call would have had to wait. What is promised of them (`is_passing`) is of the numbers.
const EINTR: i32 = 4;

const EAGAIN: i32 = 11;

// Whether a call that failed so is to be made again: a signal came, or it would have had to wait.
fn again(error: i32) -> bool
    ensures { result ≡ is_passing error }
{
    matches!(error, EINTR | EAGAIN)
}

// Standard input or output failed, and standard error was told.
#[derive(Clone, Copy, Debug, PartialEq, Eq)]
pub struct Failed;

// Waits a millisecond.
fn pause(rt: &impl Clock) {
    thread::sleep(rt, Duration::from_millis(1))
}

// Says in one line what failed, as the caller names it, and the error's text without the number that `Display` puts behind it.
fn fail(rt: &impl Eprint, what: &str, error: Error) {
    let mut room = [0u8; 320];
    let mut rest: &mut [u8] = &mut room;
    let _ = write!(rest, "{error}");
    let n = 320usize.saturating_sub(rest.len());
    let said = str::from_utf8(&room[..n]).unwrap_or("");
    let text = said
        .split_once(" (os error ")
        .map_or(said, |(text, _)| text);
    let _ = eprintln!(rt; "{what}: {text}");
}

// After a call that failed: fine where it is to be made again, after a pause where it would have had to wait. Else says what failed.
fn recover(rt: &(impl Eprint + Clock), what: &str, error: Error) -> Result<(), Failed>
    ensures { is_ok result ≡ is_passing (unwrap_or (raw_os_error error) (pos 0)) }
{
    let number = error.raw_os_error().unwrap_or(0);
    if !again(number) {
        fail(rt, what, error);
        return Err(Failed);
    }
    if number == EAGAIN {
        pause(rt);
    }
    Ok(())
}

// One write of what is left: how many bytes it took. A write that takes none of it has no error.
fn put_some<W: Write>(rt: &(impl Eprint + Clock), out: &mut W, rest: &[u8]) -> Result<usize, Failed>
    ensures prefix_len { IfOk result (λ n. IsPrefixLen n rest.now) }
    ensures bytes { WriteAppends (W.contents out.old) (W.contents out.new) result rest.now }
{
    match out.write(rest) {
        Ok(0) => {
            let _ = eprintln!(rt; "book: standard output: takes no bytes");
            Err(Failed)
        }
        Ok(n) => Ok(n),
        Err(error) => {
            recover(rt, "book: standard output", error)?;
            Ok(0)
        }
    }
}

// Writes all of bytes to a writer. Where that fails says so.
pub fn put_to<W: Write>(rt: &(impl Eprint + Clock), out: &mut W, bytes: &[u8]) -> Result<(), Failed>
    ensures empty { length bytes.now ≡ 0 → IsOk result }
    ensures whole { OnOk result (Appends (W.contents out.old) (W.contents out.new) bytes.now) }
    ensures part { (k : ℕ) × (k ≤ length bytes.now) × Appends (W.contents out.old) (W.contents out.new) (take k bytes.now) }
{
    let mut rest = bytes;
    // Counted, for nothing says that a writer takes all at some time.
    for _ in 0..u64::MAX {
        if rest.is_empty() {
            return Ok(());
        }
        let n = put_some(rt, out, rest)?;
        rest = &rest[n..];
    }
    Err(Failed)
}

// Writes all of bytes to standard output. Where that fails says so.
pub fn put(rt: &(impl Print + Eprint + Clock), bytes: &[u8]) -> Result<(), Failed>
    ensures { length bytes.now ≡ 0 → IsOk result }
{
    put_to(rt, &mut io::writer(rt), bytes)
}

// One read of a reader: how many bytes it put to the front of a buffer, none at the end of the input. Where it fails says so.
pub fn get_from<R: Read>(
    rt: &(impl Eprint + Clock),
    input: &mut R,
    buf: &mut [u8],
) -> Result<usize, Failed>
    ensures prefix_len { IfOk result (λ n. IsPrefixLen n buf.new) }
    ensures bytes { ReadConsumes (R.remaining input.old) (R.remaining input.new) result buf.new }
{
    for _ in 0..u64::MAX {
        match input.read(buf) {
            Ok(n) => return Ok(n),
            Err(error) => recover(rt, "book: standard input", error)?,
        }
    }
    Err(Failed)
}

// One read of standard input. Where it fails says so.
pub fn get(rt: &(impl Input + Eprint + Clock), buf: &mut [u8]) -> Result<usize, Failed>
    ensures { IfOk result (λ n. IsPrefixLen n buf.new) }
{
    get_from(rt, &mut rt.reader(), buf)
}

// An error unless standard output is open and, where it is a file that can be opened again, the disk has what was written to it.
fn settle(rt: &impl Files, out: &impl AsFd) -> io::Result<()> {
    let _copy = out.as_fd().try_clone_to_owned()?;
    if is_file(rt) {
        match fs::open(rt, "/dev/stdout") {
            Ok(file) => synced(&file),
            Err(_) => Ok(()),
        }
    } else {
        Ok(())
    }
}

// A file that is not of a disk has no sync, says so and has lost nothing.
fn synced(file: &impl OpenFile) -> io::Result<()> {
    match file.sync_all() {
        Err(error) => match error.kind() {
            ErrorKind::InvalidInput | ErrorKind::Unsupported => Ok(()),
            _ => Err(error),
        },
        Ok(()) => Ok(()),
    }
}

// Whether standard output is a file, and no pipe or device.
fn is_file(rt: &impl Files) -> bool {
    fs::metadata(rt, "/dev/stdout").is_ok_and(|about| about.is_file())
}

// Ends standard output, for some errors show only there. Where that fails says so.
pub fn close(rt: &(impl Files + Eprint), out: &impl AsFd) -> Result<(), Failed>
    ensures { IsOkUnless result (record {}) }
{
    settle(rt, out).map_err(|error| {
        fail(rt, "book: standard output", error);
        Failed
    })
}
