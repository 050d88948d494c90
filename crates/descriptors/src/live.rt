// What a program has open: standard input and output, and the files that it opened, each by its descriptor.
ghost use Rattle.std.specs.Prelude.{◌≡◌, ◌≤◌, ◌^◌, ◌<ℤ◌, ◌≤ℤ◌, pos, IfSome, IsSome, IsOk, IsErr, OnOk, OnErr};
ghost use Rattle.std.specs.List.{All};
ghost use Rattle.std.specs.IoError.{raw_os_error};
ghost use Rattle.std.specs.Fd.{file_raw_fd};
ghost use Rattle.descriptors.specs.Answered.{AnsweredAs};

use crate::Failed;
use std::cell::Cell;
use std::fs::{File, OpenOptions};
use std::io::{Error, Read, Stdin, Stdout, Write};
use std::os::fd::AsRawFd;
use std::str;

// What the system says of a descriptor that is not open, of a number or a name that it does not take, and of too many open files.
const NOT_OPEN: i32 = 9;

const NOT_TAKEN: i32 = 22;

const TOO_MANY: i32 = 24;

// Standard input and standard output.
#[derive(Clone, Copy)]
struct Standard {
    input: Stdin,
    output: Stdout,
}

// At most so many files are open at a time.
const MOST_OPEN: usize = 3;

// What is open. The number of the last error is kept, so that it can be told.
#[derive(Drop)]
pub struct Live {
    standard: Option<Standard>,
    files: [Option<File>; MOST_OPEN],
    error: Cell<i32>,
}

fn code_of(error: Error) -> i32
    ensures { IfSome (raw_os_error error) (λ code. result ≡ code) }
{
    error.raw_os_error().unwrap_or(NOT_TAKEN)
}

fn not_open<T>() -> Result<T, Error>
    ensures { IsErr result }
{
    Err(Error::from_raw_os_error(NOT_OPEN))
}

// The file of a slot, if it is that of a descriptor.
fn found(slot: &Option<File>, fd: i32) -> Option<&File>
    ensures { IfSome result (λ f. file_raw_fd f.now ≡ fd) }
{
    slot.as_ref().filter(|file| file.as_raw_fd() == fd)
}

// Opens the file that a path names, which is UTF-8 text.
fn open_by(rt: &HostRuntime, path: &[u8], how: &OpenOptions) -> Result<File, Error> {
    match str::from_utf8(path) {
        Ok(name) => how.open(rt, name),
        Err(_) => Err(Error::from_raw_os_error(NOT_TAKEN)),
    }
}

impl Live {
    fn with(standard: Option<Standard>) -> Live {
        Live {
            standard,
            files: [None, None, None],
            error: Cell::new(0),
        }
    }

    // Nothing is open.
    pub fn none() -> Live {
        Live::with(None)
    }

    // Standard input and output are open.
    pub fn standard(rt: &HostRuntime) -> Live {
        Live::with(Some(Standard {
            input: rt.stdin(),
            output: rt.stdout(),
        }))
    }

    // The number of the error that the last call left that failed.
    pub fn last_error(&self) -> i32 {
        self.error.get()
    }

    // ---- bytes

    // The file of a descriptor, if there is one.
    fn file(&self, fd: i32) -> Option<&File>
        ensures { IfSome result (λ f. file_raw_fd f.now ≡ fd) }
    {
        self.files.iter().find_map(|slot| found(slot, fd))
    }

    // Standard input and output, where they are open and the descriptor is the one that is asked for.
    fn standard_at(&self, fd: i32, asked: i32) -> Result<Standard, Error> {
        match self.standard {
            Some(open) if fd == asked => Ok(open),
            _ => not_open(),
        }
    }

    // A file that was opened may have the number of a standard stream that was closed.
    fn read_any(&self, fd: i32, buf: &mut [u8]) -> Result<usize, Error> {
        match self.file(fd) {
            Some(mut file) => file.read(buf),
            None => self.standard_at(fd, crate::INPUT)?.input.read(buf),
        }
    }

    fn write_any(&self, fd: i32, bytes: &[u8]) -> Result<usize, Error> {
        match self.file(fd) {
            Some(mut file) => file.write(bytes),
            None => self.standard_at(fd, crate::OUTPUT)?.output.write(bytes),
        }
    }

    // Keeps the number of the error of a call that failed.
    fn kept(&self, error: Error) -> i32
        ensures { IfSome (raw_os_error error) (λ code. result ≡ code) }
    {
        let code = code_of(error);
        self.error.set(code);
        code
    }

    // What a call answered; the error of one that failed is kept, and it is never none moved, which would be the end.
    fn counted(&self, moved: Result<usize, Error>) -> Result<usize, i32>
        ensures { AnsweredAs moved result }
    {
        moved.map_err(|error| self.kept(error))
    }

    // Reads once.
    pub(crate) fn read(&self, fd: i32, buf: &mut [u8]) -> Result<usize, i32> {
        self.counted(self.read_any(fd, buf))
    }

    // Writes once.
    pub(crate) fn write(&self, fd: i32, bytes: &[u8]) -> Result<usize, i32> {
        self.counted(self.write_any(fd, bytes))
    }

    // ---- files

    // Keeps the error of a call on a file that failed.
    fn failed(&self, error: Error) -> Failed {
        self.kept(error);
        Failed
    }

    // Whether a file has done what it was asked.
    fn status(&self, done: Result<(), Error>) -> Result<(), Failed>
        ensures done { OnOk done (IsOk result) }
        ensures failed { OnErr done (IsErr result) }
    {
        done.map_err(|error| self.failed(error))
    }

    // Waits until all that was handed to a file has reached the disk.
    pub fn settle(&self, fd: i32) -> Result<(), Failed> {
        self.status(match self.file(fd) {
            Some(file) => file.sync_data(),
            None => not_open(),
        })
    }

    fn shorten(&self, fd: i32, count: u64) -> Result<(), Error>
        ensures { 2 ^ 63 ≤ count → IsErr result }
    {
        match self.file(fd) {
            Some(file) => file.set_len(count),
            None => not_open(),
        }
    }

    // Cuts a file to its first bytes, as many as a whole number says; it fails where that is negative, or more than the C library takes.
    pub fn cut(&self, fd: i32, length: i128) -> Result<(), Failed>
        ensures negative { length <ℤ pos 0 → IsErr result }
        ensures long { pos (2 ^ 63) ≤ℤ length → IsErr result }
    {
        match u64::try_from(length) {
            Ok(count) => self.status(self.shorten(fd, count)),
            Err(_) => Err(self.failed(Error::from_raw_os_error(NOT_TAKEN))),
        }
    }

    // Takes in a file that was opened. Answers its descriptor.
    fn take_in(&mut self, opened: Result<File, Error>) -> Result<i32, Failed>
        ensures unopened { OnErr opened (IsErr result) }
        ensures full { All (λ slot. IsSome slot) self.old.files → IsErr result }
    {
        let file = opened.map_err(|error| self.failed(error))?;
        let fd = file.as_raw_fd();
        let Some(place) = self.files.iter().position(|slot| slot.is_none()) else {
            return Err(self.failed(Error::from_raw_os_error(TOO_MANY)));
        };
        self.files[place] = Some(file);
        Ok(fd)
    }

    // Opens the file that a path names, to read it. Answers its descriptor.
    pub fn open_read(&mut self, rt: &HostRuntime, path: &[u8]) -> Result<i32, Failed> {
        let mut how = OpenOptions::new();
        how.read(true);
        self.take_in(open_by(rt, path, &how))
    }

    // Opens it to append to it.
    pub fn open_append(&mut self, rt: &HostRuntime, path: &[u8]) -> Result<i32, Failed> {
        let mut how = OpenOptions::new();
        how.append(true);
        self.take_in(open_by(rt, path, &how))
    }

    // Makes it, where the name is not taken, to write to it.
    pub fn create(&mut self, rt: &HostRuntime, path: &[u8]) -> Result<i32, Failed> {
        let mut how = OpenOptions::new();
        how.write(true).create_new(true);
        self.take_in(open_by(rt, path, &how))
    }

    // Closes a file.
    pub fn close(&mut self, fd: i32) {
        for slot in &mut self.files {
            if found(slot, fd).is_some() {
                *slot = None;
                return;
            }
        }
    }

    // Closes a file that was opened, if it was.
    pub fn close_opened(&mut self, opened: Result<i32, Failed>)
        ensures { OnErr opened (self.new ≡ self.old) }
    {
        if let Ok(fd) = opened {
            self.close(fd);
        }
    }
}
