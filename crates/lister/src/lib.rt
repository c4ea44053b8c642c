// Reads a file whole, has its listing made, of a network file by `listing` and of a sighting book by `book`, and writes that: what `adjust`,
// `probable`, `means`, `rescue` and `dropped` do, and the programs that run the files kept as data. Files of any length are read in parts: archives
// (`archive`), for `report`, and reports to be added up (`sums`), for `add_reports`. A net is held against another office's listing for `check`
// (`sheets`).
//
// What cannot be done is said on standard error, a line for each file that opens with the program's name, and nothing else
// is. A program's exit status says one thing alone, that the reader of its listing wanted no more, so the command that runs it goes by these lines.
#![tactic(auto)]

pub mod archive;
pub mod sheets;
pub mod sums;

ghost use Rattle.std.specs.Prelude.{◌-◌, ◌≤◌, ◌≡◌, length, take, IfOk};
ghost use Rattle.std.specs.Process.{exit_status};
ghost use Rattle.text.specs.Written.{Wrote};
ghost use Rattle.lister.specs.Listings.{listing_for};
ghost use Rattle.lister.specs.Status.{status_of, Ends};

use book::parts;
use book::parts::Part;
use listing::Sheet;
use std::env::{Env, FillError};
use std::fs::File;
use std::io;
use std::io::{ErrorKind, Read};
use std::process::ExitCode;

// One byte more than the longest file has, so that a longer one is seen by its length, however long it is.
// An array and no Vec: of a longer file nothing past this is read.
const ROOM: usize = 65536;

// Room for any file's name, and for the parts in which a long input is read.
const NAME: usize = 4096;

const PART: usize = 65536;

// What the files of a call are, all of them alike, and what is listed of them: nothing in a file says it.
#[derive(Clone, Copy, Debug, PartialEq, Eq)]
pub enum Files {
    Networks,
    NetworksWithErrors,
    Books,
    Rescued,
    Dropped,
}

// The same with the files that are read in parts, each by itself. A case with a value, and no Option: each case is a kind of file.
#[derive(Clone, Copy, Debug, PartialEq, Eq)]
pub enum Kind {
    Whole(Files),
    Archives,
    Reports,
}

// What stands above each listing: a line with its file's name, or none. An enum and no bool, so that a call says which.
#[derive(Clone, Copy, Debug, PartialEq, Eq)]
pub enum Heading {
    Name,
    Absent,
}

// Why a file has no listing. No `From` makes one of an io::Error: where a read fails it is another than where a write does.
#[derive(Clone, Copy, Debug, PartialEq, Eq)]
pub enum Trouble {
    Unread,
    Unwritten,
    // The reader of the listing wanted no more of it.
    Unwanted,
}

// The exit status that a shell tells where the signal SIGPIPE ended a program: 128 and that signal's number. The system no longer ends a program so,
// since it runs with the signal ignored; it ends itself.
const UNWANTED: u8 = 141;

// One read behind the bytes that have come, which stay as they were. The place stands beside the buffer: the promise is of both its parts.
fn read_after(file: &mut impl Read, buf: &mut [u8], done: usize) -> io::Result<usize>
    requires { done ≤ length buf.old }
    ensures room { IfOk result (λ n. n ≤ length buf.old - done) }
    ensures kept { take done buf.new ≡ take done buf.old }
{
    file.read(&mut buf[done..])
}

// Reads until the buffer is full or the input ends. A pipe hands over what it has, so one read is not enough. A while loop: a read tells how far it came.
fn read_whole(file: &mut impl Read, buf: &mut [u8]) -> io::Result<usize>
    ensures { IfOk result (λ n. n ≤ length buf.new) }
{
    let mut done = 0;
    while done < buf.len() {
        let n = read_after(file, buf, done)?;
        if n == 0 {
            break;
        }
        done += n;
    }
    Ok(done)
}

// Reads an input to its end, however long it is, and hands on each part.
fn read_parts<F: FnMut(&[u8])>(input: &mut impl Read, mut take: F) -> Result<(), Trouble>
    requires { F.IsAlwaysCallable take }
{
    let mut bytes = [0u8; PART];
    // More reads than any input takes: a loop that reads to the end of an input has to end.
    for _ in 0..u64::MAX {
        match input.read(&mut bytes).map_err(|_| Trouble::Unread)? {
            0 => return Ok(()),
            n => take(&bytes[..n]),
        }
    }
    Err(Trouble::Unread)
}

// The listing of a file, into a lent buffer; how many bytes it has. A match, since the promise says case by case what is listed (specs/Listings).
fn list(files: Files, file: &[u8], out: &mut [u8]) -> usize
    ensures listing { Wrote out.old 0 (listing_for files file.now (length out.old)) out.new result }
    ensures within { result ≤ length out.new }
{
    match files {
        Files::Networks => listing::list(Sheet::Plain, file, out),
        Files::NetworksWithErrors => listing::list(Sheet::WithErrors, file, out),
        Files::Books => book::list(file, out),
        Files::Rescued => book::list_rescued(Part::Kept, file, out),
        Files::Dropped => book::list_rescued(Part::Dropped, file, out),
    }
}

// Writes to standard output.
fn write(rt: &impl Print, listing: &[u8]) -> Result<(), Trouble> {
    rt.write_all(listing).map_err(|e| match e.kind() {
        ErrorKind::BrokenPipe => Trouble::Unwanted,
        _ => Trouble::Unwritten,
    })
}

// Writes the listing of a file. The buffer is for the longest listing of all, the kept lines of a spoiled book.
fn write_listing(rt: &impl Print, files: Files, file: &[u8]) -> Result<(), Trouble> {
    let mut out = [0u8; parts::KEPT];
    let n = list(files, file, &mut out);
    write(rt, &out[..n])
}

// A file that is open. One that was read in part has no listing.
fn list_open(rt: &impl Print, input: &mut impl Read, files: Files) -> Result<(), Trouble> {
    let mut file = [0u8; ROOM];
    let n = read_whole(input, &mut file).map_err(|_| Trouble::Unread)?;
    write_listing(rt, files, &file[..n])
}

// The exit status of a program whose last file came to this.
pub fn status(outcome: Result<(), Trouble>) -> ExitCode
    ensures told { exit_status result ≡ status_of outcome }
    ensures known { Ends (exit_status result) }
{
    match outcome {
        Err(Trouble::Unwanted) => ExitCode::from(UNWANTED),
        _ => ExitCode::SUCCESS,
    }
}

// The line above a listing, with its file's name.
fn write_heading(rt: &impl Print, heading: Heading, name: &[u8]) {
    if heading == Heading::Name {
        let _ = rt.write_all(name);
        let _ = println!(rt;);
    }
}

// A file that is open, of any kind. A match and no closure: the kind is what the caller knows of its files.
fn print_open(rt: &impl Print, input: &mut impl Read, kind: Kind) -> Result<(), Trouble> {
    match kind {
        Kind::Whole(files) => list_open(rt, input, files),
        Kind::Archives => archive::report_open(rt, input),
        Kind::Reports => sums::add_open(rt, input),
    }
}

// Opens the file of that name. One whose name is not UTF-8 cannot be opened: std takes no other name.
fn open(rt: &HostRuntime, name: &[u8]) -> Option<File> {
    let path = str::from_utf8(name).ok()?;
    File::open(rt, path).ok()
}

// How many arguments there are, the program's own name among them.
// A bound and no `loop`: a loop has to end, and no program has so many arguments.
pub fn arg_count(rt: &impl Env) -> usize {
    let mut first = [0u8; 1];
    for i in 0..usize::MAX {
        if let Err(FillError::NotPresent) = rt.arg(i, &mut first) {
            return i;
        }
    }
    usize::MAX
}

// The name that is argument i, from the start of a lent buffer; how many bytes it has. A name that the buffer cannot hold is longer than any
// file's: its first bytes fill the buffer, and they do not open either.
// A name of no bytes and no Option: an argument that is not there opens no file, and that is said where the file is opened.
fn name_of(rt: &impl Env, i: usize, name: &mut [u8]) -> usize
    ensures { result ≤ length name.new }
{
    match rt.arg(i, name) {
        Ok(n) => n,
        Err(FillError::TooLong) => name.len(),
        Err(FillError::NotPresent) => 0,
    }
}

// Hands on the name that is argument i.
fn with_name<F: FnOnce(&[u8]) -> Result<(), Trouble>>(
    rt: &impl Env,
    i: usize,
    take: F,
) -> Result<(), Trouble>
    requires { F.IsAlwaysCallable take }
{
    let mut name = [0u8; NAME];
    let n = name_of(rt, i, &mut name);
    take(&name[..n])
}

// A program: the system that it runs on, and the name under which it says what it cannot do. It lends both, and nothing compares it.
#[derive(Clone, Copy)]
pub struct Program<'a> {
    rt: &'a HostRuntime,
    name: &'a [u8],
}

impl<'a> Program<'a> {
    pub fn new(rt: &'a HostRuntime, name: &'a [u8]) -> Program<'a>
        ensures { result.name.now ≡ name.now }
    {
        Program { rt, name }
    }

    // A line on standard error. Where that cannot be written, nothing is left to say it on.
    fn say(self, what: &str, file: &[u8]) {
        let Program { rt, name } = self;
        let _ = rt.stderr().write_all(name);
        let _ = eprint!(rt; ": cannot {what} ");
        let _ = rt.stderr().write_all(file);
        let _ = eprintln!(rt;);
    }

    // Says what went wrong. Where the reader wanted no more nothing is said, as with other commands.
    fn report(self, outcome: Result<(), Trouble>, file: &[u8]) {
        match outcome {
            Ok(()) | Err(Trouble::Unwanted) => {}
            Err(Trouble::Unread) => self.say("read", file),
            Err(Trouble::Unwritten) => self.say("write the listing of", file),
        }
    }

    // Opens the file of that name, or says that it cannot be opened.
    fn open(self, name: &[u8]) -> Result<File, Trouble> {
        open(self.rt, name).ok_or_else(|| {
            self.say("open", name);
            Trouble::Unread
        })
    }

    // The file of that name.
    fn print_named(self, heading: Heading, kind: Kind, name: &[u8]) -> Result<(), Trouble> {
        write_heading(self.rt, heading, name);
        let mut file = self.open(name)?;
        let outcome = print_open(self.rt, &mut file, kind);
        self.report(outcome, name);
        outcome
    }

    // The file that argument i names.
    fn print_argument(self, heading: Heading, kind: Kind, i: usize) -> Result<(), Trouble> {
        with_name(self.rt, i, |name| self.print_named(heading, kind, name))
    }

    // The files that the arguments name, in turn. Argument 0 is the program's own name. A file that cannot be read is passed over; where one listing could not
    // be written, the next could not be either. Answers the program's exit status.
    pub fn print_arguments(self, heading: Heading, kind: Kind) -> ExitCode
        ensures { Ends (exit_status result) }
    {
        for i in 1..arg_count(self.rt) {
            match self.print_argument(heading, kind, i) {
                Ok(()) | Err(Trouble::Unread) => {}
                outcome => return status(outcome),
            }
        }
        ExitCode::SUCCESS
    }

    // Standard input. Answers the program's exit status.
    pub fn print_input(self, kind: Kind) -> ExitCode
        ensures { Ends (exit_status result) }
    {
        let outcome = print_open(self.rt, &mut self.rt.stdin(), kind);
        self.report(outcome, b"standard input");
        status(outcome)
    }

    // What a program does: with no argument the file is standard input; otherwise each argument names a file, and the listings follow each other.
    pub fn run(self, files: Files) -> ExitCode
        ensures { Ends (exit_status result) }
    {
        let kind = Kind::Whole(files);
        if arg_count(self.rt) < 2 {
            self.print_input(kind)
        } else {
            self.print_arguments(Heading::Absent, kind)
        }
    }
}
