//! Showing a program with its groups.

ghost use Rattle.std.specs.Prelude.{◌≡◌, ◌∷◌, [], IfOk};
ghost use Rattle.ap_outside.specs.Faults.{Rises};
ghost use Rattle.ap_outside.specs.Halting.{Finishes, Prints, SinkCount};
ghost use Rattle.ap_cge.specs.Printed.{lines_of};
ghost use Rattle.ap_patterns.specs.Entry.{IsMarked};
ghost use Rattle.ap_top.specs.Counts.{FilesCount};
ghost use Rattle.ap_words.specs.Asked.{show_of};
ghost use Rattle.ap_top.specs.Shows.{kind_of, IsPrinted, ProgramShows, TextShows, FileShows};

use crate::closing::close;
use crate::patterns::entries_of;
use crate::queries::print_refusal;
use crate::source::LIMIT;
use crate::status::Status;
use ap_cge::{Annotated, PrintErr, print};
use ap_clause::{Refusal, program};
use ap_mel::{Kind, annotate_sound};
use ap_outside::{FileErr, Files, Got, Halt, Sink};
use ap_patterns::Entries;
use ap_term::{Atoms, NameKey, Program};
use ap_words::{Annotator, Show};
use std::alloc::Global;

/// The groups that an annotator makes.
pub(crate) fn kind_of(annotator: Annotator) -> Kind
    ensures { result ≡ kind_of annotator }
{
    match annotator {
        Annotator::Mel => Kind::Mel,
        Annotator::Udg => Kind::Udg,
        Annotator::None => Kind::None,
    }
}

// The lines of an annotated program.
fn print_lines<K: Sink>(
    alloc: Global,
    annotated: &Annotated,
    atoms: &Atoms,
    out: &mut K,
) -> Result<(), Halt>
    ensures lines { Prints (K.pieces out.old) (K.pieces out.new) (λ put. put ≡ lines_of atoms.now annotated.now) result }
    ensures count { SinkCount (K.faults out.old) (K.faults out.new) result }
{
    match print(alloc, annotated, atoms, out) {
        Ok(()) => Ok(()),
        Err(PrintErr::Sunk) => Err(Halt::Sink),
        Err(PrintErr::NoMemory) => Err(Halt::NoMemory),
    }
}

// A program with its groups for the entries.
fn show_annotated<K: Sink>(
    alloc: Global,
    program: &Program,
    entries: &Entries,
    kind: Kind,
    atoms: &Atoms,
    out: &mut K,
) -> Result<(), Halt>
    requires { IsMarked entries.now }
    ensures lines { Prints (K.pieces out.old) (K.pieces out.new) (IsPrinted kind entries.now program.now atoms.now) result }
    ensures count { SinkCount (K.faults out.old) (K.faults out.new) result }
{
    let Ok(certified) = annotate_sound(alloc, program, entries, kind) else {
        return Err(Halt::NoMemory);
    };
    print_lines(alloc, certified.annotated(), atoms, out)
}

// An accepted program.
fn show_program<K: Sink>(
    alloc: Global,
    program: &Program,
    command: &Show,
    atoms: &mut Atoms,
    out: &mut K,
) -> Result<Status, Halt>
    ensures lines { Finishes (K.pieces out.old) (K.pieces out.new) (ProgramShows (show_of command.now) program.now atoms.old) result }
    ensures sink { SinkCount (K.faults out.old) (K.faults out.new) result }
{
    let Ok(found) = entries_of(alloc, command.entry, program, atoms) else {
        return Err(Halt::NoMemory);
    };
    match found {
        None => close(b"refused: entry\n", Status::EntryRefused, out),
        Some(entries) => {
            let kind = kind_of(command.annotator);
            show_annotated(alloc, program, &entries, kind, atoms, out)?;
            Ok(Status::Done)
        }
    }
}

// The bytes of a file.
fn show_text<K: Sink>(
    alloc: Global,
    key: NameKey,
    text: &[u8],
    command: &Show,
    out: &mut K,
) -> Result<Status, Halt>
    ensures lines { Finishes (K.pieces out.old) (K.pieces out.new) (TextShows (show_of command.now) text.now) result }
    ensures sink { SinkCount (K.faults out.old) (K.faults out.new) result }
{
    let Ok(mut atoms) = Atoms::with_key(alloc, key) else {
        return Err(Halt::NoMemory);
    };
    match program(alloc, text, &mut atoms) {
        Ok(program) => show_program(alloc, &program, command, &mut atoms, out),
        Err(Refusal::NoMemory) => Err(Halt::NoMemory),
        Err(refusal) => {
            print_refusal(alloc, &refusal, &atoms, out)?;
            Ok(Status::ProgramRefused)
        }
    }
}

/// Shows the file that was asked for: a line for each clause, with the groups that may run side by side.
pub fn show_file<F: Files, K: Sink>(
    alloc: Global,
    key: NameKey,
    command: &Show,
    files: &mut F,
    out: &mut K,
) -> Result<Status, Halt>
    ensures lines { Finishes (K.pieces out.old) (K.pieces out.new) (FileShows (show_of command.now) (F.entries files.old) (Rises (F.faults files.old) (F.faults files.new))) result }
    ensures sink { SinkCount (K.faults out.old) (K.faults out.new) result }
    ensures files { FilesCount (F.faults files.old) (F.faults files.new) result }
{
    let mut text = Vec::new(alloc);
    match files.read(command.file, &mut text, LIMIT) {
        Err(FileErr::Failed) => close(b"fault: file\n", Status::FileFault, out),
        Err(FileErr::NoMemory) => Err(Halt::NoMemory),
        Ok(Got::TooLong) => close(b"refused: too long\n", Status::ProgramRefused, out),
        Ok(Got::Whole) => show_text(alloc, key, &text, command, out),
    }
}
