//! Listing the code of a program, with the groups that `show` finds in it.

ghost use Rattle.std.specs.Prelude.{◌≡◌, ◌∷◌, [], IfOk};
ghost use Rattle.ap_outside.specs.Faults.{Rises};
ghost use Rattle.ap_outside.specs.Halting.{Finishes, Prints, SinkCount};
ghost use Rattle.ap_top.specs.Counts.{FilesCount};
ghost use Rattle.ap_top.specs.Codes.{true_query, IsListing, IsListed, TextCodes, FileCodes};

use crate::closing::close;
use crate::queries::print_refusal;
use crate::source::LIMIT;
use crate::status::Status;
use crate::text_lines::put_text;
use ap_clause::{Refusal, program};
use ap_codegen::compile;
use ap_listing::listing;
use ap_mel::{Kind, annotate_sound};
use ap_outside::{FileErr, Files, Got, Halt, Sink};
use ap_patterns::Entries;
use ap_term::{Atom, Atoms, Body, Clause, NameKey, NoMemory, Part, Program, Query, Term, fixed};
use std::alloc::Global;

// The query `true`. Code is for a program beside a query, and this one asks nothing of the program.
fn true_query(alloc: Global) -> Result<Query, NoMemory>
    ensures { IfOk result (λ q. q ≡ true_query) }
{
    let mut body = Body::new(alloc);
    body.push(Part::Call(Term::Atom(Atom::at(fixed::TRUE))))?;
    let question = Clause::new(Term::Atom(Atom::at(fixed::QUERY)), body, 0, 1);
    Ok(Query::new(question, Program::new(alloc), Vec::new(alloc)))
}

// The listing of the code of a program with its groups. The query's own is in no listing.
fn program_listing(alloc: Global, program: &Program, atoms: &Atoms) -> Result<Vec<u8>, NoMemory>
    ensures { IfOk result (λ text. IsListing program.now atoms.now text.items) }
{
    let certified = annotate_sound(alloc, program, &Entries::All, Kind::Mel)?;
    let query = true_query(alloc)?;
    let code = compile(alloc, certified.annotated().program(), &query)?;
    listing(alloc, &code, atoms)
}

// An accepted program.
fn print_code<K: Sink>(
    alloc: Global,
    program: &Program,
    atoms: &Atoms,
    out: &mut K,
) -> Result<(), Halt>
    ensures lines { Prints (K.pieces out.old) (K.pieces out.new) (IsListed program.now atoms.now) result }
    ensures count { SinkCount (K.faults out.old) (K.faults out.new) result }
{
    let Ok(text) = program_listing(alloc, program, atoms) else {
        return Err(Halt::NoMemory);
    };
    put_text(&text, out)
}

// The bytes of a file.
fn code_text<K: Sink>(alloc: Global, key: NameKey, text: &[u8], out: &mut K) -> Result<Status, Halt>
    ensures lines { Finishes (K.pieces out.old) (K.pieces out.new) (TextCodes text.now) result }
    ensures sink { SinkCount (K.faults out.old) (K.faults out.new) result }
{
    let Ok(mut atoms) = Atoms::with_key(alloc, key) else {
        return Err(Halt::NoMemory);
    };
    match program(alloc, text, &mut atoms) {
        Ok(program) => {
            print_code(alloc, &program, &atoms, out)?;
            Ok(Status::Done)
        }
        Err(Refusal::NoMemory) => Err(Halt::NoMemory),
        Err(refusal) => {
            print_refusal(alloc, &refusal, &atoms, out)?;
            Ok(Status::ProgramRefused)
        }
    }
}

/// Lists the code of the file that was asked for, a line for each instruction and for each predicate.
pub fn code_file<F: Files, K: Sink>(
    alloc: Global,
    key: NameKey,
    file: &str,
    files: &mut F,
    out: &mut K,
) -> Result<Status, Halt>
    ensures lines { Finishes (K.pieces out.old) (K.pieces out.new) (FileCodes file.now (F.entries files.old) (Rises (F.faults files.old) (F.faults files.new))) result }
    ensures sink { SinkCount (K.faults out.old) (K.faults out.new) result }
    ensures files { FilesCount (F.faults files.old) (F.faults files.new) result }
{
    let mut text = Vec::new(alloc);
    match files.read(file, &mut text, LIMIT) {
        Err(FileErr::Failed) => close(b"fault: file\n", Status::FileFault, out),
        Err(FileErr::NoMemory) => Err(Halt::NoMemory),
        Ok(Got::TooLong) => close(b"refused: too long\n", Status::ProgramRefused, out),
        Ok(Got::Whole) => code_text(alloc, key, &text, out),
    }
}
