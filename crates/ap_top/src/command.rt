//! The run, layer by layer: command line, file, program, source, queries.

ghost use Rattle.std.specs.Prelude.{◌≡◌, ◌≤◌, ◌^◌, [], ◌∷◌, map, IfOk, ◌⊎◌};
ghost use Rattle.ap_outside.specs.Faults.{Rises};
ghost use Rattle.ap_outside.specs.Pieces.{Puts, CutOf};
ghost use Rattle.ap_outside.specs.Halting.{Finishes, SinkCount};
ghost use Rattle.ap_words.specs.Asked as words_asked;
ghost use Rattle.ap_words.specs.Asked.{asked_of, run_of, runs};
ghost use Rattle.ap_words.specs.Reading.{InRange, IsRead, asks, reading_of, usage};
ghost use Rattle.ap_top.specs.Counted.{AskedCounted, FileCounted, HasAnswered, SourceCounted, TextCounted};
ghost use Rattle.ap_top.specs.Words.{Asked, IsCommand};
ghost use Rattle.ap_top.specs.Ends.{AskedEnds, FailsBehind, IsAnswering, NamesProgram, ShowsProgram, CodesProgram, IsShowing, SaysNoMemory, SourceEnds, TextEnds, FileEnds, RunEnds, WordsEnd, Whole};
ghost use Rattle.ap_top.specs.Unasked.{LeavesQuery};
ghost use Rattle.ap_top.specs.Counts.{EndsSource, HasNoProgram, RunEndsSource, SourceCount, FilesCount, RunSinkCount, RunSourceCount, RunFilesCount};

use crate::answers::Bounds;
use crate::closing::{close, tell};
use crate::code::code_file;
use crate::load::load;
use crate::queries::print_refusal;
use crate::show::{kind_of, show_file};
use crate::source::{DrainErr, LIMIT, drain};
use crate::status::Status;
use crate::texts::print_text;
use ap_clause::{Refusal, program_of};
use ap_outside::{FileErr, Files, Gate, Got, Halt, PutErr, Sink, Source};
use ap_term::{Atoms, NameKey, Program};
use ap_words::{Asked as What, HELP, Reading, Run, VERSION_LINE, read};
use ap_worker::Crew;
use std::alloc::Global;
use std::mem::ManuallyDrop;
use std::random::RandomSource;
use std::sync::Wait;
use std::thread::Threads;

const USAGE: &[u8] = b"usage: andprolog run FILE | show FILE | code FILE | load SEED SIZE\n";

// The source, over an accepted program.
fn run_source<R: Threads + Wait + Sync, G: Gate, S: Source, K: Sink>(
    alloc: Global,
    crew: &Crew<R, G>,
    program: &Program,
    command: &Run,
    atoms: &mut Atoms,
    queries: &mut S,
    out: &mut K,
) -> Result<Status, Halt>
    requires budget { command.now.budget ≤ 2 ^ 54 }
    requires workers { crew.now.workers ≡ command.now.workers }
    requires query { LeavesQuery program.now atoms.old }
    ensures lines { Finishes (K.pieces out.old) (K.pieces out.new) (SourceEnds (run_of command.now) program.now atoms.old (S.left queries.old) (FailsBehind (S.left queries.old) (S.left queries.new) (Rises (S.faults queries.old) (S.faults queries.new)))) result }
    ensures counted { IfOk result (λ s. HasAnswered s → Puts (K.pieces out.old) (K.pieces out.new) (SourceCounted (run_of command.now) program.now atoms.old (S.left queries.old) s)) }
    ensures sink { SinkCount (K.faults out.old) (K.faults out.new) result }
    ensures source { SourceCount (S.faults queries.old) (S.faults queries.new) result }
    ensures end { EndsSource (S.left queries.new) result }
{
    let bounds = Bounds {
        budget: command.budget,
        answers: command.answers,
        kind: kind_of(command.annotator),
    };
    let mut text = Vec::new(alloc);
    match drain(&mut text, queries) {
        Err(DrainErr::Failed) => {
            print_text(alloc, crew, &text, false, program, bounds, atoms, out)?;
            close(b"fault: source\n", Status::SourceFault, out)
        }
        Err(DrainErr::TooLong) => {
            close(b"refused: queries too long\n", Status::QueriesTooLong, out)
        }
        Err(DrainErr::NoMemory) => Err(Halt::NoMemory),
        Ok(()) => {
            let tally = print_text(alloc, crew, &text, true, program, bounds, atoms, out)?;
            Ok(tally.status())
        }
    }
}

// The bytes of a file.
fn run_text<R: Threads + Wait + Sync, G: Gate, S: Source, K: Sink>(
    alloc: Global,
    crew: &Crew<R, G>,
    key: NameKey,
    text: Vec<u8>,
    command: &Run,
    queries: &mut S,
    out: &mut K,
) -> Result<Status, Halt>
    requires budget { command.now.budget ≤ 2 ^ 54 }
    requires workers { crew.now.workers ≡ command.now.workers }
    ensures lines { Finishes (K.pieces out.old) (K.pieces out.new) (TextEnds (run_of command.now) text.items (S.left queries.old) (FailsBehind (S.left queries.old) (S.left queries.new) (Rises (S.faults queries.old) (S.faults queries.new)))) result }
    ensures counted { IfOk result (λ s. HasAnswered s → Puts (K.pieces out.old) (K.pieces out.new) (TextCounted (run_of command.now) text.items (S.left queries.old) s)) }
    ensures sink { SinkCount (K.faults out.old) (K.faults out.new) result }
    ensures source { SourceCount (S.faults queries.old) (S.faults queries.new) result }
    ensures end { EndsSource (S.left queries.new) result }
    ensures unread { IfOk result (λ s. HasNoProgram s → queries.new ≡ queries.old) }
{
    let Ok(mut atoms) = Atoms::with_key(alloc, key) else {
        return Err(Halt::NoMemory);
    };
    match program_of(alloc, text, &mut atoms) {
        Ok(program) => {
            // The process ends behind the last query, and gives a program's memory back at once.
            let program = ManuallyDrop::new(program);
            run_source(alloc, crew, &program, command, &mut atoms, queries, out)
        }
        Err(Refusal::NoMemory) => Err(Halt::NoMemory),
        Err(refusal) => {
            print_refusal(alloc, &refusal, &atoms, out)?;
            Ok(Status::ProgramRefused)
        }
    }
}

// The file that was asked for.
fn run_file<R: Threads + Wait + Sync, G: Gate, F: Files, S: Source, K: Sink>(
    alloc: Global,
    crew: &Crew<R, G>,
    key: NameKey,
    command: &Run,
    files: &mut F,
    queries: &mut S,
    out: &mut K,
) -> Result<Status, Halt>
    requires budget { command.now.budget ≤ 2 ^ 54 }
    requires workers { crew.now.workers ≡ command.now.workers }
    ensures lines { Finishes (K.pieces out.old) (K.pieces out.new)
        (FileEnds (run_of command.now) (F.entries files.old) (S.left queries.old) (Rises (F.faults files.old) (F.faults files.new)) (FailsBehind (S.left queries.old) (S.left queries.new) (Rises (S.faults queries.old) (S.faults queries.new)))) result }
    ensures counted { IfOk result (λ s. HasAnswered s → Puts (K.pieces out.old) (K.pieces out.new) (FileCounted (run_of command.now) (F.entries files.old) (S.left queries.old) s)) }
    ensures sink { SinkCount (K.faults out.old) (K.faults out.new) result }
    ensures source { SourceCount (S.faults queries.old) (S.faults queries.new) result }
    ensures files { FilesCount (F.faults files.old) (F.faults files.new) result }
    ensures end { EndsSource (S.left queries.new) result }
    ensures unread { IfOk result (λ s. HasNoProgram s → queries.new ≡ queries.old) }
{
    let mut text = Vec::new(alloc);
    match files.read(command.file, &mut text, LIMIT) {
        Err(FileErr::Failed) => close(b"fault: file\n", Status::FileFault, out),
        Err(FileErr::NoMemory) => Err(Halt::NoMemory),
        Ok(Got::TooLong) => close(b"refused: too long\n", Status::ProgramRefused, out),
        Ok(Got::Whole) => run_text(alloc, crew, key, text, command, queries, out),
    }
}

// As many workers as a command line asks for.
fn crew_of<'a, R, G>(rt: &'a R, gate: &'a G, workers: u64) -> Crew<'a, R, G>
    requires some { 1 ≤ workers }
    requires few { workers ≤ 32 }
    ensures { result.workers ≡ workers }
{
    Crew {
        rt,
        gate,
        workers: workers as u32,
    }
}

// What a command line asks for.
fn run_asked<R: Threads + Wait + RandomSource + Sync, G: Gate, F: Files, S: Source, K: Sink>(
    rt: &R,
    alloc: Global,
    gate: &G,
    asked: What,
    files: &mut F,
    queries: &mut S,
    out: &mut K,
) -> Result<Status, Halt>
    requires { InRange (asks (asked_of asked)) }
    ensures lines { Finishes (K.pieces out.old) (K.pieces out.new)
        (AskedEnds (asks (asked_of asked.entry)) (F.entries files.old) (S.left queries.old) (Rises (F.faults files.old) (F.faults files.new)) (FailsBehind (S.left queries.old) (S.left queries.new) (Rises (S.faults queries.old) (S.faults queries.new)))) result }
    ensures counted { (what : words_asked.Asked) → asks (asked_of asked.entry) ≡ asks what → IfOk result (λ s. HasAnswered s → Puts (K.pieces out.old) (K.pieces out.new) (AskedCounted what (F.entries files.old) (S.left queries.old) s)) }
    ensures sink { SinkCount (K.faults out.old) (K.faults out.new) result }
    ensures source { SourceCount (S.faults queries.old) (S.faults queries.new) result }
    ensures files { FilesCount (F.faults files.old) (F.faults files.new) result }
    ensures end { (what : Asked) → asks (asked_of asked.entry) ≡ asks (runs what) → EndsSource (S.left queries.new) result }
    ensures unread { IfOk result (λ s. HasNoProgram s → queries.new ≡ queries.old) }
    ensures unasked { ((what : Asked) → asks (asked_of asked.entry) ≡ asks (runs what) → ⊥) → queries.new ≡ queries.old }
{
    let key = NameKey::draw(rt);
    match asked {
        What::Run(command) => {
            let crew = crew_of(rt, gate, command.workers);
            run_file(alloc, &crew, key, &command, files, queries, out)
        }
        What::Show(command) => show_file(alloc, key, &command, files, out),
        What::Code(file) => code_file(alloc, key, file, files, out),
        What::Load {
            seed,
            size,
            workers,
        } => {
            let crew = crew_of(rt, gate, workers);
            load(alloc, &crew, seed, size, out)
        }
    }
}

// What a command line is read as.
fn run_reading<R: Threads + Wait + RandomSource + Sync, G: Gate, F: Files, S: Source, K: Sink>(
    rt: &R,
    alloc: Global,
    gate: &G,
    reading: Reading,
    files: &mut F,
    queries: &mut S,
    out: &mut K,
) -> Result<Status, Halt>
    requires { InRange (reading_of reading) }
    ensures lines { Finishes (K.pieces out.old) (K.pieces out.new)
        (AskedEnds (reading_of reading.entry) (F.entries files.old) (S.left queries.old) (Rises (F.faults files.old) (F.faults files.new)) (FailsBehind (S.left queries.old) (S.left queries.new) (Rises (S.faults queries.old) (S.faults queries.new)))) result }
    ensures counted { (what : words_asked.Asked) → reading_of reading.entry ≡ asks what → IfOk result (λ s. HasAnswered s → Puts (K.pieces out.old) (K.pieces out.new) (AskedCounted what (F.entries files.old) (S.left queries.old) s)) }
    ensures sink { SinkCount (K.faults out.old) (K.faults out.new) result }
    ensures source { SourceCount (S.faults queries.old) (S.faults queries.new) result }
    ensures files { FilesCount (F.faults files.old) (F.faults files.new) result }
    ensures end { (what : Asked) → reading_of reading.entry ≡ asks (runs what) → EndsSource (S.left queries.new) result }
    ensures unread { IfOk result (λ s. HasNoProgram s → queries.new ≡ queries.old) }
    ensures unasked { ((what : Asked) → reading_of reading.entry ≡ asks (runs what) → ⊥) → queries.new ≡ queries.old }
{
    match reading {
        Reading::Usage => close(USAGE, Status::Usage, out),
        Reading::Help => tell(HELP, out),
        Reading::Version => tell(VERSION_LINE, out),
        Reading::Asks(asked) => run_asked(rt, alloc, gate, asked, files, queries, out),
    }
}

// The command line.
fn run_words<R: Threads + Wait + RandomSource + Sync, G: Gate, F: Files, S: Source, K: Sink>(
    rt: &R,
    alloc: Global,
    gate: &G,
    words: &[&str],
    files: &mut F,
    queries: &mut S,
    out: &mut K,
) -> Result<Status, Halt>
    ensures lines { Finishes (K.pieces out.old) (K.pieces out.new)
        (WordsEnd (map (λ w. w.now) words.now) (F.entries files.old) (S.left queries.old) (Rises (F.faults files.old) (F.faults files.new)) (FailsBehind (S.left queries.old) (S.left queries.new) (Rises (S.faults queries.old) (S.faults queries.new)))) result }
    ensures counted { (what : words_asked.Asked) → IsRead (map (λ w. w.now) words.now) (asks what) → IfOk result (λ s. HasAnswered s → Puts (K.pieces out.old) (K.pieces out.new) (AskedCounted what (F.entries files.old) (S.left queries.old) s)) }
    ensures sink { SinkCount (K.faults out.old) (K.faults out.new) result }
    ensures source { SourceCount (S.faults queries.old) (S.faults queries.new) result }
    ensures files { FilesCount (F.faults files.old) (F.faults files.new) result }
    ensures end { (what : Asked) → IsCommand (map (λ w. w.now) words.now) what → EndsSource (S.left queries.new) result }
    ensures unread { IfOk result (λ s. HasNoProgram s → queries.new ≡ queries.old) }
    ensures unasked { ((what : Asked) → IsCommand (map (λ w. w.now) words.now) what → ⊥) → queries.new ≡ queries.old }
{
    let Ok(reading) = read(alloc, words) else {
        return Err(Halt::NoMemory);
    };
    run_reading(rt, alloc, gate, reading, files, queries, out)
}

// Says that memory was wanting, where there is memory for that.
fn give_up<K: Sink>(out: &mut K) -> Status
    ensures memory { result ≡ Status.NoMemory → Puts (K.pieces out.old) (K.pieces out.new) SaysNoMemory }
    ensures sink { result ≡ Status.SinkFault → Puts (K.pieces out.old) (K.pieces out.new) (CutOf SaysNoMemory) }
    ensures only { (result ≡ Status.NoMemory) ⊎ (result ≡ Status.SinkFault) }
    ensures count { RunSinkCount (K.faults out.old) (K.faults out.new) result }
{
    match out.put(b"no memory\n") {
        Ok(()) => Status::NoMemory,
        Err(PutErr::NoMemory) => Status::NoMemory,
        Err(PutErr::Failed) => Status::SinkFault,
    }
}

/// Runs a command line over the outside, `words` being the program's name and the words behind it.
///
/// `run FILE` reads the file as a program and the source, to its end, as queries. It puts a block for each query: a
/// line for each answer, in the order of sequential search, and a line that ends it; in the place of a refused query
/// it puts the line of its refusal. Each line is one put.
///
/// `show FILE` reads the file as a program and puts a line for each clause, with the groups that may run side by side
/// in every query that is as the entry says.
///
/// `code FILE` reads the file as a program and puts the lines of its code's listing.
///
/// `load SEED SIZE` makes a program, asks it a question, and puts the summary of the block in three lines.
///
/// `--help` and `--version` put their lines, and what is no command line the line of the usage.
pub fn run<R: Threads + Wait + RandomSource + Sync, F: Files, S: Source, K: Sink, G: Gate>(
    rt: &R,
    alloc: Global,
    words: &[&str],
    files: &mut F,
    queries: &mut S,
    out: &mut K,
    gate: &G,
) -> Status
    // Which lines go with which status, and what was put where the sink failed or memory was wanting.
    ensures lines { Puts (K.pieces out.old) (K.pieces out.new)
        (Whole (RunEnds (map (λ w. w.now) words.now) (F.entries files.old) (S.left queries.old) (Rises (F.faults files.old) (F.faults files.new)) (Rises (S.faults queries.old) (S.faults queries.new))) result) }

    // After a fault of the source, what was answered and what is left make it up.
    ensures taken { Puts (K.pieces out.old) (K.pieces out.new)
        (Whole (WordsEnd (map (λ w. w.now) words.now) (F.entries files.old) (S.left queries.old) (Rises (F.faults files.old) (F.faults files.new))
        (FailsBehind (S.left queries.old) (S.left queries.new) (Rises (S.faults queries.old) (S.faults queries.new)))) result) }

    // Where `run` answered the queries, the source has nothing left.
    ensures end { (what : Asked) → IsCommand (map (λ w. w.now) words.now) what → RunEndsSource (S.left queries.new) result }

    // The source is as it was where the words don't ask to run a program, and where the file holds none.
    ensures unasked { ((what : Asked) → IsCommand (map (λ w. w.now) words.now) what → ⊥) → queries.new ≡ queries.old }
    ensures unread { HasNoProgram result → queries.new ≡ queries.old }

    // Where queries were answered, each had the groups of the annotator that was asked for, and what it was charged; one worker
    // alone took no goal of another.
    ensures counted { HasAnswered result → (what : words_asked.Asked) → IsRead (map (λ w. w.now) words.now) (asks what) → Puts (K.pieces out.old) (K.pieces out.new) (AskedCounted what (F.entries files.old) (S.left queries.old) result) }

    // The usage only where the words are no command line, so never where they are plain.
    ensures usage { result ≡ Status.Usage → IsRead (map (λ w. w.now) words.now) usage }

    // A fault's status only where that object's count rose; where it rose, that status or one that goes before it.
    ensures sink { RunSinkCount (K.faults out.old) (K.faults out.new) result }
    ensures source { RunSourceCount (S.faults queries.old) (S.faults queries.new) result }
    ensures files { RunFilesCount (F.faults files.old) (F.faults files.new) result }

    // Where the words name a program and nothing outside failed, the queries are answered, or they have too many
    // bytes, or memory was wanting.
    ensures complete { NamesProgram (map (λ w. w.now) words.now) (F.entries files.old) → (Rises (F.faults files.old) (F.faults files.new) → ⊥) → (Rises (S.faults queries.old) (S.faults queries.new) → ⊥)
        → (Rises (K.faults out.old) (K.faults out.new) → ⊥) → IsAnswering result }

    // Where the words show a program for an entry that is a pattern, and nothing outside failed, its lines are put, or
    // memory was wanting.
    ensures shows { ShowsProgram (map (λ w. w.now) words.now) (F.entries files.old) → (Rises (F.faults files.old) (F.faults files.new) → ⊥) → (Rises (K.faults out.old) (K.faults out.new) → ⊥) → IsShowing result }

    // Where the words ask for a program's code, and nothing outside failed, its listing is put, or memory was wanting.
    ensures codes { CodesProgram (map (λ w. w.now) words.now) (F.entries files.old) → (Rises (F.faults files.old) (F.faults files.new) → ⊥) → (Rises (K.faults out.old) (K.faults out.new) → ⊥) → IsShowing result }
{
    match run_words(rt, alloc, gate, words, files, queries, out) {
        Ok(status) => status,
        Err(Halt::Sink) => Status::SinkFault,
        Err(Halt::NoMemory) => give_up(out),
    }
}
