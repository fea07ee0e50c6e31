// Command lines, and what each is read as.

use ap_words::{Annotator, Asked, Reading, read};
use std::alloc::{AllocError, Global};
use std::process::Abort;

// The words behind the program's name, and what is asked: a command with its texts and numbers, a point where none is
// given.
static LINES: [(&[&str], &str); 76] = [
    (&["run", "f.pl"], "run f.pl 1 10000000 1000000 mel"),
    (
        &["run", "f.pl", "--budget", "5"],
        "run f.pl 1 5 1000000 mel",
    ),
    (
        &["run", "--budget", "5", "f.pl"],
        "run f.pl 1 5 1000000 mel",
    ),
    (
        &["run", "f.pl", "--answers", "2"],
        "run f.pl 1 10000000 2 mel",
    ),
    (
        &["run", "--answers", "2", "f.pl", "--budget", "5"],
        "run f.pl 1 5 2 mel",
    ),
    (
        &["run", "--budget", "5", "--answers", "2", "f.pl"],
        "run f.pl 1 5 2 mel",
    ),
    (
        &["run", "f.pl", "--budget", "1000000000000"],
        "run f.pl 1 1000000000000 1000000 mel",
    ),
    (
        &["run", "f.pl", "--answers", "1000000000"],
        "run f.pl 1 10000000 1000000000 mel",
    ),
    (&["run", "run"], "run run 1 10000000 1000000 mel"),
    (
        &["run", "--annotator", "udg", "f.pl"],
        "run f.pl 1 10000000 1000000 udg",
    ),
    (
        &["run", "f.pl", "--annotator=none"],
        "run f.pl 1 10000000 1000000 none",
    ),
    (&["run", "f.pl", "--annotator", "cdg"], "usage"),
    (&["show", "f.pl"], "show f.pl . mel"),
    (
        &["show", "f.pl", "--entry", "p(g,f)"],
        "show f.pl p(g,f) mel",
    ),
    (&["show", "--annotator", "udg", "f.pl"], "show f.pl . udg"),
    (
        &["show", "--entry", "p", "f.pl", "--annotator", "none"],
        "show f.pl p none",
    ),
    (
        &["show", "--annotator", "mel", "--entry", "p", "f.pl"],
        "show f.pl p mel",
    ),
    (&["code", "f.pl"], "code f.pl"),
    (&["load", "1", "3"], "load 1 3 1"),
    (&["load", "0", "1"], "load 0 1 1"),
    (&["load", "4294967295", "10000"], "load 4294967295 10000 1"),
    (
        &["run", "--workers", "32", "f.pl"],
        "run f.pl 32 10000000 1000000 mel",
    ),
    (
        &[
            "run",
            "--answers",
            "2",
            "--workers",
            "4",
            "f.pl",
            "--budget",
            "5",
        ],
        "run f.pl 4 5 2 mel",
    ),
    (&["load", "1", "--workers", "2", "3"], "load 1 3 2"),
    (&["run", "f.pl", "--workers", "33"], "usage"),
    (&["load", "1", "3", "--workers", "0"], "usage"),
    (&["run", "f.pl", "--budget", "0"], "usage"),
    (&["run", "f.pl", "--budget", "1000000000001"], "usage"),
    (&["run", "f.pl", "--budget", "007"], "usage"),
    (&["run", "f.pl", "--budget", "+7"], "usage"),
    (
        &["run", "f.pl", "--budget", "18446744073709551617"],
        "usage",
    ),
    (&["run", "f.pl", "--answers", "1000000001"], "usage"),
    (&["load", "01", "3"], "usage"),
    (&["load", "4294967296", "3"], "usage"),
    (&["load", "1", "0"], "usage"),
    (&["load", "1", "10001"], "usage"),
    (&["show", "f.pl", "--annotator", "Mel"], "usage"),
    (&["run", "f.pl", "--budget=5"], "run f.pl 1 5 1000000 mel"),
    (
        &["run", "--budget=5", "f.pl", "--answers=2"],
        "run f.pl 1 5 2 mel",
    ),
    (
        &["run", "--budget=5", "--answers", "2", "f.pl"],
        "run f.pl 1 5 2 mel",
    ),
    (
        &["run", "f.pl", "--workers=2"],
        "run f.pl 2 10000000 1000000 mel",
    ),
    (&["load", "1", "3", "--workers=32"], "load 1 3 32"),
    (&["run", "--", "-f.pl"], "run -f.pl 1 10000000 1000000 mel"),
    (
        &["run", "--budget", "5", "--", "f.pl"],
        "run f.pl 1 5 1000000 mel",
    ),
    (&["run", ""], "run  1 10000000 1000000 mel"),
    (&["run", "-"], "run - 1 10000000 1000000 mel"),
    (&["show", "f.pl", "--entry="], "show f.pl  mel"),
    (&["show", "f.pl", "--entry", ""], "show f.pl  mel"),
    (&["show", "f.pl", "--entry=-(g,g)"], "show f.pl -(g,g) mel"),
    (&["show", "f.pl", "--annotator=none"], "show f.pl . none"),
    (&["code", "--", "f.pl"], "code f.pl"),
    (&["load", "--", "1", "3"], "load 1 3 1"),
    (&[], "usage"),
    (&["walk"], "usage"),
    (&["run"], "usage"),
    (&["run", "f.pl", "g.pl"], "usage"),
    (&["run", "-f.pl"], "usage"),
    (&["run", "f.pl", "--work", "2"], "usage"),
    (&["run", "f.pl", "--budg", "5"], "usage"),
    (&["run", "f.pl", "--budget", "-1"], "usage"),
    (&["run", "f.pl", "--budget"], "usage"),
    (&["run", "f.pl", "--budget", "2", "--budget", "3"], "usage"),
    (&["run", "f.pl", "--budget=2", "--budget", "3"], "usage"),
    (&["run", "f.pl", "--entry", "p"], "usage"),
    (&["run", "f.pl", "--budget="], "usage"),
    (&["code", "f.pl", "--budget", "5"], "usage"),
    (&["load", "1"], "usage"),
    (&["load", "1", "2", "3"], "usage"),
    (&["--budget", "5", "run", "f.pl"], "usage"),
    (&["help"], "usage"),
    (&["--help"], "help"),
    (&["-h"], "help"),
    (&["run", "--help"], "help"),
    (&["--version"], "version"),
    (&["-V"], "version"),
    (&["run", "--version"], "usage"),
];

fn name_of(annotator: Annotator) -> &'static str {
    match annotator {
        Annotator::Mel => "mel",
        Annotator::Udg => "udg",
        Annotator::None => "none",
    }
}

fn told(alloc: Global, reading: &Reading) -> Result<String, AllocError> {
    match reading {
        Reading::Help => String::from_str(alloc, "help"),
        Reading::Version => String::from_str(alloc, "version"),
        Reading::Usage => String::from_str(alloc, "usage"),
        Reading::Asks(Asked::Run(run)) => {
            format!(in alloc;
                "run {} {} {} {} {}",
                run.file,
                run.workers,
                run.budget,
                run.answers,
                name_of(run.annotator)
            )
        }
        Reading::Asks(Asked::Show(show)) => {
            let entry = show.entry.unwrap_or(".");
            format!(in alloc; "show {} {} {}", show.file, entry, name_of(show.annotator))
        }
        Reading::Asks(Asked::Code(file)) => format!(in alloc; "code {}", file),
        Reading::Asks(
            Asked::Load {
                seed,
                size,
                workers,
            },
        ) => format!(in alloc; "load {} {} {}", seed, size, workers),
    }
}

fn check_line<R: Abort>(rt: &R, alloc: Global, behind: &[&str], want: &str) {
    let mut words = Vec::new(alloc);
    words.push("andprolog").expect(rt, "a word");
    words.extend_from_slice(behind).expect(rt, "words");
    let reading = read(alloc, &words).expect(rt, "a reading");
    let told = told(alloc, &reading).expect(rt, "a text");
    assert!(rt; told.as_str() == want);
}

#[test]
fn lines_are_read_as_they_are_documented(rt: HostRuntime) {
    for (behind, want) in &LINES {
        check_line(&rt, rt.alloc(), behind, want);
    }
}
