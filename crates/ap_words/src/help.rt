//! The texts that a line may ask for.

/// What `--help` shows.
pub const HELP: &[u8] = b"andprolog: pure Prolog, with answers that are proved.

usage: andprolog run FILE [--workers N] [--budget N] [--answers N] [--annotator NAME] < QUERIES
       andprolog show FILE [--entry PATTERN] [--annotator NAME]
       andprolog code FILE
       andprolog load SEED SIZE [--workers N]

  run    reads a program, and queries from standard input, and prints a block for each query
  show   prints the program with the groups of goals that may run side by side
  code   prints the instructions that the program is compiled to
  load   makes a program from SEED (0 to 4294967295) and SIZE (1 to 10000), runs it, and prints a
         summary of its answers in three lines

  --workers N        how many workers may run goals side by side: 1 to 32, otherwise 1; the lines
                     are those of sequential search with any number
  --budget N         the calls that a query may make: 1 to 1000000000000, otherwise 10000000
  --answers N        the answers that a query may print: 1 to 1000000000, otherwise 1000000
  --entry PATTERN    the calls that groups are made for, as 'p(g,f,a)': ground, a fresh variable,
                     or any; otherwise each predicate with any arguments
  --annotator NAME   the groups that are made: mel (those whose checks may hold), udg (those that
                     need no check) or none; otherwise mel
  --help, --version  print this, or the version

An option may stand before or behind FILE, once, and also as --budget=N.

status:  0  done                            6  standard output failed
         1  a budget was spent              7  standard input failed
         2  no such command line            8  no memory
         3  the file can't be read          9  too many bytes of queries
         4  the program is refused         10  the entry is refused
         5  a query is refused

example: echo '?- n(X).' | andprolog run numbers.pl --answers 2
";

/// The version, as `clap` is told of it.
pub const VERSION: &str = "0.1.0";

/// What `--version` shows.
pub const VERSION_LINE: &[u8] = b"andprolog 0.1.0\n";
