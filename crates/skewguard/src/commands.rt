//! The words that the program takes, and their help.

use clap::{Arg, ArgAction, Command, value_parser};
use std::alloc::{AllocError, Global};

/// The version that `--version` tells.
const VERSION: &str = "0.1.0";

/// Behind the list of subcommands.
const AFTER: &str = "\
DEFS is a file of CREATE TABLE, CREATE ASSERTION and INSERT; SCRIPT one of events, as `ALICE: BEGIN;`.

  skewguard check defs.sql                  is the text right, and what do its rules cost?
  skewguard replay defs.sql script.sql      what is each event answered?
  skewguard explain defs.sql script.sql     why was it refused?
  skewguard help replay                     one subcommand, with an example

The status is 0 where all went well, 1 where a text was refused, 2 for words that are not taken here, and
3 where a file can't be read or written.";

const AFTER_REPLAY: &str = "\
Example:
  $ printf 'CREATE TABLE T (ID INTEGER PRIMARY KEY);' > defs.sql
  $ printf 'A: BEGIN; A: INSERT INTO T VALUES (1); A: COMMIT;' > script.sql
  $ skewguard replay defs.sql script.sql
  A: BEGIN 0
  A: INSERT 1
  A: COMMIT 1
  COMMITS 1
  ..";

const AFTER_THREADS: &str = "\
The lines of a session stand together. What is answered is that of some order of the sessions' events, another one
each time.

With --journal each COMMIT is on the disk before it counts. FILE is made where there is none; else it has the rows.

Example:
  $ skewguard threads defs.sql script.sql --journal duty";

const AFTER_SHELL: &str = "\
An event may span lines and ends at `;`. Without `NAME:` it is one of ME. On a terminal `.help` lists what else may
be asked for.

Example:
  $ printf 'BEGIN; A: BEGIN; INSERT INTO T VALUES (1); COMMIT;' | skewguard shell defs.sql
  ME: BEGIN 0
  A: BEGIN 0
  ME: INSERT 1
  ME: COMMIT 1";

const AFTER_CHECKPOINT: &str = "\
A journal grows with each commit, and is read whole when it is opened. The image has the rows alone. It
takes the journal's place in one step: after a crash too the file is the old one or the new one. Each
assertion of DEFS has to hold on the rows.";

const AFTER_JOURNAL: &str = "\
The file is only read, and may be in use. Status 4 says that it is damaged: no crash leaves a file so.

With --commits each changed row is a line: the commit, the table by its place in DEFS from 0 on, and the row
before and after it.

Example:
  $ skewguard journal duty --commits
  commit 1: table 0: ('BOB', 9) -> ('BOB', 8)
  commit 2: table 0: none -> ('DAN', 8)
  commit 3: no changes";

const AFTER_CHECK: &str = "\
Nothing is run. A fault is shown with its line and what may stand there.

Example:
  $ printf 'CREATE TABLE T (ID INTEGR PRIMARY KEY);' > defs.sql
  $ skewguard check defs.sql
  fault 2: `INTEGR` may not stand here
    --> defs.sql:1:20
     |
   1 | CREATE TABLE T (ID INTEGR PRIMARY KEY);
     |                    ^^^^^^
    = Was INTEGER meant?
    = Here may stand INT, INTEGER or VARCHAR.";

const AFTER_EXPLAIN: &str = "\
Without EVENT each event that was refused is explained.

Example:
  $ printf 'CREATE TABLE T (ID INTEGER PRIMARY KEY, A INTEGER);
  > CREATE ASSERTION POSITIVE CHECK (NOT EXISTS (SELECT * FROM T WHERE A < 0));' > defs.sql
  $ printf 'A: BEGIN; A: INSERT INTO T VALUES (1, -5);' > script.sql
  $ skewguard explain defs.sql script.sql
  event 2, line 1: A: INSERT INTO T VALUES (1, -5)
  A: REFUSED 10 23000 POSITIVE 1
    the rule, line 2 of DEFS: CREATE ASSERTION POSITIVE CHECK (..)
    would be false at row 1 of T: (1, -5)
  ..";

const AFTER_PICTURE: &str = "\
A lane is a session, a bar a transaction, an arrow a read of what another has changed, unseen.

Example:
  $ skewguard picture defs.sql script.sql > history.svg";

const AFTER_POSTGRESQL: &str = "\
The tables with their rows, and triggers that keep each assertion, for an empty schema.

Example:
  $ skewguard postgresql defs.sql | psql --set ON_ERROR_STOP=1 rules";

const AFTER_SQLITE: &str = "\
The rows are those of the last commit that FILE holds, or of DEFS without it. FILE is only read, and may be in use.
Assertions are not translated: a comment in front names them.

Example:
  $ skewguard sqlite defs.sql --journal duty | sqlite3 -bail duty.db
  $ sqlite3 duty.db 'SELECT SHIFT, COUNT(*) FROM DUTY GROUP BY SHIFT'";

/// A subcommand, and the words that it takes.
struct Subcommand {
    name: &'static str,
    about: &'static str,
    /// What its help says behind the list of its words.
    after: &'static str,
    words: &'static [Word],
}

/// A word of a subcommand.
#[derive(Clone, Copy)]
struct Word {
    name: &'static str,
    kind: WordKind,
    is_required: bool,
    help: &'static str,
}

/// How a word stands on the command line, and what it may be.
#[derive(Clone, Copy)]
enum WordKind {
    /// A file, by its place.
    File,
    /// A number from 1 on, by its place.
    Number,
    /// `--name`.
    Flag,
    /// `--name FILE`.
    FileOption,
    /// `--name N`, a number from 1 on; the one that is taken where none is written.
    NumberOption(&'static str),
    /// The same, which is taken beside `--journal` alone.
    JournalOption(&'static str),
}

const DEFS: Word = Word {
    name: "DEFS",
    kind: WordKind::File,
    is_required: true,
    help: "A file of definitions: tables, assertions and the rows to begin with",
};

const SCRIPT: Word = Word {
    name: "SCRIPT",
    kind: WordKind::File,
    is_required: true,
    help: "A file of events of any sessions, one after the other",
};

const LIMIT: Word = Word {
    name: "max-commits",
    kind: WordKind::NumberOption("1000000"),
    is_required: false,
    help: "At most so many commits",
};

const SUBCOMMANDS: &[Subcommand] = &[
    Subcommand {
        name: "replay",
        about: "Replays a script on definitions and prints the reply to each event",
        after: AFTER_REPLAY,
        words: &[LIMIT, DEFS, SCRIPT],
    },
    Subcommand {
        name: "threads",
        about: "Runs each session of a script on a thread and prints the replies by session",
        after: AFTER_THREADS,
        words: &[
            Word {
                name: "journal",
                kind: WordKind::FileOption,
                is_required: false,
                help: "Keeps each commit in FILE before it counts, and goes on from what FILE holds",
            },
            LIMIT,
            DEFS,
            SCRIPT,
        ],
    },
    Subcommand {
        name: "shell",
        about: "Answers events from standard input, each at once",
        after: AFTER_SHELL,
        words: &[
            DEFS,
            Word {
                name: "report",
                kind: WordKind::Flag,
                is_required: false,
                help: "Prints at the end what replay prints there",
            },
            Word {
                name: "journal",
                kind: WordKind::FileOption,
                is_required: false,
                help: "Keeps each commit in FILE before it is answered, and goes on from what FILE holds",
            },
            Word {
                name: "sync-every",
                kind: WordKind::JournalOption("1"),
                is_required: false,
                help: "Up to so many commits share a sync, while whole events are at hand",
            },
            Word {
                name: "checkpoint-bytes",
                kind: WordKind::JournalOption("16777216"),
                is_required: false,
                help: "Makes a checkpoint where the journal has grown by so many bytes, and to twice its length",
            },
            LIMIT,
        ],
    },
    Subcommand {
        name: "checkpoint",
        about: "Puts an image of its rows in a journal's place, under these definitions",
        after: AFTER_CHECKPOINT,
        words: &[
            Word {
                name: "DEFS",
                kind: WordKind::File,
                is_required: true,
                help: "A file of definitions: tables and assertions",
            },
            Word {
                name: "journal",
                kind: WordKind::FileOption,
                is_required: true,
                help: "The file of the journal",
            },
        ],
    },
    Subcommand {
        name: "journal",
        about: "Prints what a journal holds",
        after: AFTER_JOURNAL,
        words: &[
            Word {
                name: "FILE",
                kind: WordKind::File,
                is_required: true,
                help: "The file of a journal",
            },
            Word {
                name: "commits",
                kind: WordKind::Flag,
                is_required: false,
                help: "Prints each commit, with the rows that it changed",
            },
            Word {
                name: "follow",
                kind: WordKind::Flag,
                is_required: false,
                help: "Prints each commit, and goes on with those that come",
            },
        ],
    },
    Subcommand {
        name: "check",
        about: "Shows what texts define, what their assertions cost, and their first faults",
        after: AFTER_CHECK,
        words: &[
            Word {
                name: "json",
                kind: WordKind::Flag,
                is_required: false,
                help: "Prints one JSON object, for editors",
            },
            DEFS,
            Word {
                is_required: false,
                ..SCRIPT
            },
        ],
    },
    Subcommand {
        name: "explain",
        about: "Says why events of a script are answered so",
        after: AFTER_EXPLAIN,
        words: &[
            LIMIT,
            DEFS,
            SCRIPT,
            Word {
                name: "EVENT",
                kind: WordKind::Number,
                is_required: false,
                help: "The number of an event in SCRIPT",
            },
        ],
    },
    Subcommand {
        name: "picture",
        about: "Draws the transactions of a script and their conflicts, as SVG",
        after: AFTER_PICTURE,
        words: &[LIMIT, DEFS, SCRIPT],
    },
    Subcommand {
        name: "postgresql",
        about: "Prints definitions as SQL for PostgreSQL 15 or later",
        after: AFTER_POSTGRESQL,
        words: &[Word {
            name: "DEFS",
            kind: WordKind::File,
            is_required: true,
            help: "A file of definitions",
        }],
    },
    Subcommand {
        name: "sqlite",
        about: "Prints tables and rows, of a journal too, as SQL for SQLite 3",
        after: AFTER_SQLITE,
        words: &[
            Word {
                name: "DEFS",
                kind: WordKind::File,
                is_required: true,
                help: "A file of definitions",
            },
            Word {
                name: "journal",
                kind: WordKind::FileOption,
                is_required: false,
                help: "The file of a journal whose rows are printed",
            },
        ],
    },
];

/// The words that the program takes.
pub fn make_command<'a>(alloc: Global) -> Result<Command<'a>, AllocError> {
    let mut command = Command::new(alloc, "skewguard")
        .about("Runs transactions on tables that SQL-92 assertions guard")
        .version(VERSION)
        .after_help(AFTER)
        .subcommand_required(true);
    for subcommand in SUBCOMMANDS {
        command = command.subcommand(make_subcommand(alloc, subcommand)?)?;
    }
    Ok(command)
}

fn make_subcommand<'a>(
    alloc: Global,
    subcommand: &'static Subcommand,
) -> Result<Command<'a>, AllocError> {
    let mut command = Command::new(alloc, subcommand.name)
        .about(subcommand.about)
        .after_help(subcommand.after);
    for word in subcommand.words {
        command = command.arg(make_arg(alloc, *word)?)?;
    }
    Ok(command)
}

fn make_arg<'a>(alloc: Global, word: Word) -> Result<Arg<'a>, AllocError> {
    let arg = Arg::new(alloc, word.name)
        .required(word.is_required)
        .help(word.help);
    Ok(match word.kind {
        WordKind::File => arg,
        WordKind::Number => arg.value_parser(value_parser!(u64).range(1..)),
        WordKind::Flag => arg.long(word.name).action(ArgAction::SetTrue),
        WordKind::FileOption => arg.long(word.name).value_name("FILE"),
        WordKind::NumberOption(default) => make_number(arg, word.name, default),
        WordKind::JournalOption(default) => {
            make_number(arg, word.name, default).requires_arg("journal")?
        }
    })
}

/// The option that takes a number.
fn make_number<'a>(arg: Arg<'a>, name: &'static str, default: &'static str) -> Arg<'a> {
    arg.long(name)
        .value_name("N")
        .value_parser(value_parser!(u32).range(1..))
        .default_value(default)
}
