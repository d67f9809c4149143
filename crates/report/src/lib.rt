//! The bytes of the report: a line for each event's answer, and the closing part.
//!
//! A script is a list of lines, each an event of a named session, and the engine answers each of them. A report has a
//! line of its own for each answer ([`write_reply`]), and in the end the closing part. The lines of answers, with one
//! line feed behind each:
//!
//! | what was answered | line |
//! |---|---|
//! | a transaction began on the tables that `n` commits left | `session: BEGIN n` |
//! | an INSERT put `n` rows in | `session: INSERT n` |
//! | an UPDATE set `n` rows | `session: UPDATE n` |
//! | a DELETE took `n` rows out | `session: DELETE n` |
//! | a SELECT lists `n` rows | `session: SELECT n`, and then `n` lines of rows |
//! | a row: two spaces, and its values with a comma and a space between each two | `  value, value` |
//! | a SET CONSTRAINTS set modes | `session: SET CONSTRAINTS` |
//! | a VERDICT, with `TRUE`, `FALSE` or `UNKNOWN` | `session: VERDICT name truth` |
//! | a COMMIT, and the commit's number is `n` | `session: COMMIT n` |
//! | a ROLLBACK | `session: ROLLBACK` |
//! | a refusal of any event | `session: REFUSED fault` |
//! | a transaction is open when its session's events end | `session: ROLLBACK AT END` |
//! | a text was refused whole, and no event of it was run | `text: REFUSED fault` |
//!
//! The closing part says what is left of the run:
//!
//! | what | line |
//! |---|---|
//! | how many commits there are | `COMMITS n` |
//! | each commit, with how many rows its net change has | `number session SNAPSHOT n ROWS n` |
//! | the serial order, each number behind a space | `SERIAL number number` |
//! | how many COMMITs were refused and ended their transactions | `REFUSED n` |
//! | each of these | `session fault` |
//! | how many assertions there are | `ASSERTIONS n` |
//! | each assertion, with `TRUE`, `FALSE` or `UNKNOWN` | `name truth` |
//!
//! A *fault* is its number, its SQLSTATE or a dash, and what it names, with a space between each two:
//!
//! | fault | why |
//! |---|---|
//! | `1 - NO MEMORY` | no memory was left |
//! | `2 - SYNTAX at` | the text is none of the grammar's, from this byte on |
//! | `3 - name` | nothing has this name |
//! | `4 - name` | something has this name already |
//! | `5 - TYPE` | values and columns differ in number or type |
//! | `6 23000 column` | the column takes no NULL |
//! | `7 23000 table value` | the table has a row under this key already |
//! | `8 - column` | the key is not updated |
//! | `9 22003 column`, `9 22001 column` | a number beyond its range, a text past its length |
//! | `10 23000 assertion root`, `10 40002 assertion root` | the assertion would be false: at a statement, at COMMIT |
//! | `11 - assertion` | the assertion cannot be deferred |
//! | `12 40001 table value BY n` | commit `n` changed the same row |
//! | `13 40001 READER party PIVOT party WRITER party` | a dangerous structure of reads and writes |
//! | `14 - NO TRANSACTION` | none is open in this session |
//! | `15 - TRANSACTION OPEN` | one is open in this session already |
//! | `16 - STRANGER` | what belongs to another manager or epoch |
//! | `17 - EPOCH FULL` | the epoch holds as many commits as it may |
//! | `18 - TOO WIDE` | arithmetic could pass the range in which it is exact |
//! | `19 - TOO DEEP at` | the text nests too deep at this byte |
//! | `20 - OUTSIDE CLASS` | none of the forms that are checked |
//! | `21 - assertion root` | the assertion is false on the loaded tables |
//! | `22 - assertion` | its attributes exclude each other |
//! | `23 - READ ONLY` | a write in a transaction that reads only |
//! | `24 - TOO MANY SESSIONS` | there are as many as the limit |
//! | `25 58030 IO ERROR` | a COMMIT is accepted, and its journal could not keep it |
//!
//! Numbers are decimal, with `-` before a negative one and no leading zero. A *value* is a number, `NULL`, or a text in
//! quotes with each quote inside it written twice: `'O''HARA'`. A *root* is `ALL` or a value. A *party* is `THIS`, for
//! the transaction that is refused, or the number of a commit. Names stand as they are.
//!
//! What the layer above may rest on: a call that comes to its end puts just its lines behind what the writer has, byte
//! by byte as `specs/Report` and `specs/Closing` have them. It takes no memory, whatever it writes. The only error is
//! the writer's own, and nothing is known of the bytes that went out before it. The definitions are public, so that a
//! crate above can say in its own contract what a whole report is; who wants lines in memory takes a `Vec` for the
//! writer.
//!
//! The modules: `lines` has the lines of answers, and `closing` those of the closing part.
#![tactic(auto, using(crate::proofs::Chains::appends_more))]

mod closing;
mod lines;

pub use closing::{
    write_commit, write_commits, write_count, write_refused, write_refused_commit,
    write_serial_order, write_verdict,
};
pub use lines::{write_fault, write_left_open, write_not_kept, write_refusal, write_reply};
