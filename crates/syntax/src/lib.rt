//! The grammar: which texts of tokens have which trees, for conditions, expressions and queries, and for statements,
//! events, definitions and scripts; and the readers that a parser is held to.
//!
//! # Languages and readers
//!
//! A written grammar says which texts of tokens have which trees. Here a language is just that: a
//! set of token lists, each with its trees (`specs/Language.antt`). A handful of words builds one
//! language out of others, and they read as the grammar's own notation does: `token`, one behind
//! the other (`>>`, `>>=`), a choice (`∪`), `optional`, `list` with commas, `parens`. A rule of the
//! grammar is then a line of these words, and says nothing about how a program would find a tree.
//!
//! A reader is what a program does: it looks at the next token, takes tokens from the front, and
//! answers `Done` with a tree, `Fail`, or `Deep` for one parenthesis too many, always with the
//! tokens from where it stopped (`specs/Reading.antt`).
//!
//! What is asked of a refusal is a place: the first token that no text of the language has behind
//! the tokens before it. The tokens before it are a viable prefix (as in the theory of LL and LR
//! parsing: Aho and Ullman 1972), the beginning of some text; with the token they are none. One
//! token of lookahead is enough to name it exactly, for two facts that each reader here keeps:
//!
//! - `Sound`: what a reader has taken is the beginning of some text of its language (when it is
//!   done, a whole one), and what it answered depends on nothing behind the token that it looked
//!   at last. So where it fails at a token, it fails there whatever comes behind.
//! - `Finds`: each text of the language is found, in front of anything that cannot carry it on.
//!
//! Suppose a reader fails at a token and some text yet went on with it. Then `Finds` says that this
//! text is read to its end, and `Sound` that the reader fails in it at the same token. It cannot do
//! both; so no text goes on, and the place is exact. No table of first and following tokens comes
//! in: `Finds` speaks of one number for each kind of token, how tightly it binds.
//!
//! Each word has one law for `Sound` and one for `Finds`, so a rule's proof is its own shape again.
//! The laws of whole texts stand in `proofs/Whole.antt`, for any languages by level of parentheses
//! and any reader of them: what is done has that tree, a failure stands at the first wrong token,
//! `Deep` at the first parenthesis too many (`specs/Answer.antt`), each text that fits is read, and
//! no text has two trees. `specs/Lexemes.antt` gives the tokens of a text of bytes, as a parser
//! shows them. Of the readers here is no code: the parsers above have them as their contracts.
//!
//! # Conditions, expressions and queries
//!
//! The grammar is a cut of SQL-92 (ISO/IEC 9075:1992: search conditions, value expressions, query
//! specifications), and which cut it is, is this project's choice. `specs/Grammar.antt` has it rule
//! by rule, each as a language in these words, in the order and the names of
//! the written grammar:
//!
//! ```text
//! cond   = bterm { OR bterm }         bterm = bfact { AND bfact }        bfact = [NOT] btest
//! btest  = bprim [ IS [NOT] ( TRUE | FALSE | UNKNOWN ) ]
//! bprim  = "(" cond ")" | EXISTS "(" query ")" | expr cmp expr | expr IS [NOT] NULL
//!        | expr [NOT] BETWEEN expr AND expr | expr [NOT] IN "(" expr { "," expr } ")"
//! expr   = term { ( "+" | "-" ) term }      term = factor { "*" factor }      factor = [sign] prim
//! prim   = number | text | colref | agg | "(" expr ")" | "(" query ")"
//! colref = name [ "." name ]
//! agg    = COUNT "(" "*" ")" | ( COUNT | SUM | MIN | MAX ) "(" [ ALL | DISTINCT ] colref ")"
//! query  = SELECT ( "*" | expr ) FROM name [ [AS] name ] [WHERE cond]
//!          [GROUP BY colref] [HAVING cond]
//! ```
//!
//! Trees hold no parentheses. A minus before a number makes a negative number, a minus before
//! anything else a negation, and the part behind the minus of a sum is the negation of its term. A
//! list of parts has two or more; a part of the same kind in parentheses is merged into the list
//! around it, except a sum under a minus. `IS NOT ..`, `NOT BETWEEN` and `NOT IN` are a `Not`.
//!
//! All recursion of the grammar goes through an open parenthesis. So what may stand in parentheses
//! is an argument of each rule, and the languages are a recursion on how deep parentheses nest;
//! a condition is one at some depth (`IsCondition`).
//!
//! `specs/Readers.antt` has a reader for each rule, by the next token alone, and `proofs/` that each
//! is sound and finds (`Exact`). The one place where a token does not decide is a parenthesis that
//! may hold a condition, an expression or a query: there anything is read, and what was found says
//! how it goes on. A parser whose contract is such a reader therefore answers each text with its
//! tree or with the exact place of the first wrong token. [`condition_has_one_tree`] is the law that
//! no text has two trees.
//!
//! # Statements, events, definitions and scripts
//!
//! The rules are a cut of SQL-92 (ISO/IEC 9075:1992: data manipulation, table definition, assertion
//! definition, set constraints mode), with this project's VERDICT and scripts of several sessions,
//! and with indexes, which SQL-92 leaves out.
//! They stand over these conditions and expressions:
//!
//! ```text
//! defs   = { def ";" }                     script = { name ":" event ";" }
//! def    = CREATE TABLE name "(" element { "," element } ")"
//!        | CREATE ASSERTION name CHECK "(" cond ")" [attrs] | insert
//!        | CREATE INDEX name ON name "(" name ")"         (INDEX is no reserved word)
//! element = name type { colcon } | PRIMARY KEY names | [ CONSTRAINT name ] tabcon [attrs]
//! colcon = NOT NULL | PRIMARY KEY
//!        | [ CONSTRAINT name ] ( UNIQUE | CHECK "(" cond ")" | REFERENCES name [ "(" name ")" ] ) [cattrs]
//! tabcon = UNIQUE names | CHECK "(" cond ")" | FOREIGN KEY names REFERENCES name [names]
//! names  = "(" name { "," name } ")"
//! cattrs = when [DEFERRABLE] | DEFERRABLE [when]           (behind a column NOT begins NOT NULL)
//! type   = INTEGER | INT | VARCHAR "(" number ")"          (a number from 1 to 255)
//! attrs  = when [defer] | defer [when]
//! when   = INITIALLY ( DEFERRED | IMMEDIATE )              defer = [NOT] DEFERRABLE
//! event  = BEGIN [READ ONLY] | COMMIT [WORK] | ROLLBACK [WORK] | stmt
//! stmt   = insert | UPDATE name SET set { "," set } [WHERE cond] | DELETE FROM name [WHERE cond]
//!        | SELECT ( "*" | item { "," item } ) FROM name [ [AS] name ] [WHERE cond]
//!          [GROUP BY colref { "," colref }] [HAVING cond]
//!        | SET CONSTRAINTS ( ALL | name { "," name } ) ( DEFERRED | IMMEDIATE ) | VERDICT name
//! insert = INSERT INTO name [ "(" name { "," name } ")" ] VALUES row { "," row }
//! item   = expr [ [AS] name ]                              row = "(" const { "," const } ")"
//! const  = NULL | text | [sign] number                     set = name "=" ( NULL | expr )
//! ```
//!
//! `specs/StatementGrammar.antt` has the rules of statements and events, `specs/SchemaGrammar.antt` those of
//! definitions and scripts, each as a language of token lists; the two files of readers have what a
//! parser does by the next token alone. `proofs/` shows for events, schemas and scripts that their
//! readers are exact: `exact_events`, `exact_schemas`, `exact_scripts`. From these come all laws of
//! whole texts, among them that a refusal stands at the first wrong token.
//!
//! [`event_has_one_tree`], [`schema_has_one_tree`] and [`script_has_one_tree`] are the laws that no
//! text has two trees. A tree keeps what was written and judges nothing: a name may be unknown, a table without a
//! key, attributes at odds. Of a table it has the columns, the keys and the constraints, each in the order of the text;
//! a constraint behind a column is one of the table that names the column. Of a CHECK it has the condition that the
//! standard says the constraint by: NOT EXISTS (SELECT * FROM table WHERE NOT (..)).
#![tactic(auto)]

mod definitions;
mod laws;
mod statement_laws;
mod statements;
mod trees;
mod wants;

pub use definitions::{
    Attributes, ColumnConstraint, ColumnDefinition, Constraint, Definition, ForeignKey,
    TableConstraint, TableDefinition, TableElement,
};
pub use laws::condition_has_one_tree;
pub use statement_laws::{event_has_one_tree, schema_has_one_tree, script_has_one_tree};
pub use statements::{
    Assignment, DerivedColumn, Event, Insert, Mode, ScriptLine, Select, Statement, UpdateSource,
    Which,
};
pub use trees::{
    Aggregate, Argument, ColumnName, Condition, Expression, Query, SelectList, SetQuantifier,
};
pub use wants::{PartInParentheses, Want};
