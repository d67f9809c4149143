//! What a person at a terminal may ask for beside events.

ghost use Rattle.std.specs.Prelude.{◌≡◌, IfErr};
ghost use Rattle.replay.specs.declared.faults.ProgramFault.TheVariants.{Output};
ghost use Rattle.shell.specs.declared.faults.ShellFault.TheVariants.{Run};
ghost use Rattle.shell.specs.Shell.{IsInTheTalk};

use crate::faults::ShellFault;
use crate::shells::{Shell, write_out};
use assertion::{Assertion, Form};
use delta::View;
use replay::ProgramFault;
use report::{write_commits, write_refused, write_serial_order};
use std::alloc::{AllocError, Global};
use std::io::Write;
use table::{Catalog, Schema};
use value::ColType;

const HELP: &str = "\
NAME: EVENT;   an event of a session, as ALICE: BEGIN; without a name it is one of ME
.tables        the tables, and how many rows are committed
.rules         the assertions, and their truth on the committed rows
.history       the commits, their serial order, and the COMMITs that were refused
.quit          ends the shell, as the end of the input does
";

const UNKNOWN: &str = "There is no such command. Those that there are: .help\n";

/// What may be asked for.
#[derive(Clone, Copy, Debug, PartialEq, Eq)]
pub enum Command {
    Help,
    Tables,
    Rules,
    History,
    Quit,
    Unknown,
}

/// The command of a line, without the blanks around it.
pub fn command_of(line: &[u8]) -> Command {
    match line {
        b".help" => Command::Help,
        b".tables" => Command::Tables,
        b".rules" => Command::Rules,
        b".history" => Command::History,
        b".quit" => Command::Quit,
        _ => Command::Unknown,
    }
}

/// Writes what a command asks for.
#[tactic(auto, using(crate::proofs::Refusals::late_output))]
pub fn tell<W: Write>(shell: &Shell, command: Command, out: &mut W) -> Result<(), ShellFault>
    ensures { IfErr result IsInTheTalk }
{
    let told = match command {
        Command::Help => return write_out(HELP.as_bytes(), out),
        Command::Unknown => return write_out(UNKNOWN.as_bytes(), out),
        Command::Quit => return Ok(()),
        Command::History => return tell_history(shell, out),
        Command::Tables => tables(shell.alloc, shell.engine.core().newest()),
        Command::Rules => rules(shell.alloc, shell.engine.core().newest()),
    };
    match told {
        Ok(told) => write_out(told.as_bytes(), out),
        Err(_) => Err(ShellFault::Run(ProgramFault::Stopped)),
    }
}

fn tell_history<W: Write>(shell: &Shell, out: &mut W) -> Result<(), ShellFault>
    ensures { IfErr result (λ fault. fault ≡ Run Output) }
{
    let core = shell.engine.core();
    write_commits(core.records(), out)?;
    write_serial_order(core.serial_order(), out)?;
    write_refused(core.refused(), out)?;
    out.flush()?;
    Ok(())
}

/// Each table with its columns, and how many rows it has.
fn tables(alloc: Global, view: &View) -> Result<String, AllocError> {
    let mut told = String::new(alloc);
    for table in 0..view.catalog().len() {
        let rows = view.rows(table).len();
        add_table(view.catalog(), table, &mut told)?;
        writeln!(told, ": rows {rows}")?;
    }
    Ok(told)
}

/// A table by its name, with its columns.
fn add_table(catalog: &Catalog, table: usize, told: &mut String) -> Result<(), AllocError> {
    if let Some(name) = catalog.name(table) {
        write!(told, "{name} (")?;
    }
    if let Some(schema) = catalog.at(table) {
        add_columns(schema, told)?;
    }
    told.push_str(")")
}

fn add_columns(schema: &Schema, told: &mut String) -> Result<(), AllocError> {
    for (place, column) in schema.columns().iter().enumerate() {
        if place > 0 {
            told.push_str(", ")?;
        }
        let name = &column.name;
        match column.kind {
            ColType::Integer => write!(told, "{name} INTEGER")?,
            ColType::Varchar(most) => write!(told, "{name} VARCHAR({most})")?,
        }
        if place == schema.key() {
            told.push_str(" PRIMARY KEY")?;
        } else if !column.nullable {
            told.push_str(" NOT NULL")?;
        }
    }
    Ok(())
}

/// Each assertion with its form, and its truth.
fn rules(alloc: Global, view: &View) -> Result<String, AllocError> {
    let mut told = String::new(alloc);
    for place in 0..view.assertions().len() {
        let truth = view.verdict(place).name();
        add_rule(view.catalog(), &view.assertions()[place], &mut told)?;
        writeln!(told, ": {truth}")?;
    }
    Ok(told)
}

/// An assertion by its name, with its form.
fn add_rule(catalog: &Catalog, assertion: &Assertion, told: &mut String) -> Result<(), AllocError> {
    let name = &assertion.name;
    match &assertion.form {
        Form::ByRow { table, .. } => {
            write!(told, "{name}, by rows of ")?;
            add_name(catalog, *table, told)
        }
        Form::ByGroup { table, group, .. } => {
            write!(told, "{name}, by groups of ")?;
            add_name(catalog, *table, told)?;
            add_group(catalog, *table, *group, told)
        }
        Form::Single { .. } => write!(told, "{name}, single"),
    }
}

fn add_name(catalog: &Catalog, table: usize, told: &mut String) -> Result<(), AllocError> {
    match catalog.name(table) {
        Some(name) => write!(told, "{name}"),
        None => Ok(()),
    }
}

/// The column of the groups.
fn add_group(
    catalog: &Catalog,
    table: usize,
    column: usize,
    told: &mut String,
) -> Result<(), AllocError> {
    let Some(schema) = catalog.at(table) else {
        return Ok(());
    };
    match schema.columns().get(column) {
        Some(column) => {
            let name = &column.name;
            write!(told, " by {name}")
        }
        None => Ok(()),
    }
}
