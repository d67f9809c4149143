//! The closing part.

ghost use Rattle.std.specs.Prelude.{◌≡◌, OnOk};
ghost use Rattle.std.specs.Io.KnownBytes.{Appends};
ghost use Rattle.report.specs.Closing.{verdict_lines, verdicts_part};
ghost use Rattle.replay.specs.Reports.{closing_part_of};
ghost use Rattle.txn.specs.Transactions.{truths_on};

use commit::Core;
use delta::View;
use report::{write_commits, write_count, write_refused, write_serial_order, write_verdict};
use std::io;
use std::io::Write;

/// Writes the closing part of the commits, and of what they lead to, line by line. It takes no memory.
pub fn write_closing_part<W: Write>(core: &Core, out: &mut W) -> io::Result<()>
    ensures { OnOk result (Appends (W.contents out.old) (W.contents out.new) (closing_part_of core.now)) }
{
    write_commits(core.records(), out)?;
    write_serial_order(core.serial_order(), out)?;
    write_refused(core.refused(), out)?;
    write_verdicts(core.newest(), out)
}

/// Writes how many assertions there are, and the truth of each on the tables.
fn write_verdicts<W: Write>(tables: &View, out: &mut W) -> io::Result<()>
    ensures { OnOk result (Appends (W.contents out.old) (W.contents out.new)
        (verdicts_part tables.now.declared.assertions (truths_on tables.now))) }
{
    write_count("ASSERTIONS ", tables.assertions().len(), out)?;
    write_verdict_lines(tables, out)
}

fn write_verdict_lines<W: Write>(tables: &View, out: &mut W) -> io::Result<()>
    ensures { OnOk result (Appends (W.contents out.old) (W.contents out.new)
        (verdict_lines tables.now.declared.assertions (truths_on tables.now))) }
{
    for place in 0..tables.assertions().len() {
        let assertion = &tables.assertions()[place];
        write_verdict(&assertion.name, tables.verdict(place), out)?;
    }
    Ok(())
}
