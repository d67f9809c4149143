//! The shell for a pipe.

ghost use Rattle.std.specs.Prelude.{◌≡◌, ◌≤◌, true, IfErr, OnOk};
ghost use Rattle.shell.specs.Shell.{IsFirstFault, WritesConversation, WritesFirst, is_before_the_talk, is_stop};

use crate::faults::ShellFault;
use crate::shells::begin_shell;
use commit::answers_lead_to_a_serial_order;
use std::alloc::Global;
use std::io::{BufRead, Write};

/// Answers events as they come, over what definitions define, with at most so many commits. The line of an event goes
/// out as soon as its semicolon has come; at the end of the input the line of what is left, if that is not blank, and
/// the report, if it is asked for.
///
/// The writer then has gained just that, for the bytes that were read. The events among the pieces are answered each
/// after those before it, as in a script; the commits are serializable in the order that the report names, and each
/// committed transaction was told what it answers alone. A piece that is no event changes nothing, and so does an
/// event that finds no memory.
///
/// # Errors
///
/// [`ShellFault::Run`] of `Defs` where the definitions are refused, or there is no memory to take them in: nothing was
/// read or written. [`ShellFault::Input`] at the first fault of the reader, and `Run` of `Stopped` where there is no
/// memory for what is read: all events whose semicolon was read are answered then, and the writer has gained their
/// lines. `Run` of `Output` at the first fault of the writer, after which nothing is known of the bytes that went out.
#[tactic(auto, using(crate::proofs::Talking::conversation_if, crate::proofs::Talking::first_pieces, crate::proofs::Talking::late_faults, crate::proofs::Talking::late_fault, crate::proofs::Talking::were_begun, crate::proofs::Talking::was_begun, crate::proofs::Talking::not_a_stop, crate::proofs::Talking::taken_of))]
pub fn shell_into<R: BufRead, W: Write>(
    alloc: Global,
    defs: &[u8],
    max_commits: u32,
    with_report: bool,
    input: &mut R,
    out: &mut W,
) -> Result<(), ShellFault>
    ensures written { OnOk result
        (WritesConversation defs.now max_commits with_report (R.remaining input.old) (W.contents out.old)
        (W.contents out.new)) }
    ensures refused { IfErr result (IsFirstFault defs.now) }
    ensures nothing { IfErr result (λ fault. is_before_the_talk fault ≡ true
        → (input.new ≡ input.old) × (out.new ≡ out.old)) }
    ensures stopped { IfErr result (λ fault. is_stop fault ≡ true
        → WritesFirst defs.now max_commits (R.remaining input.old) (R.remaining input.new) (W.contents out.old)
        (W.contents out.new)) }
{
    let mut shell = match begin_shell(alloc, defs, max_commits) {
        Ok(shell) => shell,
        Err(fault) => return Err(ShellFault::Run(fault)),
    };
    answers_lead_to_a_serial_order();
    shell.feed(input, out)?;
    shell.finish(with_report, out)
}
