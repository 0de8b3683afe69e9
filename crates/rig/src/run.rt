// A script from its first line to its last.
ghost use Rattle.std.specs.Prelude.{◌≡◌, ◌++◌, IfOk, OnOk};
ghost use Rattle.script.specs.Text.{lines_of};
ghost use Rattle.rig.specs.Store.{desk_of};
ghost use Rattle.rig.specs.Working.{Answered};
ghost use Rattle.rig.specs.Edges.{Edges};
ghost use Rattle.rig.specs.Transcript.{obeying, line_done, lines_done, transcript_of};

use super::desk::Rig;
use reply::{Reply, print};
use script::{Command, Lines, cleaned, name, parse};
use std::alloc::{AllocError, Global};

// Performs a command, if there is one.
fn obey(rig: &mut Rig, command: Option<Command>) -> Result<Reply, AllocError>
    ensures { Answered result (obeying (desk_of rig.old) command) (desk_of rig.old) (desk_of rig.new) }
{
    match command {
        Some(command) => rig.perform(&command),
        None => Ok(Reply::Misuse),
    }
}

// Performs a cleaned line, and prints what it is answered.
fn run_line(rig: &mut Rig, line: &[u8], out: &mut Vec<u8>) -> Result<(), AllocError>
    ensures printed { OnOk result (out.new.items ≡ out.old.items ++ (line_done (desk_of rig.old) line.now).0) }
    ensures leaves { OnOk result (desk_of rig.new ≡ (line_done (desk_of rig.old) line.now).1) }
{
    if line.is_empty() {
        return Ok(());
    }
    let reply = obey(rig, parse(line))?;
    print(out, name(line), &reply)
}

// Performs the lines of a script, and prints what each is answered.
fn run_lines(rig: &mut Rig, script: &[u8], out: &mut Vec<u8>) -> Result<(), AllocError>
    ensures printed { OnOk result (out.new.items ≡ out.old.items ++ (lines_done (desk_of rig.old) (lines_of script.now)).0) }
    ensures leaves { OnOk result (desk_of rig.new ≡ (lines_done (desk_of rig.old) (lines_of script.now)).1) }
{
    for line in Lines::of(script) {
        run_line(rig, cleaned(line), out)?;
    }
    Ok(())
}

/// Runs a script on an empty bench: what it prints, unless memory of the host fails.
#[tactic(auto, using(crate::proofs::Edges::edges))]
pub fn transcript(heap: Global, script: &[u8]) -> Result<Vec<u8>, AllocError>
    ensures printed { IfOk result (λ v. v.items ≡ transcript_of script.now) }
    ensures edges { Edges }
{
    let mut rig = Rig::new(heap);
    let mut out = Vec::new(heap);
    run_lines(&mut rig, script, &mut out)?;
    Ok(out)
}
