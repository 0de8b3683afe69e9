// What a command makes of the memory on the bench.
ghost use Rattle.std.specs.Prelude.{◌≡◌, map, IfOk};
ghost use Rattle.memory.specs.Model.{kind_of};
ghost use Rattle.loader.specs.Image.{loading};
ghost use Rattle.reply.specs.Replies.{said};
ghost use Rattle.rig.specs.Working.{told_of, read_told, load_told, working, Answered};

use base::{Fault, ROW_BYTES};
use loader::load;
use memory::{Memory, Probe, RowKind, Rows};
use reply::Reply;
use script::Command;
use std::alloc::{AllocError, Global};

// What is told of a call that succeeds with nothing to tell.
fn told(answer: Result<(), Fault>) -> Reply
    ensures { said result ≡ told_of answer }
{
    answer.map_or_else(Reply::Refused, |()| Reply::Done)
}

#[tactic(auto, unfolding(crate::specs::Working::read_told))]
fn read_row<M: Rows>(memory: &M, row: u16) -> Reply
    ensures { said result ≡ read_told (M.held memory.now) row }
{
    let mut area = [0; ROW_BYTES];
    let answer = memory.read(row, &mut area);
    answer.map_or_else(Reply::Refused, |kind| Reply::Row(kind, area))
}

fn load_image<M: Rows>(memory: &M, slot_rows: u16) -> Reply
    ensures { said result ≡ load_told (loading (M.held memory.now) slot_rows) }
{
    load(memory, slot_rows).map_or_else(Reply::Refused, |image| {
        Reply::Loaded(u8::from(image.slot), image.version)
    })
}

// The kinds of all rows.
fn row_kinds<M: Probe>(heap: Global, memory: &M) -> Result<Vec<RowKind>, AllocError>
    ensures { IfOk result (λ v. v.items ≡ map kind_of (M.Rows.held memory.now).rows) }
{
    (0..memory.size())
        .filter_map(|row| memory.probe(row))
        .collect(heap)
}

// Performs a command on a memory.
pub(crate) fn apply<M: Memory + Probe>(
    memory: &mut M,
    heap: Global,
    command: &Command,
) -> Result<Reply, AllocError>
    ensures { Answered result (working (M.Memory.meaning memory.old) command.now) (M.Memory.meaning memory.old) (M.Memory.meaning memory.new) }
{
    match command {
        Command::Part(_, _) | Command::Window(_, _) => Ok(Reply::Misuse),
        Command::Power(charge, tear) => Ok(told(memory.power_up(*charge, *tear))),
        Command::Off => {
            memory.off();
            Ok(Reply::Done)
        }
        Command::Write(row, bytes) => Ok(told(memory.write(*row, bytes))),
        Command::Blank(row) => Ok(told(memory.blank(*row))),
        Command::Raise => Ok(told(memory.raise())),
        Command::Read(row) => Ok(read_row(memory, *row)),
        Command::Count => Ok(Reply::Count(memory.count(), memory.ceiling())),
        Command::Rows => Ok(Reply::Rows(row_kinds(heap, memory)?)),
        Command::Load(slot_rows) => Ok(load_image(memory, *slot_rows)),
    }
}
