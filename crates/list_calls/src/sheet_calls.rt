// Calls that read a sheet of changes, and write one. What is read is left alone, and a refusal writes nothing but the figures.
ghost use Rattle.std.specs.Prelude.{length};
ghost use Rattle.sheets.specs.Sheet.{read_outcome, write_outcome};
ghost use Rattle.list_calls.specs.ListCalls.{SheetSays};

use crate::figures::length_figures;
use interface::answer::{answer_of, say};
use sheets::read::read_sheet;
use sheets::write::write_sheet;

// The changes of a sheet: questions 32, 33 and 26. The figure is their bytes.
#[unsafe(no_mangle)]
pub extern "C" fn kf_read_sheet(sheet: &[u8], changes: &mut [u8], said: &mut [u64; 4]) -> u32
    ensures { SheetSays (read_outcome sheet.now (length changes.old)) result said.new
        changes.old changes.new }
{
    say(answer_of(read_sheet(sheet, changes), length_figures), said)
}

// The sheet of a list of changes: questions 33 and 26. The figure is its bytes.
#[unsafe(no_mangle)]
pub extern "C" fn kf_write_sheet(changes: &[u8], sheet: &mut [u8], said: &mut [u64; 4]) -> u32
    ensures { SheetSays (write_outcome changes.now (length sheet.old)) result said.new
        sheet.old sheet.new }
{
    say(answer_of(write_sheet(changes, sheet), length_figures), said)
}
