ghost use Rattle.std.specs.Prelude.{◌≡◌, IfOk, map};
ghost use Rattle.command_table.specs.Rows.{start_row, home};

use crate::rows::CommandRow;
use mid_base::{CmdSpec, DevAddr, LunSpec, NoMemory, same_dev};
use std::alloc::Global;
use trace_model::Standing;

// A row for each command, none of which is handed in.
pub fn rows_for(
    alloc: Global,
    cmds: &[CmdSpec],
    luns: &[LunSpec],
) -> Result<Vec<CommandRow>, NoMemory>
    ensures { IfOk result (λ rows. rows.items ≡ map (start_row luns.now) cmds.now) }
{
    let mut rows = Vec::with_capacity(alloc, cmds.len()).map_err(|_| NoMemory)?;
    for command in cmds {
        rows.push_reserved(CommandRow {
            id: command.id,
            lane: command.lane,
            device: home(luns, command.dev),
            standing: Standing::New,
            retries: 0,
            aborted: false,
            order: 0,
        });
    }
    Ok(rows)
}

// The place of a device among the logical units; their number where it is none of them.
fn home(luns: &[LunSpec], dev: DevAddr) -> usize
    ensures { result ≡ home dev luns.now }
{
    for place in 0..luns.len() {
        if same_dev(luns[place].dev, dev) {
            return place;
        }
    }
    luns.len()
}
