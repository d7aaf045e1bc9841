ghost use Rattle.std.specs.Prelude.{◌≡◌, ℕ, List, Ok, take};
ghost use Rattle.cdb_codec.specs.Grammar.{spelling, Fits};
ghost use Rattle.cdb_codec.specs.declared.cdb.Cdb.{Cdb as Command};
ghost use Rattle.debug_lun.specs.Units.{LogicalUnit};
ghost use Rattle.debug_lun.specs.Commands.{read_command, data_needed};
ghost use Rattle.debug_lun.specs.Serving.{TellsData, is_accepted_write, serve};

use cdb_codec::spelling_is_read;

/// The command that the definition reads from a block is the one that the block spells.
pub fn spelled_commands_are_read()
    ensures { (c : Command) → Fits c → read_command (spelling c) ≡ Ok c }
{
    spelling_is_read();
}

/// What an answer says of the data that came in is so: its sum, and, but for writes, how many bytes it is.
#[tactic(auto, using(crate::proofs::Told::serve_tells))]
pub fn answers_tell_their_data()
    ensures { (u : LogicalUnit) (block luns out : List ℕ) → TellsData (is_accepted_write u (read_command block)) (serve u block luns out) }
{}

/// Of its data-out a command looks at the front alone that it needs.
pub fn commands_look_at_what_they_need()
    ensures { (u : LogicalUnit) (block luns out other : List ℕ) → take (data_needed block) out ≡ take (data_needed block) other
        → serve u block luns out ≡ serve u block luns other }
{}
