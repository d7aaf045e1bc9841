ghost use Rattle.std.specs.Prelude.{◌≡◌, ◌≤◌, length, All, IfOk, OnOk, OnErr, true};
ghost use Rattle.mid_base.specs.Bytes.{cdb_list};
ghost use Rattle.debug_lun.specs.Units.{unit_of, reply_of};
ghost use Rattle.debug_lun.specs.Commands.{read_command as read_command_of};
ghost use Rattle.debug_lun.specs.Serving.{serve, run, is_accepted_write, placed};

use crate::DebugLun;
use crate::commands::{
    block_count, first_block, is_read, is_write, passes_attention, read_command,
};
use crate::replies::check;
use cdb_codec::Cdb;
use mid_base::{Answer, CdbBytes, NoMemory};

impl DebugLun {
    /// Serves a command: the answer, with DID_OK and GOOD or CHECK CONDITION with sense data of the fixed form.
    ///
    /// `luns` are the numbers of the target's logical units in ascending order, 256 at most, each at most 16,383. `buf` has
    /// at least 131,072 bytes, the data of 256 blocks: a write takes its data from the front, and other commands put theirs
    /// there, `moved` bytes; the rest of the buffer stays. `sum` is the sum of the bytes that came in, as a number.
    ///
    /// A command that is refused changes nothing, but that a unit attention ends with the command that it refuses.
    /// `NoMemory` comes for writes alone, and then nothing has changed.
    #[tactic(auto, unfolding(crate::specs::Serving::serve))]
    pub fn exec(&mut self, cdb: &CdbBytes, luns: &[u16], buf: &mut [u8]) -> Result<Answer, NoMemory>
        requires count { length luns.now ≤ 256 }
        requires numbers { All (λ n. n ≤ 16383) luns.now }
        requires room { 131072 ≤ length buf.old }
        ensures unit { OnOk result (unit_of self.new ≡ (serve (unit_of self.old) (cdb_list cdb.now) luns.now buf.old).unit) }
        ensures reply { IfOk result (λ a. reply_of a ≡ (serve (unit_of self.old) (cdb_list cdb.now) luns.now buf.old).reply) }
        ensures buffer { OnOk result (buf.new ≡ placed (serve (unit_of self.old) (cdb_list cdb.now) luns.now buf.old).data_in buf.old) }
        ensures write { OnErr result (is_accepted_write (unit_of self.old) (read_command_of (cdb_list cdb.now)) ≡ true) }
        ensures same_unit { OnErr result (unit_of self.new ≡ unit_of self.old) }
        ensures same_buffer { OnErr result (buf.new ≡ buf.old) }
    {
        match read_command(cdb) {
            Ok(command) => self.run(&command, luns, buf),
            Err(sense) => Ok(check(sense)),
        }
    }

    #[tactic(auto, unfolding(crate::specs::Units::unit_of, crate::specs::Serving::run))]
    fn run(&mut self, c: &Cdb, luns: &[u16], buf: &mut [u8]) -> Result<Answer, NoMemory>
        requires count { length luns.now ≤ 256 }
        requires numbers { All (λ n. n ≤ 16383) luns.now }
        requires room { 131072 ≤ length buf.old }
        ensures unit { OnOk result (unit_of self.new ≡ (run (unit_of self.old) c.now luns.now buf.old).unit) }
        ensures reply { IfOk result (λ a. reply_of a ≡ (run (unit_of self.old) c.now luns.now buf.old).reply) }
        ensures buffer { OnOk result (buf.new ≡ placed (run (unit_of self.old) c.now luns.now buf.old).data_in buf.old) }
        ensures write { OnErr result (is_accepted_write (unit_of self.old) (Ok c.now) ≡ true) }
        ensures same_unit { OnErr result (unit_of self.new ≡ unit_of self.old) }
        ensures same_buffer { OnErr result (buf.new ≡ buf.old) }
    {
        if let Some(sense) = self.refusal(c) {
            self.attention = self.attention && passes_attention(c);
            return Ok(check(sense));
        }
        if is_read(c) {
            return Ok(self.read(first_block(c), block_count(c), buf));
        }
        if is_write(c) {
            return self.write(first_block(c), block_count(c), buf);
        }
        Ok(self.effect(c, luns, buf))
    }
}
