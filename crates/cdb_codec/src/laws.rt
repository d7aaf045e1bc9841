ghost use Rattle.std.specs.Prelude.{◌≡◌, IfOk, None, Ok};
ghost use Rattle.std.specs.Result.{result_err};
ghost use Rattle.mid_base.specs.Bytes.{cdb_list};
ghost use Rattle.cdb_codec.specs.Grammar.{spelling, Fits, refusal, HasShortAddress};
ghost use Rattle.cdb_codec.specs.declared.cdb.Cdb.{Cdb as Command};

use crate::{Cdb, CdbFault, decode, encode};
use mid_base::CdbBytes;

/// No spelling of a command is refused: the table of named bits and the layouts agree.
pub fn spelling_is_read()
    ensures { (c : Command) → Fits c → refusal (spelling c) ≡ None }
{}

/// What `decode` makes of the bytes that `encode` made: the same command.
pub fn decode_encoded(c: &Cdb) -> Result<Cdb, CdbFault>
    requires { HasShortAddress c.now }
    ensures { result ≡ Ok c.now }
{
    decode(encode(c).as_slice())
}

/// What `encode` makes of the command that `decode` read: the same bytes.
pub fn encode_decoded(b: &[u8]) -> Result<CdbBytes, CdbFault>
    ensures same { IfOk result (λ e. cdb_list e ≡ b.now) }
    ensures refused { result_err result ≡ refusal b.now }
{
    Ok(encode(&decode(b)?))
}
