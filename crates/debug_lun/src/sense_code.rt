ghost use Rattle.std.specs.Prelude.{◌≡◌};
ghost use Rattle.debug_lun.specs.Commands.{sense};

/// A sense key, 0 to 15, with its additional sense code and qualifier (SPC-4, 4.5.6).
#[derive(Clone, Copy, PartialEq, Eq, Debug)]
pub struct Sense {
    pub key: u8,
    pub asc: u8,
    pub ascq: u8,
}

pub(crate) fn sense_with(key: u8, code: (u8, u8)) -> Sense
    ensures { result ≡ sense key code }
{
    Sense {
        key,
        asc: code.0,
        ascq: code.1,
    }
}
