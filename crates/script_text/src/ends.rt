ghost use Rattle.std.specs.Prelude.{◌≡◌, ◌&&◌, if◌then◌else◌, Option, false};
ghost use Rattle.mid_base.specs.declared.host_spec.HostSpec.{HostSpec};
ghost use Rattle.script_words.specs.Pieces.{words};
ghost use Rattle.script_text.specs.Said.{Said};
ghost use Rattle.script_text.specs.Slots.{NoAsync, Fill};
ghost use Rattle.script_text.specs.Adds.{is_more, fill_of};
ghost use Rattle.script_text.specs.Gives.{EndGives, FlagsGive, FlagGives, UnitFlagsGive};

use script_words::{Kind, Words, byte_in};

/// No word may follow.
pub fn no_more(word: Option<&[u8]>) -> Result<(), Kind>
    ensures { EndGives word.entry result }
{
    match word {
        None => Ok(()),
        Some(_) => Err(Kind::Extra),
    }
}

/// Whether the end of a `host` line says `noasync`.
pub fn no_async_in(rest: Words) -> Result<bool, Kind>
    ensures { (said : Said) (host : Option HostSpec) → FlagGives said host (NoAsync false) is_more (words rest.entry.rest.now) result }
{
    let mut words = rest;
    let Some(word) = words.next() else {
        return Ok(false);
    };
    if word != b"noasync".as_slice() {
        return Err(Kind::Word);
    }
    let Some(word) = words.next() else {
        return Ok(true);
    };
    if word == b"noasync".as_slice() {
        Err(Kind::Twice)
    } else {
        Err(Kind::Extra)
    }
}

/// The byte that a write sends, as the end of a `cmd` line says it.
pub fn fill_in(rest: Words) -> Result<u8, Kind>
    ensures { (said : Said) (host : Option HostSpec) → FlagGives said host Fill fill_of (words rest.entry.rest.now) result }
{
    let mut words = rest;
    let Some(word) = words.next() else {
        return Ok(0);
    };
    let fill = byte_in(Some(word))?;
    no_more(words.next())?;
    Ok(fill)
}

/// The flags of a unit.
#[derive(Clone, Copy, PartialEq, Eq, Debug)]
pub struct UnitFlags {
    pub read_only: bool,
    pub stopped: bool,
    /// The device is found by scanning.
    pub scan: bool,
}

impl UnitFlags {
    /// With the flag that this word is.
    fn with(self, word: &[u8]) -> Result<UnitFlags, Kind>
        ensures { FlagsGive self word.now result }
    {
        if word == b"ro".as_slice() {
            if self.read_only {
                return Err(Kind::Twice);
            }
            return Ok(UnitFlags {
                read_only: true,
                ..self
            });
        }
        if word == b"stopped".as_slice() {
            if self.stopped {
                return Err(Kind::Twice);
            }
            return Ok(UnitFlags {
                stopped: true,
                ..self
            });
        }
        if word == b"scan".as_slice() {
            if self.scan {
                return Err(Kind::Twice);
            }
            return Ok(UnitFlags { scan: true, ..self });
        }
        Err(self.barred())
    }

    /// What another word is behind these flags.
    fn barred(self) -> Kind
        ensures { result ≡ (if self.read_only && self.stopped && self.scan then Kind.Extra else Kind.Word) }
    {
        if self.read_only && self.stopped && self.scan {
            Kind::Extra
        } else {
            Kind::Word
        }
    }
}

/// The flags that the end of a `lun` line says.
pub fn unit_flags_in(rest: Words) -> Result<UnitFlags, Kind>
    ensures { (said : Said) (host : Option HostSpec) → UnitFlagsGive said host (words rest.entry.rest.now) result }
{
    let mut words = rest;
    let mut flags = UnitFlags {
        read_only: false,
        stopped: false,
        scan: false,
    };
    while let Some(word) = words.next() {
        flags = flags.with(word)?;
    }
    Ok(flags)
}
