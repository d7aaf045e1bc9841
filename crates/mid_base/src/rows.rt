ghost use Rattle.std.specs.Prelude.{◌≡◌, ◌↔◌, [], length, IsTrue};

use std::alloc::Global;
use std::marker::Model;

/// A `Vec` that contracts see as the list of its elements, so that two of them are compared by what they hold.
#[derive(Debug, Drop)]
pub struct Rows<T> {
    items: Vec<T>,
}

impl<T> Model for Rows<T> {
    ghost use Rattle.std.specs.Prelude.{List};
    ghost use Rattle.std.specs.Coded.{coded_list};

    ghost Value = { List T };

    ghost coded = { coded_list T.code };

    ghost view = { λ r. r.items.items };
}

impl<T> Rows<T> {
    /// Without rows.
    pub fn new(alloc: Global) -> Rows<T>
        ensures { result ≡ [] }
    {
        Rows {
            items: Vec::new(alloc),
        }
    }

    /// The rows of a `Vec`, in its order.
    pub fn from_vec(items: Vec<T>) -> Rows<T>
        ensures { result ≡ items.items }
    {
        Rows { items }
    }

    /// The `Vec` of its rows.
    pub fn into_vec(self) -> Vec<T>
        ensures { result.items ≡ self }
    {
        self.items
    }

    pub fn as_slice(&self) -> &[T]
        ensures { result.now ≡ self.now }
    {
        &self.items
    }

    pub fn len(&self) -> usize
        ensures { result ≡ length self.now }
    {
        self.items.len()
    }

    pub fn is_empty(&self) -> bool
        ensures { IsTrue result ↔ (self.now ≡ []) }
    {
        self.items.is_empty()
    }
}

#[cfg(test)]
mod tests {
    use super::*;
    use crate::CmdId;
    use std::test::Fail;

    #[test]
    fn rows_are_those_of_their_vec(rt: HostRuntime) -> Result<(), Fail> {
        let none: Rows<CmdId> = Rows::new(rt.alloc());
        assert!(rt; none.is_empty() && none.len() == 0);
        let rows = Rows::from_vec([CmdId(9), CmdId(4)].to_vec(rt.alloc())?);
        assert_eq!(rt; rows.as_slice(), [CmdId(9), CmdId(4)].as_slice());
        assert!(rt; !rows.is_empty() && rows.len() == 2);
        let items = rows.into_vec();
        assert_eq!(rt; items.as_slice(), [CmdId(9), CmdId(4)].as_slice());
        Ok(())
    }
}
