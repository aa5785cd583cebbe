ghost use Rattle.px_keep.specs.Reading.{IsRead};

use crate::KeepFault;
use crate::lent::{behind_head, first_item};
use std::alloc::Global;
use std::marker::Model;

/// An item that stands in bytes: its two messages, and the number of its procedure.
#[derive(Clone, Copy)]
pub(crate) struct LentItem<'a> {
    pub(crate) proc: u32,
    pub(crate) asked: &'a [u8],
    pub(crate) given: &'a [u8],
}

/// The items of kept bytes, which are lent and not held twice. Contracts see the list of them, in order.
#[derive(Drop)]
pub struct Kept<'a> {
    pub(crate) items: Vec<LentItem<'a>>,
}

impl<'a> Model for Kept<'a> {
    ghost use Rattle.std.specs.Prelude.{List, map};
    ghost use Rattle.px_keep.specs.Items.{KeptItem};
    ghost use Rattle.px_keep.specs.Lent.{item_of, AreLent};

    ghost Value = { List KeptItem };

    ghost view = { λ k. map item_of k.items.items };

    ghost invariant = { λ k. AreLent k.items.items };
}

impl Kept<'_> {
    ghost use Rattle.std.specs.Prelude.{◌≡◌, map};
    ghost use Rattle.px_keep.specs.Lent.{item_of, AreLent};

    /// The items of these bytes. Each message is read once and let go of; what is held is 40 bytes an item.
    pub fn read(alloc: Global, bytes: &[u8]) -> Result<Kept<'_>, KeepFault>
        ensures { IsRead bytes.now result }
    {
        let Some(behind) = behind_head(bytes) else {
            return Err(KeepFault::Bad(0));
        };
        let mut items = Vec::new(alloc);
        let mut rest = behind;
        while !rest.is_empty() {
            let Some((item, more)) = first_item(alloc, rest)? else {
                return Err(KeepFault::Bad((bytes.len() - rest.len()) as u64));
            };
            items.push(item)?;
            rest = more;
        }
        Ok(Kept { items })
    }

    // The items, each with the number of its procedure. Takes no memory.
    pub(crate) fn lent(&self) -> &[LentItem<'_>]
        ensures lent { AreLent result.now }
        ensures same { map item_of result.now ≡ self.now }
    {
        &self.items
    }
}
