//! Copies of a table.

ghost use Rattle.std.specs.Prelude.{◌≡◌, IfOk};
ghost use Rattle.cedar_table.specs.Words.{fields, places_of};

use crate::table::Table;
use cedar_model::Layout;
use cedar_slots::{Blocks, Places, Slots};
use std::alloc::{AllocError, Allocator};
use std::marker::PhantomData;

impl<L: Layout, const SLOTS: usize, A: Allocator + Copy> Clone for Table<L, SLOTS, A> {
    //= A clone has the same fields, so that it is the same table; it may fail for lack of memory.
    ghost is_clone = { λ table copy. fields copy ≡ fields table };

    fn clone(&self) -> Result<Self, AllocError> {
        Ok(Table {
            layout: PhantomData,
            ordered: self.ordered,
            entries: self.entries,
            places: copied_places(&self.places)?,
        })
    }
}

/// The same slots, blocks and reject values.
fn copied_places<A: Allocator + Copy>(places: &Places<A>) -> Result<Places<A>, AllocError>
    ensures { IfOk result (λ copy. places_of copy ≡ places_of places.now) }
{
    Ok(Places {
        slots: Slots {
            nodes: places.slots.nodes.try_copy()?,
            infos: places.slots.infos.try_copy()?,
        },
        blocks: Blocks {
            records: places.blocks.records.try_copy()?,
            full_head: places.blocks.full_head,
            closed_head: places.blocks.closed_head,
            open_head: places.blocks.open_head,
            active: places.blocks.active,
            max_trial: places.blocks.max_trial,
        },
        reject: copy_of(&places.reject)?,
    })
}

/// Returns the same items, from the same allocator.
fn copy_of<T: Copy, A: Allocator + Copy>(items: &Vec<T, A>) -> Result<Vec<T, A>, AllocError>
    ensures { IfOk result (λ copy. copy.items ≡ items.now.items) }
{
    Vec::from_slice(*items.allocator(), items)
}
