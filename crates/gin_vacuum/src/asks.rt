// What is asked of the state of a store's log.
ghost use Rattle.std.specs.Prelude.{length, IfOk};
ghost use Rattle.page_types.specs.Views.{slots_of};
ghost use Rattle.core_state.specs.States.{fate_of};
ghost use Rattle.gin_vacuum.specs.Inner.Asked.{AreDeadTo};

use buffer_frames::{Ask, Held};
use core_state::State;
use core_vacuum::is_dead;
use page_types::{Body, MOST_SLOTS};
use std::alloc::{AllocError, Global};

/// The first heap page that is not below this one.
#[derive(Clone, Copy)]
pub(crate) struct HeapFrom {
    pub(crate) page: u32,
}

impl Ask<Option<u32>> for HeapFrom {
    ghost use Rattle.gin_vacuum.specs.Inner.Asked.{heap_answer};

    ghost answers = { heap_answer };

    fn ask(&self, state: &State, _floor: u32, _since: u64) -> Option<u32> {
        state.heap_from(self.page)
    }
}

/// What is dead on a heap page, and which heap page comes after it.
#[derive(Drop)]
pub(crate) struct DeadOn<'a> {
    pub(crate) alloc: Global,
    pub(crate) held: &'a Held,
}

/// The items of dead documents on a page, and the heap page after it.
#[derive(Drop)]
pub(crate) struct Dead {
    pub(crate) items: Vec<u32>,
    pub(crate) next: Option<u32>,
}

/// The items of a page whose heads say that their documents are dead by so many commits.
fn dead_items(alloc: Global, state: &State, held: &Held, floor: u32) -> Result<Vec<u32>, AllocError>
    ensures { IfOk result (λ v. AreDeadTo (fate_of state.now.value) floor held.now.page
        (slots_of held.now.content) (length (slots_of held.now.content)) v.items) }
{
    let mut items = Vec::new(alloc);
    let first = held.number() * MOST_SLOTS as u32;
    let Body::Heap(slots) = &held.page().body else {
        return Ok(items);
    };
    for slot in 0..slots.len() {
        if let Some(head) = slots.get(slot) {
            if is_dead(state, head, floor) {
                items.push(first + slot as u32)?;
            }
        }
    }
    Ok(items)
}

impl Ask<Result<Dead, AllocError>> for DeadOn<'_> {
    ghost use Rattle.gin_vacuum.specs.Inner.Asked.{dead_answer};

    ghost answers = { dead_answer };

    fn ask(&self, state: &State, floor: u32, _since: u64) -> Result<Dead, AllocError> {
        let items = dead_items(self.alloc, state, self.held, floor)?;
        Ok(Dead {
            items,
            next: state.heap_from(self.held.number() + 1),
        })
    }
}
