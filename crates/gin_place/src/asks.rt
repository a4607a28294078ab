// What is asked of the state of a store's log.
use buffer_frames::Ask;
use core_state::State;
use page_space::take;

/// How far pages go.
#[derive(Drop)]
pub(crate) struct Extent;

impl Ask<u32> for Extent {
    ghost use Rattle.gin_place.specs.Inner.Asked.{extent_answer};

    ghost answers = { extent_answer };

    fn ask(&self, state: &State, _floor: u32, _since: u64) -> u32 {
        state.extent()
    }
}

/// The page that is taken next as a new one.
#[derive(Drop)]
pub(crate) struct NewPage;

impl Ask<Option<u32>> for NewPage {
    ghost use Rattle.gin_place.specs.Inner.Asked.{new_page_answer};

    ghost answers = { new_page_answer };

    fn ask(&self, state: &State, _floor: u32, since: u64) -> Option<u32> {
        match take(state, since) {
            Ok(page) => Some(page),
            Err(_) => None,
        }
    }
}
