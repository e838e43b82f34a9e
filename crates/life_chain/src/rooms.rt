// Room that is made before the first life.
ghost use Rattle.std.specs.Prelude.{◌≡◌, ◌≤◌, ◌+◌, ◌++◌, [], ◌∷◌, length, IfOk, vec_len, vec_capacity};
ghost use Rattle.life_chain.specs.Rooms.{HaveRooms};

use crate::life::Life;
use crate::report::LifeReport;
use event_model::Reply;
use std::alloc::{AllocError, Global};

/// Room for the replies of each life.
pub(crate) type Rooms = Vec<Vec<Reply>>;

/// For each life an empty list with room for its replies, and an empty list with room for a report of each.
pub(crate) fn room_for_all(
    alloc: Global,
    lives: &[Life],
) -> Result<(Rooms, Vec<LifeReport>), AllocError>
    ensures rooms { IfOk result (λ room. HaveRooms room.0.items lives.now) }
    ensures none { IfOk result (λ room. room.1.items ≡ []) }
    ensures spare { IfOk result (λ room. length lives.now ≤ vec_capacity room.1) }
{
    let rooms = rooms_for(alloc, lives)?;
    let reports = Vec::with_capacity(alloc, lives.len())?;
    Ok((rooms, reports))
}

// For each life an empty list with room for its replies.
fn rooms_for(alloc: Global, lives: &[Life]) -> Result<Rooms, AllocError>
    ensures { IfOk result (λ rooms. HaveRooms rooms.items lives.now) }
{
    let mut rooms = Vec::new(alloc);
    for life in lives {
        rooms.push(Vec::with_capacity(alloc, life.events.len())?)?;
    }
    Ok(rooms)
}

/// Puts an item behind the others, for which there is room.
pub(crate) fn add<T: Drop>(list: &mut Vec<T>, item: T)
    requires { vec_len list.old + 1 ≤ vec_capacity list.old }
    ensures items { list.new.items ≡ list.old.items ++ item ∷ [] }
    ensures len { vec_len list.new ≡ vec_len list.old + 1 }
    ensures capacity { vec_capacity list.old ≤ vec_capacity list.new }
{
    let Ok(()) = list.push(item) else {
        unreachable!()
    };
}
