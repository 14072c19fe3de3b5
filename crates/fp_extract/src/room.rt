//! The bounds of a system, and what calls take of them.
ghost use Rattle.std.specs.Prelude.{◌≡◌, IfOk};
ghost use Rattle.fp_extract.specs.Refusals.{room_left};
ghost use Rattle.fp_extract.specs.Rooms as rooms;

use crate::fault::FactsFault;
use fp_facts::CallTargets;
use fp_model::LimitName;
use std::alloc::AllocError;

/// How many places, uses and gives a system may still have. A use is a place that an equation reads, a give one that it gives to, at
/// the greatest values, summed over the equations.
#[derive(Clone, Copy, Debug, PartialEq, Eq)]
pub struct Room {
    pub places: u64,
    pub uses: u64,
    pub gives: u64,
}

/// What a call takes of them.
#[derive(Clone, Copy)]
pub(crate) struct Cost {
    places: u64,
    uses: u64,
    gives: u64,
}

impl Cost {
    /// That of a call with these targets. More than 2^32 of them would be want of memory.
    pub(crate) fn of(targets: &CallTargets) -> Result<Cost, AllocError>
        ensures { IfOk result (λ cost. cost ≡ rooms.cost_of targets.now) }
    {
        let Ok(count) = u32::try_from(targets.targets.len()) else {
            return Err(AllocError);
        };
        let Ok(watched) = u32::try_from(targets.watch.len()) else {
            return Err(AllocError);
        };
        let words = u64::from(count) / 64 + 1;
        Ok(Cost {
            places: words,
            uses: u64::from(watched) + 1,
            gives: words + u64::from(count),
        })
    }
}

/// What is left of each bound, none of one that is passed.
#[derive(Clone, Copy)]
pub(crate) struct Left {
    places: Option<u64>,
    uses: Option<u64>,
    gives: Option<u64>,
}

impl Left {
    /// All that there is.
    pub(crate) fn of(room: Room) -> Left
        ensures { result ≡ rooms.left_of room }
    {
        Left {
            places: Some(room.places),
            uses: Some(room.uses),
            gives: Some(room.gives),
        }
    }

    /// What a call leaves.
    pub(crate) fn without(self, cost: Cost) -> Left
        ensures { result ≡ rooms.left_without self cost }
    {
        Left {
            places: less(self.places, cost.places),
            uses: less(self.uses, cost.uses),
            gives: less(self.gives, cost.gives),
        }
    }

    /// What so many places leave.
    pub(crate) fn less_places(self, count: usize) -> Left
        ensures { result ≡ rooms.left_less self count }
    {
        Left {
            places: less(self.places, count as u64),
            uses: self.uses,
            gives: self.gives,
        }
    }

    /// Whether no bound is passed.
    pub(crate) fn fits(self) -> bool
        ensures { result ≡ rooms.fits self }
    {
        self.places.is_some() && self.uses.is_some() && self.gives.is_some()
    }

    /// What is left, or the first bound that is passed.
    pub(crate) fn room(self) -> Result<Room, FactsFault>
        ensures { result ≡ room_left self }
    {
        let Some(places) = self.places else {
            return Err(FactsFault::Limit(LimitName::Places));
        };
        let Some(uses) = self.uses else {
            return Err(FactsFault::Limit(LimitName::Uses));
        };
        let Some(gives) = self.gives else {
            return Err(FactsFault::Limit(LimitName::Gives));
        };
        Ok(Room {
            places,
            uses,
            gives,
        })
    }
}

// A number less another, none where it is smaller.
fn less(left: Option<u64>, count: u64) -> Option<u64>
    ensures { result ≡ rooms.less left count }
{
    match left {
        Some(left) if left < count => None,
        Some(left) => Some(left - count),
        None => None,
    }
}
