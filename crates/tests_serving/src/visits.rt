//! What goes on in a house beside a guest: one house and one guest for each test, and one function
//! that has both.

use crate::crowd_tests::stands_many;
use crate::guest::{Guest, House};
use crate::hostile_tests::{stands_crowd, stands_garbage, stands_greed, stands_halves};
use crate::serving_tests::{all_come, serves_two, takes_over};
use std::test::Fail;

/// What goes on.
#[derive(Clone, Copy)]
pub(crate) enum Visit {
    /// Another guest puts and gets too.
    Two,
    /// Another one goes while it writes.
    Leaving,
    /// Others ask for much before they read.
    ManyAnswers,
    /// Others send garbage.
    Garbage,
    /// Others send halves of frames.
    Halves,
    /// Another one asks, and never reads.
    Greed,
    /// More come than there are places.
    Crowd,
    /// Ten thousand come and go.
    Many,
}

impl Visit {
    fn goes_well(
        self,
        rt: &HostRuntime,
        house: &mut House,
        guest: &mut Guest,
    ) -> Result<bool, Fail> {
        match self {
            Visit::Two => serves_two(rt, house, guest),
            Visit::Leaving => takes_over(rt, house, guest),
            Visit::ManyAnswers => all_come(rt, house, guest),
            Visit::Garbage => stands_garbage(rt, house, guest),
            Visit::Halves => stands_halves(rt, house, guest),
            Visit::Greed => stands_greed(rt, house, guest),
            Visit::Crowd => stands_crowd(rt, house, guest),
            Visit::Many => stands_many(rt, house, guest),
        }
    }
}

/// Whether that goes well in a house of this name, which no other test has.
pub(crate) fn holds(rt: &HostRuntime, name: &str, visit: Visit) -> Result<bool, Fail> {
    let mut house = House::open(rt, name)?;
    let mut guest = house.guest(rt)?;
    let goes_well = visit.goes_well(rt, &mut house, &mut guest)?;
    house.shut(rt)?;
    Ok(goes_well)
}
