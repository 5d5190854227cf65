// A walk over the objects of an ASDU: one after the other, with no record built. `Walk` keeps the ASDU and a place, and its
// functions are thin over those on a slice and a place. Whoever loops calls `start`, `object_from` and `Place::after`.
#![tactic(auto)]

ghost use Rattle.std.specs.Prelude.{◌≡◌};
ghost use Rattle.asdu_walk.specs.Places.{start_of, found_at, after_of};
ghost use Rattle.asdu_walk.specs.Walks.{walk_of, next_of, walk_after};

use asdu::{checking, objects_at};
use elements::refusals::Refusal;
use objects::Object;
use objects::kinds::Kind;

// Where a walk stands: at the object of an index, or at the refusal of an ASDU that does not read. So it is checked once.
#[derive(Clone, Copy, Debug, PartialEq, Eq)]
pub struct Place {
    answer: Result<(), Refusal>,
    index: u8,
}

// Kept without `Iterator`: a walk stays at its end or its refusal, and `Walks` speaks of `next` and `after` taken apart.
#[derive(Clone, Copy)]
pub struct Walk<'a> {
    asdu: &'a [u8],
    place: Place,
}

// Before the first object.
#[tactic(auto, unfolding(crate::specs::Places::start_of))]
pub fn start(asdu: &[u8]) -> Place
    ensures { result ≡ start_of asdu.now }
{
    Place {
        answer: checking::check_asdu(asdu),
        index: 0,
    }
}

impl Place {
    // No ASDU has an object 255, so the place after it is past the end too.
    #[tactic(auto, unfolding(crate::specs::Places::after_of))]
    pub fn after(self) -> Place
        ensures { result ≡ after_of self }
    {
        Place {
            answer: self.answer,
            index: self.index.saturating_add(1),
        }
    }
}

// What a walk over the ASDU finds at the place: an object, or none at the end.
#[tactic(auto, unfolding(crate::specs::Places::found_at))]
pub fn object_from(asdu: &[u8], place: Place) -> Result<Option<Object>, Refusal>
    ensures { result ≡ found_at asdu.now place }
{
    place.answer?;
    let Ok(kind) = Kind::try_from(laws::octet_at(asdu, 0)) else {
        return Ok(None);
    };
    let size = laws::octet_at(asdu, 1);
    if place.index < size % 128 {
        let object = objects_at::object_in(asdu, kind, size / 128 % 2 == 1, place.index);
        return Ok(Some(object));
    }
    Ok(None)
}

impl<'a> Walk<'a> {
    pub fn new(asdu: &'a [u8]) -> Walk<'a>
        ensures { result ≡ walk_of asdu.entry }
    {
        Walk {
            asdu,
            place: start(asdu),
        }
    }

    pub fn next(self) -> Result<Option<Object>, Refusal>
        ensures { result ≡ next_of self.entry }
    {
        object_from(self.asdu, self.place)
    }

    pub fn after(self) -> Walk<'a>
        ensures { result ≡ walk_after self.entry }
    {
        Walk {
            asdu: self.asdu,
            place: self.place.after(),
        }
    }
}
