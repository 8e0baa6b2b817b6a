//! Objects of Glk: those of one class in order of creation, found by their identifiers
//! (Glk 0.7.5, "Opaque Objects").
//!
//! Identifiers rise in order of creation, so that an object is found by halving: no call but
//! `first_place` walks through all objects. Each call is its definition of specs/Objects for every
//! list, `place` and `next` for every list whose identifiers rise. Nothing here takes memory.
#![tactic(auto)]

ghost use Rattle.std.specs.Prelude.{ℕ, ◌≡◌, ◌+◌, length, map};
ghost use Rattle.glk_objects.specs.Objects.{AreRising, IsBelowAll, IsSplit, object_place, next, met_from};

/// What is found by an identifier.
pub trait Object {
    ghost use Rattle.std.specs.Prelude.{ℕ};

    ghost id_of: { Self → ℕ };

    /// Its identifier.
    fn id(&self) -> u32
        ensures { result ≡ id_of self.now };
}

/// Where the object of an identifier stands; the length where there is none.
pub fn place<T: Object>(objects: &[T], id: u32) -> usize
    requires { AreRising T.id_of objects.now }
    ensures { result ≡ object_place T.id_of objects.now id }
{
    match objects.binary_search_by_key(&id, |object| object.id()) {
        Ok(at) => at,
        Err(_) => objects.len(),
    }
}

/// The same in a list of any order, by a walk.
#[tactic(auto, using(crate::proofs::Places::walks))]
pub fn first_place<T: Object>(objects: &[T], id: u32) -> usize
    ensures { result ≡ object_place T.id_of objects.now id }
{
    for (at, object) in objects.iter().enumerate() {
        if object.id() == id {
            return at;
        }
    }
    objects.len()
}

/// The least identifier above a number, 0 where there is none.
#[tactic(auto, using(crate::proofs::Rising::nexts))]
pub fn next<T: Object>(objects: &[T], id: u32) -> u32
    requires { AreRising T.id_of objects.now }
    ensures { result ≡ next T.id_of objects.now id }
{
    let at = place_above(objects, id);
    if at < objects.len() {
        objects[at].id()
    } else {
        0
    }
}

/// How many objects have identifiers up to a number.
fn place_above<T: Object>(objects: &[T], id: u32) -> usize
    requires { AreRising T.id_of objects.now }
    ensures { IsSplit T.id_of objects.now id result }
{
    match objects.binary_search_by_key(&id, |object| object.id()) {
        Ok(at) => at + 1,
        Err(at) => at,
    }
}

/// Going on from one object to the next, from 0 up to 0, meets each of them once, in order of creation; no more is
/// met in more turns.
#[tactic(auto, using(crate::proofs::Meeting::meets_each))]
pub fn each_is_met<T: Object>(_objects: &[T])
    requires rises { AreRising T.id_of _objects.now }
    requires first { IsBelowAll T.id_of _objects.now 0 }
    ensures { (more : ℕ) → met_from T.id_of (length _objects.now + more) _objects.now 0 ≡ map T.id_of _objects.now }
{}
