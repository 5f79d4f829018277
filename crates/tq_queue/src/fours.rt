//! Four of a kind, one for each integer of a queue.
ghost use Rattle.std.specs.Prelude.{◌≡◌, ◌<◌, ◌+◌, ◌∷◌};
ghost use Rattle.std.specs.Vec.Iter.{into_iter_items, into_iter_len};
ghost use Rattle.tq_queue.specs.Fours.{pick, AllFour};

use std::vec::IntoIter;

/// For the tickets put, the tickets taken, the cells that are free, and the items there.
#[derive(Drop)]
pub struct Four<X> {
    pub tail: X,
    pub head: X,
    pub free: X,
    pub items: X,
}

/// The next of those that are left.
pub fn next_of<X: Drop>(rest: &mut IntoIter<X>) -> X
    requires { 0 < into_iter_len rest.old }
    ensures items { into_iter_items rest.old ≡ result ∷ into_iter_items rest.new }
    ensures len { into_iter_len rest.new + 1 ≡ into_iter_len rest.old }
{
    match rest.next() {
        Some(item) => item,
        None => unreachable!(),
    }
}

/// The next of each four.
pub fn next_of_each<X: Drop>(rest: &mut Four<IntoIter<X>>) -> Four<X>
    requires { AllFour (λ w. 0 < into_iter_len (pick w rest.old)) }
    ensures items { AllFour (λ w. into_iter_items (pick w rest.old) ≡ pick w result ∷ into_iter_items (pick w rest.new)) }
    ensures len { AllFour (λ w. into_iter_len (pick w rest.new) + 1 ≡ into_iter_len (pick w rest.old)) }
{
    Four {
        tail: next_of(&mut rest.tail),
        head: next_of(&mut rest.head),
        free: next_of(&mut rest.free),
        items: next_of(&mut rest.items),
    }
}
