//! A search of a queue.
ghost use Rattle.std.specs.Prelude.{◌<◌, ◌≤◌, ℕ};
ghost use Rattle.sim_places.specs.Places.{IsPlaceFound};

/// A place below `len` that passes. Who leaves a queue is mostly its first or its last, so these are tried first. Then the
/// place is looked for by halves: it is found so where the places before it, and no others, are `before` it. Else it is
/// looked for from both ends.
pub fn find_place<B: Fn(usize) -> bool, F: Fn(usize) -> bool>(
    len: usize,
    before: B,
    passes: F,
) -> Option<usize>
    requires before { (place : ℕ) → place < len → B.pre before place }
    requires passes { (place : ℕ) → place < len → F.pre passes place }
    ensures { IsPlaceFound len (F.post passes) result }
{
    if len == 0 {
        return None;
    }
    if passes(0) {
        return Some(0);
    }
    if passes(len - 1) {
        return Some(len - 1);
    }
    let place = place_by_halves(len, before);
    if place < len && passes(place) {
        return Some(place);
    }
    place_from_ends(len, passes)
}

/// How many places are before, if these come first. Else it is any number up to `len`.
fn place_by_halves<B: Fn(usize) -> bool>(len: usize, before: B) -> usize
    requires { (place : ℕ) → place < len → B.pre before place }
    ensures { result ≤ len }
{
    let mut low = 0;
    let mut high = len;
    while low < high {
        let middle = low + (high - low) / 2;
        if before(middle) {
            low = middle + 1;
        } else {
            high = middle;
        }
    }
    low
}

/// A place below `len` that passes, looked for from both ends at once.
fn place_from_ends<F: Fn(usize) -> bool>(len: usize, passes: F) -> Option<usize>
    requires { (place : ℕ) → place < len → F.pre passes place }
    ensures { IsPlaceFound len (F.post passes) result }
{
    let mut near = 0;
    let mut far = len;
    while near < far {
        far -= 1;
        if passes(near) {
            return Some(near);
        }
        if passes(far) {
            return Some(far);
        }
        near += 1;
    }
    None
}
