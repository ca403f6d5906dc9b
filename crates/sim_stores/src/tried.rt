//! Which gets have been tried with which items.
ghost use Rattle.std.specs.Prelude.{◌≡◌, ◌-◌, ◌<◌, ◌≤◌};

/// How many of the first gets of a store have been tried with how many of its first items: no item among these fits a get
/// among these.
#[derive(Clone, Copy)]
pub(crate) struct Tried {
    gets: usize,
    items: usize,
}

impl Tried {
    /// Makes the counts: the first `gets` gets have been tried with the first `items` items.
    pub(crate) fn new(gets: usize, items: usize) -> Tried
        ensures { result ≡ record { gets = gets; items = items } }
    {
        Tried { gets, items }
    }

    /// Answers with how many of the first items the get at this place has been tried.
    pub(crate) fn items_for(&self, place: usize) -> usize
        ensures tried { place < self.now.gets → result ≡ self.now.items }
        ensures untried { self.now.gets ≤ place → result ≡ 0 }
    {
        if place < self.gets { self.items } else { 0 }
    }

    /// Answers the place of the first get that a try has to look at, or `most` if that is less. `items` is the number of
    /// all items: where no item is new, only the gets that are new need to be tried.
    pub(crate) fn first_get(&self, items: usize, most: usize) -> usize
        ensures all_tried { result ≤ self.now.gets }
        ensures within { result ≤ most }
        ensures all_items { 0 < result → self.now.items ≡ items }
    {
        if self.items == items {
            self.gets.min(most)
        } else {
            0
        }
    }

    /// Lets the get at this place leave, with an item that it had not been tried with; `items` items are left. All gets
    /// before it have been tried with all items.
    pub(crate) fn serve(&mut self, place: usize, items: usize)
        ensures tried { place < self.old.gets
            → self.new ≡ record { gets = self.old.gets - 1; items = self.old.items } }
        ensures untried { self.old.gets ≤ place
            → self.new ≡ record { gets = place; items = items } }
    {
        if place < self.gets {
            self.gets -= 1;
        } else {
            *self = Tried::new(place, items);
        }
    }

    /// Lets a get leave without an item, from whatever place.
    pub(crate) fn leave(&mut self)
        ensures { self.new ≡ record { gets = self.old.gets - 1; items = self.old.items } }
    {
        self.gets = self.gets.saturating_sub(1);
    }
}
