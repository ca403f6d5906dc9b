//! A resource of any kind.

/// A resource, by what is done at it (SimPy's "Shared resources"): over the types that keep desks, containers and stores, or
/// over what contracts see of these.
#[derive(Drop)]
pub enum AnyResource<D, T, S> {
    /// Slots that requests wait for and use.
    Desk(D),
    /// A container, which has a level.
    Tank(T),
    /// A store, which has items.
    Shelf(S),
}
