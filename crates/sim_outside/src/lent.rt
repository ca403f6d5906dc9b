//! A sink that is lent to another call, or to a scope of threads.
ghost use Rattle.std.specs.Prelude.{◌≡◌};

use crate::sink::Sink;

/// A sink that is lent.
#[derive(Drop)]
pub struct LentSink<'a, K> {
    pub sink: &'a mut K,
}

impl<'a, K: Sink> LentSink<'a, K> {
    /// Lends a sink.
    pub fn new(sink: &'a mut K) -> LentSink<'a, K>
        ensures same_reference { result.sink.ghost_name ≡ sink.entry.ghost_name }
        ensures sink { result.sink.now ≡ sink.old }
    {
        LentSink { sink }
    }
}
