//! The open scopes of a process.
ghost use Rattle.std.specs.Prelude.{◌≡◌, ◌<◌, [], ◌∷◌, ◌++◌, length, IfOk, IsOk};
ghost use Rattle.sim_procs.specs.RecordOf.{innermost, scope_of, without_innermost};

use sim_types::{EventId, Scope};
use std::alloc::{AllocError, Global};
use std::marker::Model;

/// The open scopes of one process, outermost first. Memory for as many as find room is taken at once; where that is none, no
/// memory is taken.
#[derive(Drop)]
pub struct Scopes {
    values: Vec<Scope>,
}

impl Model for Scopes {
    ghost use Rattle.std.specs.Prelude.{vec_capacity};
    ghost use Rattle.sim_procs.specs.RecordOf.{ScopesOf};

    ghost Value = { ScopesOf };

    ghost view = { λ a. record {
      scopes = a.values.items;
      room = vec_capacity a.values;
    } };
}

impl Scopes {
    /// No scope is open, and so many find room.
    pub fn new(alloc: Global, room: usize) -> Result<Scopes, AllocError>
        ensures made { IfOk result (λ x. x ≡ record { scopes = []; room = room }) }
        ensures none { room ≡ 0 → IsOk result }
    {
        Ok(Scopes {
            values: Vec::with_capacity(alloc, room)?,
        })
    }

    /// A scope more is open, inside the others.
    pub(crate) fn push(&mut self, scope: Scope)
        requires { length self.old.scopes < self.old.room }
        ensures { self.new ≡ record self.old { scopes = self.old.scopes ++ scope ∷ [] } }
    {
        self.values.push_reserved(scope);
    }

    /// The open scope of a request.
    #[tactic(auto, using(crate::proofs::OpenScopes::finding))]
    pub(crate) fn of_request(&self, request: EventId) -> Option<Scope>
        ensures { result ≡ scope_of request self.now.scopes }
    {
        for scope in &self.values {
            if scope.request.0 == request.0 {
                return Some(*scope);
            }
        }
        None
    }

    /// The innermost open scope, which is then closed.
    #[tactic(auto, using(crate::proofs::OpenScopes::popping))]
    pub(crate) fn pop(&mut self) -> Option<Scope>
        ensures result { result ≡ innermost self.old.scopes }
        ensures closed { self.new ≡ record self.old { scopes = without_innermost self.old.scopes } }
    {
        self.values.pop()
    }
}
