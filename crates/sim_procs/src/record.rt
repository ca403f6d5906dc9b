ghost use Rattle.std.specs.Prelude.{◌≡◌, ◌<◌, [], ◌∷◌, ◌++◌, length};
ghost use Rattle.sim_procs.specs.RecordOf.{begun_record, innermost, scope_of, without_innermost};

use crate::scopes::Scopes;
use sim_types::{EventId, ProcId, Scope};
use std::marker::Model;

/// What a process holds. It must be spent by `end`, once all its scopes are left: a record that is dropped does not
/// compile.
pub struct ProcRecord<B> {
    id: ProcId,
    target: EventId,
    body: B,
    scopes: Scopes,
}

impl<B> Model for ProcRecord<B> {
    ghost use Rattle.sim_procs.specs.RecordOf.{RecordOf};

    ghost Value = { RecordOf B };

    ghost view = { λ a. record {
      id = a.id;
      body = a.body;
      target = a.target;
      scopes = a.scopes.scopes;
      room = a.scopes.room;
    } };
}

impl<B> ProcRecord<B> {
    pub(crate) fn new(id: ProcId, body: B, target: EventId, scopes: Scopes) -> ProcRecord<B>
        requires { scopes.scopes ≡ [] }
        ensures { result ≡ begun_record id body target scopes.room }
    {
        ProcRecord {
            id,
            body,
            target,
            scopes,
        }
    }

    pub(crate) fn id(&self) -> ProcId
        ensures { result ≡ self.now.id }
    {
        self.id
    }

    /// The event that the process waits for, or waited for last.
    pub fn target(&self) -> EventId
        ensures { result ≡ self.now.target }
    {
        self.target
    }

    ghost use Rattle.std.specs.Borrow.{sem};
    ghost use Rattle.sim_procs.specs.Lending.{LendsBody};

    /// The body, for reading.
    pub fn body(&self) -> &B
        ensures { result.now ≡ self.now.body }
    {
        &self.body
    }

    pub(crate) fn body_mut(&mut self) -> &mut B
        ensures* lends { sem 𝓛 (LendsBody B.row self.entry result) }
        ensures value { result.now ≡ self.old.body }
    {
        &mut self.body
    }

    pub(crate) fn replace_target(&mut self, target: EventId) -> EventId
        ensures before { result ≡ self.old.target }
        ensures after { self.new ≡ record self.old { target = target } }
    {
        let before = self.target;
        self.target = target;
        before
    }

    pub(crate) fn push_scope(&mut self, scope: Scope)
        requires { length self.old.scopes < self.old.room }
        ensures { self.new ≡ record self.old { scopes = self.old.scopes ++ scope ∷ [] } }
    {
        self.scopes.push(scope);
    }

    pub(crate) fn scope(&self, request: EventId) -> Option<Scope>
        ensures { result ≡ scope_of request self.now.scopes }
    {
        self.scopes.of_request(request)
    }

    /// The innermost open scope, which is then closed.
    pub fn pop_scope(&mut self) -> Option<Scope>
        ensures result { result ≡ innermost self.old.scopes }
        ensures closed { self.new ≡ record self.old { scopes = without_innermost self.old.scopes } }
    {
        self.scopes.pop()
    }

    /// Spends the record.
    pub fn end(self)
    where
        B: Drop,
        requires { self.scopes ≡ [] }
    {
        let ProcRecord {
            id: _,
            body: _,
            target: _,
            scopes: _,
        } = self;
    }

    // Spends the record of a process that a run left alive.
    pub(crate) fn abandon(self)
    where
        B: Drop,
    {
        let ProcRecord {
            id: _,
            body: _,
            target: _,
            scopes: _,
        } = self;
    }
}
