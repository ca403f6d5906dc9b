//! What the process that is made next has already.
ghost use Rattle.std.specs.Prelude.{IfOk};
ghost use Rattle.sim_steps_model.specs.PartsOf.{IsReady};

use sim_procs::{Body, Scopes};
use std::alloc::{AllocError, Global};
use std::marker::Model;

/// The body of the process that is made next, yet to be filled, and the memory for its scopes.
#[derive(Drop)]
pub(crate) struct Ready<B> {
    pub(crate) body: B,
    pub(crate) scopes: Scopes,
}

impl<B> Model for Ready<B> {
    ghost use Rattle.sim_steps_model.specs.PartsOf.{ReadyOf};

    ghost Value = { ReadyOf B };

    ghost view = { λ a. record {
      body = a.body;
      scopes = a.scopes;
    } };
}

impl<B: Body> Ready<B> {
    /// A body for this code, and memory for as many scopes as may be open in it.
    pub(crate) fn new(alloc: Global, code: &B::Code) -> Result<Ready<B>, AllocError>
        ensures { IfOk result (IsReady (B.is_for code.now) (B.most_open code.now)) }
    {
        Ok(Ready {
            body: B::blank(alloc, code)?,
            scopes: Scopes::new(alloc, B::scopes_needed(code))?,
        })
    }
}
