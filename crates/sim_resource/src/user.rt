ghost use Rattle.std.specs.Prelude.{◌≡◌};
ghost use Rattle.sim_shared_model.specs.Attempts.{user_of};

use sim_shared_model::WaitingRequest;
use sim_types::{EventId, ProcId, RequestKey};
use std::marker::Model;

/// A request that was granted.
#[derive(Clone, Copy)]
pub(crate) struct User {
    request: EventId,
    process: ProcId,
    key: RequestKey,
    // The time of its grant.
    since: i64,
}

impl Model for User {
    ghost use Rattle.sim_machine.specs.State as state;

    ghost Value = { state.User };

    ghost view = { λ a. record {
      request = a.request;
      process = a.process;
      key = a.key;
      since = a.since;
    } };

    ghost inverse = { λ d. record {
      request = d.request;
      process = d.process;
      key = d.key;
      since = d.since;
    } };
}

impl User {
    /// A waiting request is granted at this time.
    pub(crate) fn new(waiting: WaitingRequest, since: i64) -> User
        ensures { result ≡ user_of waiting since }
    {
        User {
            request: waiting.request,
            process: waiting.process,
            key: waiting.key,
            since,
        }
    }

    /// The request that was granted.
    pub(crate) fn request(&self) -> EventId
        ensures { result ≡ self.now.request }
    {
        self.request
    }

    /// The process whose request it is.
    pub(crate) fn process(&self) -> ProcId
        ensures { result ≡ self.now.process }
    {
        self.process
    }

    /// What the request waited by.
    pub(crate) fn key(&self) -> RequestKey
        ensures { result ≡ self.now.key }
    {
        self.key
    }

    /// The time since which it is a user.
    pub(crate) fn since(&self) -> i64
        ensures { result ≡ self.now.since }
    {
        self.since
    }
}

/// A user beside the number of its grant.
#[derive(Clone, Copy)]
pub(crate) struct NumberedUser {
    pub(crate) user: User,
    /// Greater than the numbers of all others that were granted before.
    pub(crate) grant: u64,
}
