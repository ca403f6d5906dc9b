//! The users of a desk.
ghost use Rattle.std.specs.Prelude.{◌≡◌, ◌≢◌, ◌+◌, ◌-◌, ◌<◌, ◌≤◌, ◌==◌, ◌^◌, [], ◌∷◌, ◌++◌, true, false, not, map, Some, length, All, AllPairs, IsTrue, IsOk, OnOk, HoldsAt};
ghost use Rattle.std.specs.VecDeque.{deque_len, deque_capacity};
ghost use Rattle.std.specs.List.{list_any, position};
ghost use Rattle.std.specs.List.Sorted.{IsPartitionPoint, IsPartitionedBy};
ghost use Rattle.sim_machine.specs.State.{User};
ghost use Rattle.sim_machine.specs.Keys as keys;
ghost use Rattle.sim_machine.specs.Events.{is_same};
ghost use Rattle.sim_machine.specs.Users.{last_served};
ghost use Rattle.sim_shared_model.specs.Attempts.{users_but};
ghost use Rattle.sim_shared_model.specs.Sorting.{IsInOrderBy, put_behind};
ghost use Rattle.sim_resource.specs.GrantOrder.{as_granted, stands_before, numbered_but, IsWithoutLast, IsNextGrant, with_number};

use crate::key::is_served_first;
use crate::preempted::Preempted;
use crate::user::{NumberedUser, User};
use sim_places::find_place;
use sim_types::{EventId, RequestKey};
use std::alloc::{AllocError, Global};
use std::collections::VecDeque;
use std::marker::Model;

/// The users of a desk, which contracts see in the order of grant.
#[derive(Drop)]
pub(crate) struct Users {
    // Whether they stand by their keys, so that the one who is preempted first is the last.
    ranked: bool,
    // In the order of grant; where they are ranked, by their keys, and those with equal keys in the order of grant. Who is
    // released mostly stands near the first, who is preempted stands last, and few others move for either.
    users: VecDeque<NumberedUser>,
    // The number of the next grant.
    next: u64,
    // A request that was preempted is released all the same, mostly soon. While it is remembered here, no user is looked at
    // for it.
    preempted: Preempted,
}

impl Model for Users {
    ghost use Rattle.std.specs.Prelude.{◌-◌};
    ghost use Rattle.std.specs.VecDeque.{deque_len, deque_capacity};
    ghost use Rattle.sim_resource.specs.GrantOrder.{UsersOf, as_granted, IsSoundUsers};
    ghost use Rattle.sim_resource.specs.PreemptedOf.{NoUserIsRemembered};

    ghost Value = { UsersOf };

    ghost view = { λ a. record {
      ranked = a.ranked;
      users = as_granted a.users.items;
      spare = deque_capacity a.users - deque_len a.users;
    } };

    ghost invariant = { λ a. IsSoundUsers a.ranked a.next a.users.items
        × NoUserIsRemembered a.preempted (as_granted a.users.items) };
}

// How many users a request of this key does not come before: they stand before all others.
fn place_of_key(users: &VecDeque<NumberedUser>, key: RequestKey) -> usize
    requires { IsInOrderBy stands_before users.now.items }
    ensures within { result ≤ length users.now.items }
    ensures place { IsPartitionPoint (λ g. keys.is_served_first key g.user.key ≡ false)
        (λ g. keys.is_served_first key g.user.key ≡ true) users.now.items result }
{
    users.partition_point(
        |numbered: &NumberedUser| -> bool
            ensures { result ≡ not (keys.is_served_first key numbered.now.user.key) }
        { !is_served_first(key, numbered.user.key()) },
    )
}

// One more user, ranked by its key.
fn put_by_key(users: &mut VecDeque<NumberedUser>, numbered: NumberedUser)
    requires in_order { IsInOrderBy stands_before users.old.items }
    requires room { deque_len users.old < deque_capacity users.old }
    ensures put { users.new.items ≡ put_behind stands_before numbered users.old.items }
    ensures len { deque_len users.new ≡ deque_len users.old + 1 }
    ensures capacity { deque_capacity users.old ≤ deque_capacity users.new }
{
    let place = place_of_key(users, numbered.user.key());
    match users.insert(place, numbered) {
        Ok(()) => {}
        Err(_) => unreachable!(),
    }
}

// The place of the user of a request. The numbers of requests rise where they were granted in the order of arrival.
fn place_of(users: &VecDeque<NumberedUser>, request: EventId) -> Option<usize>
    requires apart { AllPairs (λ g h. g.user.request ≢ h.user.request) users.now.items }
    ensures { result ≡ position (λ g. is_same g.user.request request) users.now.items }
{
    find_place(
        users.len(),
        |place: usize| -> bool
            requires { place < length users.now.items }
        { users[place].user.request().0 < request.0 },
        |place: usize| -> bool
            requires { place < length users.now.items }
            ensures { HoldsAt (λ g. result ≡ (g.user.request.0 == request.0))
                users.entry.now.items place }
        { users[place].user.request().0 == request.0 },
    )
}

// A request is a user no longer. Whether it was.
fn take_out(users: &mut VecDeque<NumberedUser>, request: EventId) -> bool
    requires apart { AllPairs (λ g h. g.user.request ≢ h.user.request) users.old.items }
    ensures used { result ≡ list_any (λ g. is_same g.user.request request) users.old.items }
    ensures others { users.new.items ≡ numbered_but request users.old.items }
    ensures no_more { deque_len users.new ≤ deque_len users.old }
    ensures capacity { deque_capacity users.new ≡ deque_capacity users.old }
{
    match place_of(users, request) {
        Some(place) => {
            users.remove(place);
            true
        }
        None => false,
    }
}

// The last is a user no longer. The answer is its request.
fn take_last(users: &mut VecDeque<NumberedUser>) -> EventId
    requires { 0 < length users.old.items }
    ensures last { IsWithoutLast result users.old.items users.new.items }
    ensures fewer { deque_len users.new + 1 ≡ deque_len users.old }
    ensures capacity { deque_capacity users.new ≡ deque_capacity users.old }
{
    match users.pop_back() {
        Some(last) => last.user.request(),
        None => unreachable!(),
    }
}

// The least number of a grant that is not below `next`.
fn least_from(users: &[NumberedUser], next: u64) -> Option<u64>
    ensures { IsNextGrant next users.now result }
{
    let mut least = None;
    for numbered in users {
        match least {
            Some(grant) if grant <= numbered.grant => {}
            _ if numbered.grant < next => {}
            _ => least = Some(numbered.grant),
        }
    }
    least
}

// Who has the number `from` has the number `to` from now on.
fn change_number(users: &mut [NumberedUser], from: u64, to: u64)
    ensures { users.new ≡ map (with_number from to) users.old }
{
    for numbered in users.iter_mut() {
        if numbered.grant == from {
            numbered.grant = to;
        }
    }
}

// Numbers the users anew from 0, in the same order. The number of the next grant.
#[cold]
fn number_anew(users: &mut [NumberedUser]) -> u64
    ensures users { map (λ g. g.user) users.new ≡ map (λ g. g.user) users.old }
    ensures order { as_granted users.new ≡ as_granted users.old }
    ensures numbered { All (λ g. g.grant < result) users.new }
    ensures few { result ≤ length users.old }
{
    let mut next = 0;
    while let Some(least) = least_from(users, next) {
        change_number(users, least, next);
        next += 1;
    }
    next
}

// The number of the next grant, which is not the greatest that there is: where the numbers have come to their end, the
// users are numbered anew.
fn number_next(users: &mut VecDeque<NumberedUser>, next: u64) -> u64
    requires numbered { All (λ g. g.grant < next) users.old.items }
    ensures users { map (λ g. g.user) users.new.items ≡ map (λ g. g.user) users.old.items }
    ensures order { as_granted users.new.items ≡ as_granted users.old.items }
    ensures numbered { All (λ g. g.grant < result) users.new.items }
    ensures not_last { result < 2 ^ 64 - 1 }
    ensures len { deque_len users.new ≡ deque_len users.old }
    ensures capacity { deque_capacity users.new ≡ deque_capacity users.old }
{
    if next < u64::MAX {
        next
    } else {
        number_anew(users.make_contiguous())
    }
}

impl Users {
    /// No users, who are ranked by their keys, or not.
    pub(crate) fn new(alloc: Global, ranked: bool) -> Users
        ensures ranked { result.ranked ≡ ranked }
        ensures users { result.users ≡ [] }
    {
        Users {
            ranked,
            users: VecDeque::new(alloc),
            next: 0,
            preempted: Preempted::new(alloc),
        }
    }

    /// Makes room for so many more.
    pub(crate) fn reserve(&mut self, more: usize) -> Result<(), AllocError>
        ensures kept { self.new ≡ record self.old { spare = self.new.spare } }
        ensures room { OnOk result (more ≤ self.new.spare) }
        ensures never_less { self.old.spare ≤ self.new.spare }
        ensures succeeds { more ≤ self.old.spare → IsOk result }
    {
        if more <= self.users.capacity() - self.users.len() {
            return Ok(());
        }
        self.users.reserve(more)?;
        if self.ranked {
            self.preempted.reserve(self.users.capacity())?;
        }
        Ok(())
    }

    /// How many there are.
    pub(crate) fn len(&self) -> usize
        ensures { result ≡ length self.now.users }
    {
        self.users.len()
    }

    /// The one who is preempted first: of the greatest key, and among equals the last granted.
    pub(crate) fn last_served(&self) -> Option<User>
        requires ranked { IsTrue self.now.ranked }
        ensures { result ≡ last_served self.now.users }
    {
        let last = self.users.back().copied()?;
        Some(last.user)
    }

    /// One more user, who was granted last.
    pub(crate) fn put(&mut self, user: User)
        requires room { 1 ≤ self.old.spare }
        requires apart { All (λ u. u.request ≢ user.request) self.old.users }
        ensures users { self.new.users ≡ self.old.users ++ user ∷ [] }
        ensures ranked { self.new.ranked ≡ self.old.ranked }
        ensures spare { self.old.spare ≤ self.new.spare + 1 }
    {
        self.preempted.remove(user.request());
        let grant = number_next(&mut self.users, self.next);
        self.next = grant + 1;
        let numbered = NumberedUser { user, grant };
        if self.ranked {
            put_by_key(&mut self.users, numbered);
        } else {
            self.users.push_back_reserved(numbered);
        }
    }

    /// A request is a user no longer. Whether it was.
    pub(crate) fn remove(&mut self, request: EventId) -> bool
        requires apart { AllPairs (λ u v. u.request ≢ v.request) self.old.users }
        ensures used { result ≡ list_any (λ u. is_same u.request request) self.old.users }
        ensures others { self.new.users ≡ users_but request self.old.users }
        ensures ranked { self.new.ranked ≡ self.old.ranked }
        ensures spare { self.new.spare + length self.new.users
            ≡ self.old.spare + length self.old.users }
    {
        if self.preempted.contains(request) {
            return false;
        }
        take_out(&mut self.users, request)
    }

    /// The one who is preempted first is a user no longer.
    pub(crate) fn remove_last_served(&mut self)
        requires ranked { IsTrue self.old.ranked }
        requires apart { AllPairs (λ u v. u.request ≢ v.request) self.old.users }
        requires some { 0 < length self.old.users }
        ensures others { (u : User) → last_served self.old.users ≡ Some u →
            self.new.users ≡ users_but u.request self.old.users }
        ensures ranked { self.new.ranked ≡ self.old.ranked }
        ensures fewer { length self.new.users + 1 ≡ length self.old.users }
        ensures spare { self.new.spare ≡ self.old.spare + 1 }
    {
        let request = take_last(&mut self.users);
        self.preempted.insert(request);
    }
}
