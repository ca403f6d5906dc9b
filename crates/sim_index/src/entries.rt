//! The entries of an index.
ghost use Rattle.std.specs.Prelude.{◌≡◌, ◌<◌, filter, vec_len, vec_capacity, count_by, IsTrue, MatchResult};
ghost use Rattle.sim_index.specs.Entries.{is_live, place_of_entry, NumbersRise, HasNumberAt, FindsNumber, StandsBefore, SameEntries, IsPut};

/// A number with its place, or with `GONE`.
#[derive(Clone, Copy)]
pub(crate) struct Entry {
    pub(crate) number: u64,
    pub(crate) place: usize,
}

/// The place of an entry whose number was taken out.
pub(crate) const GONE: usize = usize::MAX;

/// So many marked entries, of 16 bytes each, are many.
const MANY: usize = 65_536;

impl Entry {
    /// The place of its number, if it has one.
    pub(crate) fn known_place(&self) -> Option<usize>
        ensures { result ≡ place_of_entry self.now }
    {
        if self.place == GONE {
            None
        } else {
            Some(self.place)
        }
    }
}

/// Where an entry is looked for before all are searched. Each is tried, so nothing is wrong where one misses.
#[derive(Clone, Copy)]
pub(crate) struct Guesses {
    /// How far the number of the last entry is ahead of its position. Where the last numbers had no gaps, theirs are as
    /// far ahead.
    pub(crate) ahead: u64,
    /// The position of the number that was sought last. The next one is often that of the entry behind, since
    /// numbers are mostly sought in their order.
    pub(crate) sought: usize,
}

/// Whether the entry of a number is at a position.
pub(crate) fn is_at(entries: &[Entry], number: u64, at: usize) -> bool
    ensures { IsTrue result → HasNumberAt entries.now number at }
{
    at < entries.len() && entries[at].number == number
}

/// The position of the entry of a number.
pub(crate) fn position(entries: &[Entry], guesses: Guesses, number: u64) -> Option<usize>
    requires { NumbersRise entries.now }
    ensures { FindsNumber entries.now number result }
{
    let near_the_end = number.wrapping_sub(guesses.ahead) as usize;
    if is_at(entries, number, near_the_end) {
        return Some(near_the_end);
    }
    if is_at(entries, number, guesses.sought) {
        return Some(guesses.sought);
    }
    let behind = guesses.sought.wrapping_add(1);
    if is_at(entries, number, behind) {
        return Some(behind);
    }
    search(entries, number).ok()
}

/// The same, for a number that is not the one sought last. Where it is searched for by halving, it gets a hint.
pub(crate) fn position_by_guesses(
    entries: &[Entry],
    guesses: Guesses,
    hints: &mut [u32],
    number: u64,
) -> Option<usize>
    requires { NumbersRise entries.now }
    ensures { FindsNumber entries.now number result }
{
    let near_the_end = number.wrapping_sub(guesses.ahead) as usize;
    if is_at(entries, number, near_the_end) {
        return Some(near_the_end);
    }
    let behind = guesses.sought.wrapping_add(1);
    if is_at(entries, number, behind) {
        return Some(behind);
    }
    position_by_hint(entries, hints, number)
}

// The same, where only the hint is tried before all are searched.
fn position_by_hint(entries: &[Entry], hints: &mut [u32], number: u64) -> Option<usize>
    requires { NumbersRise entries.now }
    ensures { FindsNumber entries.now number result }
{
    let lowest_bits = hints.len().wrapping_sub(1);
    match hints.get_mut(number as usize & lowest_bits) {
        Some(hint) => {
            let guess = *hint as usize;
            if is_at(entries, number, guess) {
                return Some(guess);
            }
            let at = search(entries, number).ok()?;
            *hint = u32::try_from(at).unwrap_or(u32::MAX);
            Some(at)
        }
        None => search(entries, number).ok(),
    }
}

// The position of the entry of a number, or the one where it would stand.
fn search(entries: &[Entry], number: u64) -> Result<usize, usize>
    requires { NumbersRise entries.now }
    ensures { MatchResult result
        (HasNumberAt entries.now number) (StandsBefore entries.now number) }
{
    match entries.binary_search_by_key(&number, |entry| entry.number) {
        Ok(at) => Ok(at),
        Err(at) => Err(at),
    }
}

/// An entry stands where its number does. All that are greater may move.
pub(crate) fn put(entries: &mut Vec<Entry>, entry: Entry)
    requires rising { NumbersRise entries.old.items }
    requires room { vec_len entries.old < vec_capacity entries.old }
    ensures put { IsPut entries.old.items entry entries.new.items }
    ensures capacity { vec_capacity entries.new ≡ vec_capacity entries.old }
{
    match search(entries.as_slice(), entry.number) {
        Ok(at) => entries[at] = entry,
        Err(at) => match entries.insert(at, entry) {
            Ok(()) => {}
            Err(_) => unreachable!(),
        },
    }
}

/// Takes out the entries whose numbers have no place.
pub(crate) fn compact(entries: &mut Vec<Entry>)
    ensures items { entries.new.items ≡ filter is_live entries.old.items }
    ensures capacity { vec_capacity entries.new ≡ vec_capacity entries.old }
{
    entries.retain(
        |entry: &Entry| -> bool
            ensures { result ≡ is_live entry.now }
        { entry.place != GONE },
    );
}

/// Makes room for one entry more, where fewer have a place than there is room for. Where there are so many entries, those that
/// are marked go before all the room is used, so that not all of it takes memory: the next time as soon as there are many,
/// and as many as now have a place.
pub(crate) fn compact_if_full(entries: &mut Vec<Entry>, most: &mut usize, live: usize)
    ensures same { SameEntries entries.old.items entries.new.items }
    ensures room { count_by is_live entries.old.items < vec_capacity entries.old
        → vec_len entries.new < vec_capacity entries.new }
    ensures capacity { vec_capacity entries.new ≡ vec_capacity entries.old }
{
    if entries.len() >= entries.capacity().min(*most) {
        compact(entries);
        *most = live.saturating_add(live.max(MANY));
    }
}
