//! The audiences of a room, and the tables by which they are found.
ghost use Rattle.std.specs.Prelude.{◌≡◌, ◌++◌, ◌∷◌, [], IfOk, OnOk, OnErr, IsSome, Some, None};
ghost use Rattle.std.specs.Prelude.{nat_lt, true, false, if◌then◌else◌};
ghost use Rattle.std.specs.List.Sorted.{IsPartitionPoint};
ghost use Rattle.std.specs.Option.{option_copied};
ghost use Rattle.relay_audience.specs.Audiences.{joined, next_number, numbered, with_session};
ghost use Rattle.relay_audience.specs.Table.{changed_at, dropped, keys, left_at, number_in};
ghost use Rattle.relay_audience.specs.Table.{parted, place, view_in, IsInOrder, IsTable};

use crate::audience::Audience;
use crate::session_list::SessionList;
use crate::shared_view::SharedView;
use relay_translate::WatchIndex;
use std::alloc::{AllocError, Global};
use std::collections::BTreeMap;

/// The audiences in the order in which they came, so that their numbers rise, the number of each
/// view's audience, and the index of the audiences' views by number.
#[derive(Drop)]
pub struct AudienceTable {
    pub list: Vec<Audience>,
    pub places: BTreeMap<SharedView, u64>,
    pub index: WatchIndex,
}

impl AudienceTable {
    /// Creates a table without audiences. Allocates nothing.
    pub fn new(alloc: Global) -> AudienceTable
        ensures empty { result.list.items ≡ [] }
        ensures table { IsTable result }
    {
        AudienceTable {
            list: Vec::new(alloc),
            places: BTreeMap::new(alloc),
            index: WatchIndex::new(alloc),
        }
    }

    /// Adds a session to the audience of a view, or to a new one, and returns the view as the
    /// audience shares it. An error changes nothing.
    pub fn join(
        &mut self,
        alloc: Global,
        session: u64,
        view: SharedView,
    ) -> Result<SharedView, AllocError>
        requires { IsTable self.old }
        ensures ok { OnOk result (self.new.list.items
            ≡ joined (next_number self.old.list.items) session view self.old.list.items) }
        ensures err { OnErr result (self.new.list.items ≡ self.old.list.items) }
        ensures view { IfOk result (λ shared. shared ≡ view) }
        ensures table { IsTable self.new }
    {
        match self.places.get(&view) {
            Some(number) => join_at(&mut self.list, *number, session),
            None => self.begin(alloc, session, view),
        }
    }

    /// Adds an audience of one session, behind the others. An error changes nothing.
    fn begin(
        &mut self,
        alloc: Global,
        session: u64,
        view: SharedView,
    ) -> Result<SharedView, AllocError>
        requires table { IsTable self.old }
        requires fresh { number_in view (keys self.old.list.items) ≡ None }
        ensures ok { OnOk result (self.new.list.items
            ≡ self.old.list.items ++ record {
              number = next_number self.old.list.items;
              view = view;
              sessions = session ∷ [];
            } ∷ []) }
        ensures err { OnErr result (self.new.list.items ≡ self.old.list.items) }
        ensures view { IfOk result (λ shared. shared ≡ view) }
        ensures table { IsTable self.new }
    {
        let number = next_number(self.list.as_slice())?;
        let shared = view.share()?;
        let audience = Audience {
            number,
            view: view.share()?,
            sessions: SessionList::of(alloc, session)?,
        };
        self.list.reserve(1)?;
        self.index.put(alloc, number, view.get())?;
        match self.places.insert(view, number) {
            Ok(_) => {
                self.list.push_reserved(audience);
                Ok(shared)
            }
            Err(_) => {
                self.index.take_out(number);
                Err(AllocError)
            }
        }
    }

    /// Returns the audience with that number.
    pub fn audience(&self, number: u64) -> Option<&Audience>
        requires { IsTable self.now }
        ensures { option_copied result ≡ numbered number self.now.list.items }
    {
        let place = place_of(self.list.as_slice(), number)?;
        Some(&self.list[place])
    }

    /// Removes a session from the audience of a view, and the audience if it was the last one in
    /// it. Allocates nothing.
    pub fn part(&mut self, session: u64, view: &SharedView)
        requires { IsTable self.old }
        ensures list { self.new.list.items ≡ parted session view.now self.old.list.items }
        ensures table { IsTable self.new }
    {
        let Some(number) = self.places.get(view).copied() else {
            return;
        };
        if leave_at(&mut self.list, number, session) {
            self.places.remove(view);
            self.index.take_out(number);
        }
    }
}

/// Adds a session to the audience with that number, which is there, and returns its view.
fn join_at(list: &mut Vec<Audience>, number: u64, session: u64) -> Result<SharedView, AllocError>
    requires rising { IsInOrder (keys list.old.items) }
    requires there { IsSome (place number list.old.items) }
    ensures ok { OnOk result
        (list.new.items ≡ changed_at number (with_session session) list.old.items) }
    ensures err { OnErr result (list.new.items ≡ list.old.items) }
    ensures view { IfOk result (λ shared. view_in number (keys list.old.items) ≡ Some shared) }
{
    let Some(place) = place_of(list.as_slice(), number) else {
        unreachable!()
    };
    let audience = &mut list[place];
    let view = audience.view.share()?;
    audience.sessions.insert(session)?;
    Ok(view)
}

/// Removes a session from the audience with that number, which is there. Returns true if the
/// audience went, since it was the last one in it.
fn leave_at(list: &mut Vec<Audience>, number: u64, session: u64) -> bool
    requires rising { IsInOrder (keys list.old.items) }
    requires there { IsSome (place number list.old.items) }
    ensures list { list.new.items ≡ left_at number session list.old.items }
    ensures gone { keys list.new.items
        ≡ (if result then dropped number (keys list.old.items) else keys list.old.items) }
{
    let Some(place) = place_of(list.as_slice(), number) else {
        unreachable!()
    };
    let audience = &mut list[place];
    audience.sessions.remove(session);
    let is_last = audience.sessions.is_empty();
    if is_last {
        list.remove(place);
    }
    is_last
}

/// Finds the place of the audience with that number, if it is there. A binary search, since the
/// numbers rise.
fn place_of(list: &[Audience], number: u64) -> Option<usize>
    requires { IsInOrder (keys list.now) }
    ensures { result ≡ place number list.now }
{
    let place = place_from(list, number);
    let audience = list.get(place)?;
    if audience.number == number {
        Some(place)
    } else {
        None
    }
}

/// Counts the audiences with lower numbers.
fn place_from(list: &[Audience], number: u64) -> usize
    requires { IsInOrder (keys list.now) }
    ensures { IsPartitionPoint (λ a. nat_lt a.number number ≡ true)
        (λ a. nat_lt a.number number ≡ false) list.now result }
{
    list.partition_point(|audience| audience.number < number)
}

/// Returns the least number above those of all audiences. `AllocError`: there is none left.
fn next_number(list: &[Audience]) -> Result<u64, AllocError>
    requires { IsInOrder (keys list.now) }
    ensures { IfOk result (λ number. number ≡ next_number list.now) }
{
    let Some(newest) = list.last() else {
        return Ok(0);
    };
    match newest.number.checked_add(1) {
        Some(number) => Ok(number),
        None => Err(AllocError),
    }
}
