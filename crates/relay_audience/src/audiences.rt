//! The audiences of a room.
ghost use Rattle.std.specs.Prelude.{◌≡◌, ℕ, [], map as each, nat_eq, Some, None};
ghost use Rattle.std.specs.Prelude.{IfOk, OnOk, OnErr};
ghost use Rattle.std.specs.List.{list_any};
ghost use Rattle.std.specs.List.Sorted.{IsStrictlyIncreasing};
ghost use Rattle.std.specs.Option.{option_copied};
ghost use Rattle.relay_audience.specs.Audiences.{numbered, numbers_touched, sees, view_of, watched};
ghost use Rattle.relay_audience.specs.Audiences.{without, AreComplete, AreExact, ChangesViewOf};
ghost use Rattle.relay_audience.specs.Audiences.{IsAudiences, OthersStay};

use crate::audience::Audience;
use crate::shared_view::SharedView;
use crate::table::AudienceTable;
use relay_patch::Change;
use relay_view::View;
use std::alloc::{AllocError, Global};
use std::marker::Model;

/// The audiences of a room: one for each view that some session watches, in the order in which they
/// came. Contracts see them as that list. A session is in at most one.
///
/// ```
/// let mut audiences = Audiences::new(alloc);
/// let cards = View::read(alloc, &read(alloc, r#"["/cards"]"#).ok()?).ok()?;
/// audiences.watch(alloc, 7, None, cards).ok()?;
/// let cards = View::read(alloc, &read(alloc, r#"["/cards"]"#).ok()?).ok()?;
/// audiences.watch(alloc, 8, None, cards).ok()?;
/// assert!(rt; audiences.all().len() == 1);
/// assert!(rt; audiences.all()[0].sessions.as_slice() == [7, 8].as_slice());
/// ```
#[derive(Drop)]
pub struct Audiences {
    table: AudienceTable,
}

impl Model for Audiences {
    ghost use Rattle.std.specs.Prelude.{List};
    ghost use Rattle.std.specs.Coded.{codes};
    ghost use Rattle.relay_audience.specs.contracts.audience.Audience as audience;
    ghost use Rattle.relay_audience.specs.declared.audience.Audience.{Audience};
    ghost use Rattle.relay_audience.specs.Audiences.{AreFilled, EachSessionOnce};
    ghost use Rattle.relay_audience.specs.Table.{IsTable};

    ghost Value = { List Audience };

    ghost coded = { Prim.hlevel (codes, audience.the_row.coded) };

    ghost view = { λ a. a.table.list.items };

    ghost invariant = { λ a. IsTable a.table × AreFilled a.table.list.items
        × EachSessionOnce a.table.list.items };
}

impl Audiences {
    /// Creates a room without audiences. Allocates nothing.
    ///
    /// ```
    /// let audiences = Audiences::new(alloc);
    /// assert!(rt; audiences.all().is_empty());
    /// ```
    pub fn new(alloc: Global) -> Audiences
        ensures { result ≡ [] }
    {
        Audiences {
            table: AudienceTable::new(alloc),
        }
    }

    /// Sets the view that a session watches, in place of the former one, which is the argument if
    /// there is one. Returns the view as the session's audience shares it. `AllocError`: memory ran
    /// out, or the view is shared or audiences were numbered as often as can be counted; nothing
    /// changes.
    ///
    /// Costs a look-up of each of the two views by their tokens, and for the first session of a
    /// view what [`relay_translate::WatchIndex::put`] costs.
    ///
    /// ```
    /// let mut audiences = Audiences::new(alloc);
    /// let cards = View::read(alloc, &read(alloc, r#"["/cards"]"#).ok()?).ok()?;
    /// let former = audiences.watch(alloc, 7, None, cards).ok()?;
    /// let title = View::read(alloc, &read(alloc, r#"["/title"]"#).ok()?).ok()?;
    /// let view = audiences.watch(alloc, 7, Some(&former), title).ok()?;
    /// // Nobody watches the cards any more.
    /// assert!(rt; audiences.all().len() == 1 && audiences.all()[0].view == view);
    /// ```
    pub fn watch(
        &mut self,
        alloc: Global,
        session: u64,
        former: Option<&SharedView>,
        view: View,
    ) -> Result<SharedView, AllocError>
        requires { view_of session self.old ≡ option_copied former }
        ensures ok { OnOk result (self.new ≡ watched session view self.old) }
        ensures only { OnOk result (ChangesViewOf session (Some view) self.old self.new) }
        ensures err { OnErr result (self.new ≡ self.old) }
        ensures view { IfOk result (λ shared. shared ≡ view) }
    {
        let Some(former) = former else {
            return self
                .table
                .join(alloc, session, SharedView::new(alloc, view)?);
        };
        if former.get().same(&view) {
            return former.share();
        }
        let view = SharedView::new(alloc, view)?;
        let view = self.table.join(alloc, session, view)?;
        self.table.part(session, former);
        Ok(view)
    }

    /// Removes a session, which watches that view. If it was the last one of its audience, the
    /// audience goes. Allocates nothing. Costs a look-up of the view by its tokens.
    ///
    /// ```
    /// let mut audiences = Audiences::new(alloc);
    /// let cards = View::read(alloc, &read(alloc, r#"["/cards"]"#).ok()?).ok()?;
    /// let view = audiences.watch(alloc, 7, None, cards).ok()?;
    /// audiences.unwatch(7, &view);
    /// assert!(rt; audiences.all().is_empty());
    /// ```
    pub fn unwatch(&mut self, session: u64, view: &SharedView)
        requires { view_of session self.old ≡ Some view.now }
        ensures left { self.new ≡ without session self.old }
        ensures only { ChangesViewOf session None self.old self.new }
    {
        self.table.part(session, view);
    }

    /// Borrows the audiences, in the order in which they came: their numbers rise.
    ///
    /// ```
    /// let mut audiences = Audiences::new(alloc);
    /// let cards = View::read(alloc, &read(alloc, r#"["/cards"]"#).ok()?).ok()?;
    /// audiences.watch(alloc, 7, None, cards).ok()?;
    /// let title = View::read(alloc, &read(alloc, r#"["/title"]"#).ok()?).ok()?;
    /// audiences.watch(alloc, 3, None, title).ok()?;
    /// assert!(rt; audiences.all()[1].sessions.as_slice() == [3].as_slice());
    /// ```
    pub fn all(&self) -> &[Audience]
        ensures same { result.now ≡ self.now }
        ensures apart { IsAudiences self.now }
        ensures exact { AreExact self.now }
        ensures complete { AreComplete self.now }
    {
        self.table.list.as_slice()
    }

    /// Returns the view that a session watches, or `None` if it watches nothing. Allocates nothing.
    /// Costs a binary search in each audience until one has the session: who calls often keeps the
    /// view that [`Audiences::watch`] returns.
    ///
    /// ```
    /// let mut audiences = Audiences::new(alloc);
    /// let cards = View::read(alloc, &read(alloc, r#"["/cards"]"#).ok()?).ok()?;
    /// audiences.watch(alloc, 7, None, cards).ok()?;
    /// assert!(rt; audiences.view_of(7)?.get().len() == 1 && audiences.view_of(8).is_none());
    /// ```
    pub fn view_of(&self, session: u64) -> Option<&SharedView>
        ensures { option_copied result ≡ view_of session self.now }
    {
        for audience in self.all() {
            if audience.sessions.contains(session) {
                return Some(&audience.view);
            }
        }
        None
    }

    /// Returns the audience with that number. A binary search.
    ///
    /// ```
    /// let mut audiences = Audiences::new(alloc);
    /// let cards = View::read(alloc, &read(alloc, r#"["/cards"]"#).ok()?).ok()?;
    /// audiences.watch(alloc, 7, None, cards).ok()?;
    /// let number = audiences.all()[0].number;
    /// assert!(rt; audiences.audience(number)?.sessions.as_slice() == [7].as_slice());
    /// ```
    pub fn audience(&self, number: u64) -> Option<&Audience>
        ensures { option_copied result ≡ numbered number self.now }
    {
        self.table.audience(number)
    }

    /// Returns the numbers of the audiences with a slot that some change touches, in the order in
    /// which they came, each once. For every other audience the changes translate to no operation.
    /// Costs what [`relay_translate::WatchIndex::touched`] costs, however many sessions there are.
    ///
    /// ```
    /// let mut audiences = Audiences::new(alloc);
    /// let cards = View::read(alloc, &read(alloc, r#"["/cards"]"#).ok()?).ok()?;
    /// audiences.watch(alloc, 7, None, cards).ok()?;
    /// let change = Change::DropItem { path: Pointer::read(alloc, "/cards/0", 64).ok()? };
    /// let touched = audiences.touched(alloc, &[&change]).ok()?;
    /// assert!(rt; touched.as_slice() == [audiences.all()[0].number].as_slice());
    /// ```
    pub fn touched(&self, alloc: Global, changes: &[&Change]) -> Result<Vec<u64>, AllocError>
        ensures rising { IfOk result (λ numbers. IsStrictlyIncreasing numbers.items) }
        ensures exact { IfOk result
            (λ numbers. (n : ℕ)
            → list_any (nat_eq n) numbers.items
            ≡ sees (each (λ c. c.now) changes.now) self.now n) }
        ensures others { IfOk result
            (λ numbers. OthersStay (each (λ c. c.now) changes.now) self.now numbers.items) }
        ensures are { IfOk result
            (λ numbers. numbers.items
            ≡ numbers_touched (each (λ c. c.now) changes.now) self.now) }
        ensures apart { IsAudiences self.now }
    {
        self.table.index.touched(alloc, changes)
    }
}
