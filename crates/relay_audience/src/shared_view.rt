//! A reference-counted view.
use crate::view_order::compare_slots;
use relay_view::View;
use std::alloc::{AllocError, Global};
use std::cmp::Ordering;
use std::marker::Model;
use std::rc::Rc;

/// A view that is shared by reference count. Contracts see it as the view. Shared views are ordered
/// slot by slot: by the pointer's tokens, then a value before a size.
///
/// ```
/// let cards = View::read(alloc, &read(alloc, r#"["/cards"]"#).ok()?).ok()?;
/// let view = SharedView::new(alloc, cards).ok()?;
/// let other = view.share().ok()?;
/// assert!(rt; view == other && other.get().len() == 1);
/// ```
#[derive(Drop)]
pub struct SharedView {
    view: Rc<View>,
}

impl Model for SharedView {
    ghost use Rattle.std.specs.Coded.{coded_list};
    ghost use Rattle.relay_view.specs.View.{View};
    ghost use Rattle.relay_view.specs.contracts.slot.Slot as slot;

    ghost Value = { View };

    ghost coded = { coded_list slot.the_row.coded };

    ghost view = { λ v. v.view.value };
}

impl SharedView {
    ghost use Rattle.std.specs.Prelude.{◌≡◌, IfOk};

    /// Moves a view to the heap, to be shared. If memory runs out, the view is dropped.
    ///
    /// ```
    /// let cards = View::read(alloc, &read(alloc, r#"["/cards"]"#).ok()?).ok()?;
    /// let view = SharedView::new(alloc, cards).ok()?;
    /// assert!(rt; view.get().kind(0) == Some(SlotKind::Value));
    /// ```
    pub fn new(alloc: Global, view: View) -> Result<SharedView, AllocError>
        ensures { IfOk result (λ shared. shared ≡ view) }
    {
        match Rc::new(alloc, view) {
            Ok(view) => Ok(SharedView { view }),
            Err(_) => Err(AllocError),
        }
    }

    /// Shares the view: raises the reference count and allocates nothing. `AllocError`: the count
    /// is at its maximum.
    ///
    /// ```
    /// let cards = View::read(alloc, &read(alloc, r#"["/cards"]"#).ok()?).ok()?;
    /// let view = SharedView::new(alloc, cards).ok()?;
    /// assert!(rt; view.share().ok()?.get().same(view.get()));
    /// ```
    pub fn share(&self) -> Result<SharedView, AllocError>
        ensures { IfOk result (λ shared. shared ≡ self.now) }
    {
        Ok(SharedView {
            view: self.view.clone()?,
        })
    }

    /// Borrows the view.
    ///
    /// ```
    /// let cards = View::read(alloc, &read(alloc, r#"["/cards"]"#).ok()?).ok()?;
    /// let view = SharedView::new(alloc, cards).ok()?;
    /// assert!(rt; view.get().len() == 1);
    /// ```
    pub fn get(&self) -> &View
        ensures { result.now ≡ self.now }
    {
        self.view.as_ref()
    }
}

impl Ord for SharedView {
    ghost use Rattle.std.specs.Prelude.{refl};
    ghost use Rattle.relay_audience.specs.ViewOrder.{view_cmp, view_cmp_total};

    ghost cmp = { view_cmp };

    ghost total = { view_cmp_total };

    ghost matches_partial_cmp = { λ v w. refl };

    ghost matches_eq = { λ v w. refl };

    fn cmp(&self, other: &SharedView) -> Ordering {
        compare_slots(self.get().slots(), other.get().slots())
    }
}

impl PartialOrd for SharedView {
    ghost use Rattle.std.specs.Ordering.{as_partial_cmp};
    ghost use Rattle.relay_audience.specs.ViewOrder.{view_cmp, view_cmp_partial};

    ghost partial_cmp = { as_partial_cmp view_cmp };

    ghost laws = { view_cmp_partial };

    fn partial_cmp(&self, other: &SharedView) -> Option<Ordering> {
        Some(self.cmp(other))
    }
}

impl PartialEq for SharedView {
    ghost use Rattle.relay_audience.specs.ViewOrder.{same_view, same_view_partial};

    ghost eq = { same_view };

    ghost laws = { same_view_partial };

    fn eq(&self, other: &SharedView) -> bool {
        self.cmp(other).is_eq()
    }
}

impl Eq for SharedView {
    ghost use Rattle.relay_audience.specs.ViewOrder.{same_view_equiv};

    ghost laws = { same_view_equiv };
}
