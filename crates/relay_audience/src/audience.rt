//! The sessions that watch one view.
use crate::session_list::SessionList;
use crate::shared_view::SharedView;

/// A view that is watched, and the sessions that watch it.
///
/// ```
/// let mut audiences = Audiences::new(alloc);
/// let cards = View::read(alloc, &read(alloc, r#"["/cards"]"#).ok()?).ok()?;
/// audiences.watch(alloc, 7, None, cards).ok()?;
/// let audience = &audiences.all()[0];
/// assert!(rt; audience.sessions.as_slice() == [7].as_slice());
/// assert!(rt; audiences.audience(audience.number)?.view == audience.view);
/// ```
#[derive(Drop)]
pub struct Audience {
    /// The number by which the audience is found, as long as it is there. It is higher than those
    /// of the audiences that were there when it came, and may be that of one that has gone.
    pub number: u64,
    pub view: SharedView,
    pub sessions: SessionList,
}
