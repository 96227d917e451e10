//! The audiences of a room: its sessions, by what they watch.
//!
//! The promise: sessions with equal views are in one audience, sessions with different views in
//! different ones, and [`Audiences::touched`] names exactly the audiences that a change concerns.
//! So an edit is translated once for each audience that it touches, and never for a session.
#![tactic(auto)]

mod audience;
mod audiences;
mod session_list;
mod shared_view;
mod table;
mod view_order;

pub use audience::Audience;
pub use audiences::Audiences;
pub use session_list::SessionList;
pub use shared_view::SharedView;
