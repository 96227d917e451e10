//! The head of an HTTP/1.1 request: parsed within a bound by `httparse`, its fields found by name,
//! its checks made in order.
//!
//! The promise: [`parse_head`] tells a head that is whole from one that can still come, one that is
//! too long and one that can never come (`specs/Parsing.antt`). Names, and the elements of a list,
//! compare without regard to ASCII case, and a field that must be there once is found only if it is
//! there exactly once (`specs/Head.antt`; RFC 9110, section 5). The handshake of a WebSocket and
//! the requests of an operator are both judged by them.
#![tactic(auto)]

mod checks;
mod fields;
mod head;
mod parsing;

pub use checks::{Fault, demand};
pub use fields::{has_element, has_field, only_value};
pub use head::{Head, head_of};
pub use parsing::{Parsed, parse_head};
