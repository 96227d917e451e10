//! The cost of a hub's work: an estimate in nanoseconds on the machine of docs/PERFORMANCE.md,
//! within a factor of about two for many values, and of about three for long strings.
//!
//! It is counted where the work is done, so nothing is guessed of a text that was not served yet.
//! What is known to come from a text is counted by the text's values and bytes if that is less than
//! by weight, which has a byte of a string cost as much as an eighth of a number. All else is
//! counted by weight. No clause speaks of it.
use crate::text_size::{Price, TextSize};
use crate::update::Update;
use relay_history::CHANGE_WEIGHT;
use relay_patch::{ApplyFault, Op, Patch};
use relay_proto::{Refusal, Request};
use relay_room::EditFault;
use relay_tree::Budget;

/// A value of a text, and a byte: it is read, becomes part of a tree, and is dropped.
const READ: Price = Price {
    value: 250,
    byte: 2,
};

/// An operation: its paths, and its change.
const OPERATION: u64 = 300;

/// A value of a text that becomes part of the document, and a byte: it is copied for the history,
/// and for the document, and is dropped from both.
const KEPT: Price = Price {
    value: 288,
    byte: 1,
};

/// The same of a unit of weight.
const CHANGED: u64 = 36;

/// So many units of weight are moved in a nanosecond, where something is inserted before them or
/// removed.
const MOVED: u64 = 5;

/// A value of a patch that is made and written, and a byte.
const MADE: Price = Price {
    value: 240,
    byte: 2,
};

/// A unit of weight of a patch that is made and written, or given up.
const TOLD: u64 = 30;

/// A session that is told something.
const SESSION: u64 = 200;

/// A message that is drawn.
const MESSAGE: u64 = 300;

/// So many bytes of a message are copied in a nanosecond.
const COPIED: u64 = 2;

/// A value of a snapshot that is written when it is drawn, and a byte.
const WRITTEN: Price = Price { value: 20, byte: 1 };

/// A unit of weight that a resume compares with a slot.
const COMPARED: u64 = 2;

/// A text of this size is read.
pub(crate) fn reading(size: TextSize) -> u64 {
    size.cost(READ)
}

/// A document of this weight is edited, and the changes have that weight in the history, which
/// counts some for each change that nothing is copied for. The patch came by a text of that size,
/// if it is known.
pub(crate) fn editing(patch: &Patch, size: Option<TextSize>, weight: u64, changed: u64) -> u64 {
    let operations = patch.ops().len() as u64;
    let changed = changed.saturating_sub(operations.saturating_mul(CHANGE_WEIGHT));
    let given = given_weight(patch).min(changed);
    (changed - given)
        .saturating_mul(CHANGED)
        .saturating_add(keeping(size, given))
        .saturating_add(performing(patch, operations, weight))
}

/// The weight of the values that a patch gives. All others are in the document.
fn given_weight(patch: &Patch) -> u64 {
    let mut weight = 0u64;
    for op in patch.ops() {
        if let Op::Add { value, .. } | Op::Replace { value, .. } = op {
            weight = weight.saturating_add(value.weight());
        }
    }
    weight
}

/// Values of this weight, which a text of that size gives, become part of a document.
fn keeping(size: Option<TextSize>, weight: u64) -> u64 {
    let cost = weight.saturating_mul(CHANGED);
    match size {
        Some(size) => cost.min(size.cost(KEPT)),
        None => cost,
    }
}

/// An edit is refused, at an operation or before the first. The ones before that were done to a
/// document of this weight: each may have copied all of it, and was taken back.
pub(crate) fn refusing(patch: &Patch, fault: EditFault, weight: u64) -> u64 {
    let EditFault::Apply(ApplyFault { at: done, .. }) = fault else {
        return 0;
    };
    let mut cost = performing(patch, done, weight);
    for index in 0..done as usize {
        if let Some(Op::Copy { .. }) = patch.ops().get(index) {
            cost = cost.saturating_add(weight.saturating_mul(CHANGED));
        }
    }
    cost
}

/// The first operations of a patch are done. What one inserts or removes moves the parts behind it,
/// which weigh no more than the document.
fn performing(patch: &Patch, operations: u64, weight: u64) -> u64 {
    let mut cost = operations.saturating_mul(OPERATION);
    for index in 0..operations as usize {
        if let Some(Op::Add { .. } | Op::Remove { .. } | Op::Move { .. }) = patch.ops().get(index) {
            cost = cost.saturating_add(weight / MOVED);
        }
    }
    cost
}

/// So many sessions are told of an edit.
pub(crate) fn telling(sessions: u64) -> u64 {
    sessions.saturating_mul(SESSION)
}

/// An update is made for an edit's watchers within a budget. A patch costs by its weight, or by its
/// text if that is less; an attempt at one that was given up by what was left.
pub(crate) fn making(update: &Update, budget: Budget) -> u64 {
    let cost = match (update, budget) {
        (Update::Nothing, _) | (Update::Snapshot, Budget::Unbounded) => 0,
        (Update::Patch(patch), _) => {
            let weight = patch.weight().unwrap_or(u64::MAX);
            let size = TextSize::of(patch.as_str());
            weight.saturating_mul(TOLD).min(size.cost(MADE))
        }
        (Update::Snapshot, Budget::Left(left)) => left.saturating_mul(TOLD),
    };
    OPERATION.saturating_add(cost)
}

/// A request is asked of a room whose history has this weight. If it is a resume, all changes there
/// are compared with each slot of its view.
pub(crate) fn asking(request: &Result<Request, Refusal>, history_weight: u64) -> u64 {
    let Ok(Request::Resume { view, .. }) = request else {
        return 0;
    };
    view.len()
        .saturating_mul(history_weight)
        .saturating_mul(COMPARED)
}

/// A message of so many bytes is drawn that was written before.
pub(crate) fn drawing(bytes: u64) -> u64 {
    MESSAGE.saturating_add(bytes / COPIED)
}

/// A snapshot is drawn, which is this text.
pub(crate) fn showing(text: &str) -> u64 {
    MESSAGE.saturating_add(TextSize::of(text).cost(WRITTEN))
}
