//! The operation on a view that a change inside a slot's value becomes.
ghost use Rattle.std.specs.Prelude.{◌≡◌, IfOk, option_copied, if◌then◌else◌};
ghost use Rattle.relay_patch.specs.Weight.{carried};
ghost use Rattle.relay_patch.specs.declared.op.Op.TheVariants as op;
ghost use Rattle.relay_pointer.specs.Path.{is_prefix};
ghost use Rattle.relay_translate.specs.Touch.{touch_place};
ghost use Rattle.relay_translate.specs.Translate.{in_view, move_op, op_of};

use crate::kind::Touch;
use crate::site::Site;
use crate::touching::touch_place;
use relay_patch::{Change, Op, Place};
use relay_pointer::Pointer;
use relay_tree::Tree;
use std::alloc::{AllocError, Global};

impl Site<'_> {
    /// Returns the operation on the view. Copies the value if the operation carries one.
    pub fn operation(&self, alloc: Global, change: &Change) -> Result<Op, AllocError>
        ensures { IfOk result
            (λ o. o ≡ in_view self.now.number self.now.pointer.now
            (op_of self.now.pointer.now change.now)) }
    {
        match change {
            Change::Set { path, value } => Ok(Op::Replace {
                path: self.path(alloc, path)?,
                value: value.copy(alloc)?,
            }),
            Change::AddMember { path, value } | Change::AddItem { path, value } => {
                self.added(alloc, path, value)
            }
            Change::DropMember { path } | Change::DropItem { path } => self.removed(alloc, path),
            Change::Move { from, to, value } => self.moved(alloc, from, to, value),
            Change::Copy { from, to, value } => self.copied(alloc, from, to, value),
        }
    }

    /// Returns the value that the operation carries, if any.
    pub fn carried<'c>(&self, change: &'c Change) -> Option<&'c Tree>
        ensures { option_copied result ≡ carried (op_of self.now.pointer.now change.now) }
    {
        match change {
            Change::Set { value, .. }
            | Change::AddMember { value, .. }
            | Change::AddItem { value, .. } => Some(value),
            Change::DropMember { .. } | Change::DropItem { .. } => None,
            Change::Move { from, value, .. } => match touch_place(from, self.pointer.tokens()) {
                Touch::Inside => None,
                Touch::Apart | Touch::Reset => Some(value),
            },
            Change::Copy { from, .. } if self.pointer.is_prefix(from) => None,
            Change::Copy { value, .. } => Some(value),
        }
    }

    fn added(&self, alloc: Global, path: &Pointer, value: &Tree) -> Result<Op, AllocError>
        ensures { IfOk result
            (λ o. o ≡ in_view self.now.number self.now.pointer.now (op.Add path.now value.now)) }
    {
        Ok(Op::Add {
            path: self.path(alloc, path)?,
            value: value.copy(alloc)?,
        })
    }

    fn removed(&self, alloc: Global, path: &Pointer) -> Result<Op, AllocError>
        ensures { IfOk result
            (λ o. o ≡ in_view self.now.number self.now.pointer.now (op.Remove path.now)) }
    {
        Ok(Op::Remove {
            path: self.path(alloc, path)?,
        })
    }

    /// A move within the value stays a move; one that enters or leaves it becomes an `add` or a
    /// `remove`.
    fn moved(&self, alloc: Global, from: &Place, to: &Place, value: &Tree) -> Result<Op, AllocError>
        ensures { IfOk result
            (λ o. o ≡ in_view self.now.number self.now.pointer.now
            (move_op (touch_place from.now self.now.pointer.now)
            (touch_place to.now self.now.pointer.now) from.now.path to.now.path value.now)) }
    {
        match (
            touch_place(from, self.pointer.tokens()),
            touch_place(to, self.pointer.tokens()),
        ) {
            (Touch::Inside, Touch::Inside) => Ok(Op::Move {
                from: self.path(alloc, &from.path)?,
                path: self.path(alloc, &to.path)?,
            }),
            (Touch::Inside, _) => self.removed(alloc, &from.path),
            _ => self.added(alloc, &to.path, value),
        }
    }

    /// A copy from within the value, or of the whole value, stays a copy; one from elsewhere
    /// becomes an `add`.
    fn copied(
        &self,
        alloc: Global,
        from: &Pointer,
        to: &Place,
        value: &Tree,
    ) -> Result<Op, AllocError>
        ensures { IfOk result
            (λ o. o ≡ in_view self.now.number self.now.pointer.now
            (if is_prefix self.now.pointer.now from.now then op.Copy from.now to.now.path
            else op.Add to.now.path value.now)) }
    {
        if self.pointer.is_prefix(from) {
            Ok(Op::Copy {
                from: self.path(alloc, from)?,
                path: self.path(alloc, &to.path)?,
            })
        } else {
            self.added(alloc, &to.path, value)
        }
    }
}
