//! The operations of JSON Patch, as read.

use crate::pointer::Pointer;
use serde_json::Value;

/// What an operation's `op` says.
#[derive(Clone, Copy, Debug)]
pub(crate) enum OperationName {
    Add,
    Remove,
    Replace,
    Move,
    Copy,
    Test,
}

/// An operation. `Move` and `Copy` have what is moved or copied first, and then where to.
#[derive(Debug, Drop)]
pub enum Operation {
    Add(Pointer, Value),
    Remove(Pointer),
    Replace(Pointer, Value),
    Move(Pointer, Pointer),
    Copy(Pointer, Pointer),
    Test(Pointer, Value),
}
