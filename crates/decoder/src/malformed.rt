//! What may be malformed in a reply; `fault` adds being out of memory.

use thiserror::Error;

/// What is wrong with a list's body or a watch's line: the first of these, in the order in which it is read.
#[derive(Clone, Copy, Debug, PartialEq, Eq, Error)]
pub enum Malformed {
    /// It is no JSON text, or nests deeper than 127.
    #[error("not JSON, or nested deeper than 127")]
    Json,
    /// It, its `object` or an item is no object.
    #[error("not an object where one is due")]
    Object,
    /// `apiVersion` isn't the asked group and version.
    #[error("apiVersion is not the one asked for")]
    ApiVersion,
    /// `kind` isn't the one due.
    #[error("kind is not the one expected")]
    Kind,
    /// `metadata` is no object.
    #[error("metadata is no object")]
    Metadata,
    /// An object has no name.
    #[error("an object without a name")]
    Name,
    /// An object has no namespace, or another than the asked one.
    #[error("an object without a namespace, or with another one")]
    Namespace,
    /// `resourceVersion` is no version.
    #[error("resourceVersion is no version")]
    Version,
    /// `labels` is no object of texts.
    #[error("labels is not an object of strings")]
    Labels,
    /// An object has a number with a point or an exponent, or outside of 64 bits.
    #[error("a number that is no 64-bit integer")]
    Number,
    /// `continue` is no text.
    #[error("continue is not a string")]
    Token,
    /// `items` is no list.
    #[error("items is not a list")]
    Items,
    /// A line's `type` is none of those of a watch.
    #[error("unknown type of a line")]
    LineType,
}
