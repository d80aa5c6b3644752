//! What is read from words.

use go_ast::Mem;

/// What is read, or nothing, or no memory.
pub type Read<T> = Mem<Option<T>>;
