// For test programs only: trees and queries, by hand and drawn by chance, pruning straight from the definitions, buffers with a
// pattern, and texts put together from parts. Shares no code with the engine: of the library it knows the types alone.
#![tactic(auto)]

pub mod buffers;
pub mod cells;
pub mod draw;
pub mod hand;
pub mod queries;
pub mod questions;
pub mod texts;
pub mod trees;
