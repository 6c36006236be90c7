#![tactic(auto)]

// The steps of lowering (`builder.rs` and the labels of `context.rs`), as methods of a CodeBuilder over the lent list slice.
pub mod builder;
pub mod context;
pub mod entries;
pub mod finish;
pub mod function;
pub mod move_list;
