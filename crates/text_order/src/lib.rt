//! Texts and numbers in order.
//!
//! The layers that place items in codegen units order much by texts: items by their symbols and units by their names. They order
//! texts once, into a list of places (`order_of_texts`), and work with places from then on, since numbers are compared and sorted
//! for nothing. Texts are looked up in an ordered map that borrows them (`index_of_texts`).
//! The crate stands on lar_bytes.
#![tactic(auto)]

mod numbers;
mod texts;

pub use numbers::put_in_order;
pub use texts::{find_text, index_of_texts, order_of_texts};

#[cfg(test)]
mod tests;
