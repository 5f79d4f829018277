//! Elements of XML, written piece by piece, and the grammar that they are in.
#![tactic(auto)]

mod pieces;

pub use pieces::{
    push_attribute, push_close_tag, push_element, push_number, push_number_attribute,
    push_open_tag, push_sum,
};
