// Writing bytes and lines into a lent buffer. Every writer is a method of the page: the buffer with the place where its next byte
// goes; what does not fit is left out. None has a condition on room: specs/Page.antt says what is written, and
// proofs/Page.antt that a text that fits stands there whole.
#![tactic(auto)]

pub mod buffer; // a lent buffer with a place in it
pub mod bytes; // bytes, slices and numbers of two bytes
pub mod digits; // decimal numbers, words and sets of actions
pub mod listing; // the lines of the listing
