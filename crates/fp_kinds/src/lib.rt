//! The kinds of the words in the frames of a code (JVMS SE 21 section 4.10).
#![tactic(auto)]

mod effect;
mod frame;
mod inference;
mod laws;
mod problem;
mod transfer;
mod transfers;
mod words;

pub use frame::{FrameKinds, KindFault, Kinds};
pub use inference::{MOST_FRAME_WORDS, frame_words, kinds};
pub use laws::law_frames;
