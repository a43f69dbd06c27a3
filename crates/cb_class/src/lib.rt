//! Size classes: the sizes that slots have, and how many slots of each size a span holds.
//! An object lies in a slot of the least class that holds its length.
#![tactic(auto)]

mod class;

pub use class::{
    CLASS_BYTES, CLASS_PAGES, CLASSES, Class, FRAME_WORDS, LARGEST, PAGE_BYTES, WORD_BYTES,
    class_bytes, class_of, class_of_span, pages, slot_words, slots,
};
