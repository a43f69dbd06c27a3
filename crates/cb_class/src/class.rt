//! The size classes of slots, and the class of an object's length.

ghost use Rattle.std.specs.Prelude.{◌≡◌, ◌≢◌, ◌*◌, ◌<◌, ◌≤◌, ◌⊎◌, IfNone, IfSome};
ghost use Rattle.cb_class.specs.declared.class.Class.{Class};
ghost use Rattle.cb_class.specs.Class.{IsClass, IsClassOf, IsClassOfSpan, bytes_of, largest, pages_of, slots_of, words_of};

/// The bytes of a page, as many as a frame holds.
pub const PAGE_BYTES: u32 = 4096;

/// The bytes of a word of memory.
pub const WORD_BYTES: u32 = 8;

/// The words of memory of a frame, which holds one page.
pub const FRAME_WORDS: u32 = PAGE_BYTES / WORD_BYTES;

/// The number of size classes.
pub const CLASSES: usize = 16;

/// The bytes of a slot of each class, by the class's index.
pub const CLASS_BYTES: [u32; CLASSES] = [
    16, 32, 48, 64, 96, 128, 192, 256, 384, 512, 768, 1024, 1536, 2048, 3072, 4096,
];

/// The pages of a span of each class, by the class's index.
pub const CLASS_PAGES: [u32; CLASSES] = [1, 1, 1, 1, 1, 1, 1, 1, 1, 1, 1, 1, 2, 2, 4, 4];

/// The bytes of a slot of the last class, and so the most bytes of an object.
pub const LARGEST: u32 = 4096;

/// A size class, named by its index in the table of sizes: a greater index has greater slots.
#[derive(Clone, Copy, Debug, PartialEq, Eq, PartialOrd, Ord, Hash)]
pub struct Class {
    pub index: u32,
}

/// The class of an object of `len` bytes, 1 to `LARGEST`: the least class whose slots hold it.
pub fn class_of(len: u32) -> Class
    requires some_byte { 1 ≤ len }
    requires fits_largest { len ≤ largest }
    ensures { IsClassOf len result }
{
    let index = CLASS_BYTES.partition_point(|bytes| *bytes < len);
    Class {
        index: index as u32,
    }
}

/// The bytes of a slot of the class, 16 to `LARGEST` and a multiple of 16.
pub fn class_bytes(c: Class) -> u32
    requires { IsClass c }
    ensures bytes { result ≡ bytes_of c }
    ensures at_least { 16 ≤ result }
    ensures at_most { result ≤ largest }
{
    CLASS_BYTES[c.index as usize]
}

/// The pages of a span of the class: 1, 2 or 4 adjacent frames hold them.
pub fn pages(c: Class) -> u32
    requires { IsClass c }
    ensures pages { result ≡ pages_of c }
    ensures known { (result ≡ 1) ⊎ ((result ≡ 2) ⊎ (result ≡ 4)) }
{
    CLASS_PAGES[c.index as usize]
}

/// The slots of a span of the class, 4 to 256: as many as lie whole in the bytes of its pages. Slot
/// s starts at byte s times the class's bytes.
pub fn slots(c: Class) -> u32
    requires { IsClass c }
    ensures slots { result ≡ slots_of c }
    ensures at_least { 4 ≤ result }
    ensures at_most { result ≤ 256 }
    ensures fit { result * bytes_of c ≤ PAGE_BYTES * pages_of c }
{
    PAGE_BYTES * pages(c) / class_bytes(c)
}

/// The class whose spans have so many pages and so many slots, and None where there is none: no two
/// classes have the same pages and the same count of slots. A walk over the table of classes.
pub fn class_of_span(page_count: u32, slot_count: u32) -> Option<Class>
    ensures class { IfSome result (IsClassOfSpan page_count slot_count) }
    ensures none { IfNone result ((c : Class) → IsClassOfSpan page_count slot_count c → ⊥) }
{
    for index in 0..CLASSES as u32 {
        let class = Class { index };
        if pages(class) == page_count && slots(class) == slot_count {
            return Some(class);
        }
    }
    None
}

/// The words of eight bytes of a slot of the class, 2 to `LARGEST / WORD_BYTES`.
pub fn slot_words(c: Class) -> u32
    requires { IsClass c }
    ensures words { result ≡ words_of c }
    ensures at_least { 2 ≤ result }
    ensures at_most { result * WORD_BYTES ≤ largest }
    ensures fill { result * WORD_BYTES ≡ bytes_of c }
{
    class_bytes(c) / WORD_BYTES
}
