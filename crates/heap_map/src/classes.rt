// What a heap's memory consists of.
ghost use Rattle.std.specs.Prelude.{◌≡◌, ◌<◌, ◌≤◌, ◌^◌, if◌then◌else◌};
ghost use Rattle.heap_map.specs.Classes.{is_of_class, class_name, class_place, class_words, number_in, bytes_in, all_bytes, kind_words, letters};

use dlmalloc_chunks::{Extent, Kind};

/// What a part of a heap's memory is used for.
#[derive(Clone, Copy, PartialEq, Eq, Debug)]
pub enum Class {
    /// Blocks in use, with their heads.
    Block,
    /// Free chunks in bins.
    Binned,
    /// The free chunk that is cut first for small requests.
    Victim,
    /// The free chunk at the end of the head segment.
    Top,
    /// The records of segments, and the foot of the top.
    Own,
}

/// Whether extents of a kind are of a class.
pub fn is_in(class: Class, kind: Kind) -> bool
    ensures { result ≡ is_of_class class kind }
{
    match kind {
        Kind::Used => class == Class::Block,
        Kind::Free => class == Class::Binned,
        Kind::Victim => class == Class::Victim,
        Kind::Top => class == Class::Top,
        Kind::Record | Kind::Foot => class == Class::Own,
    }
}

/// The colour of a class, as the class of a rectangle.
pub fn class_name(class: Class) -> &'static str
    ensures { result.now ≡ class_name class }
{
    match class {
        Class::Block => "u",
        Class::Binned => "f",
        Class::Victim => "v",
        Class::Top => "t",
        Class::Own => "o",
    }
}

/// The place of a class in the legend.
pub fn class_place(class: Class) -> u128
    ensures value { result ≡ class_place class }
    ensures few { result ≤ 4 }
{
    match class {
        Class::Block => 0,
        Class::Binned => 1,
        Class::Victim => 2,
        Class::Top => 3,
        Class::Own => 4,
    }
}

/// What a class is called in the legend.
pub fn class_words(class: Class) -> &'static str
    ensures { result.now ≡ class_words class }
{
    match class {
        Class::Block => "blocks",
        Class::Binned => "free chunks in bins",
        Class::Victim => "victim: cut first",
        Class::Top => "top: the end of the heap",
        Class::Own => "records and foot",
    }
}

/// What an extent is called in the map.
pub fn kind_words(kind: Kind) -> &'static str
    ensures { result.now ≡ kind_words kind }
{
    match kind {
        Kind::Used => "block",
        Kind::Free => "free",
        Kind::Victim => "victim",
        Kind::Top => "top",
        Kind::Record => "record",
        Kind::Foot => "foot",
    }
}

/// The class of the letters on an extent.
pub fn letters(kind: Kind) -> &'static str
    ensures { result.now ≡ letters kind }
{
    match kind {
        Kind::Free => "m on",
        Kind::Top => "m faint",
        Kind::Used | Kind::Victim | Kind::Record | Kind::Foot => "m in",
    }
}

/// How many extents are of a class.
pub fn number_in(extents: &[Extent], class: Class) -> u64
    ensures { result ≡ number_in class extents.now }
{
    let mut number = 0;
    for extent in extents {
        if is_in(class, extent.kind) {
            number += 1;
        }
    }
    number
}

/// The bytes of the extents of a class.
pub fn bytes_in(extents: &[Extent], class: Class) -> u128
    ensures value { result ≡ bytes_in class extents.now }
    ensures few { result < 2 ^ 127 }
{
    let mut bytes = 0;
    for extent in extents {
        if is_in(class, extent.kind) {
            bytes += u128::from(extent.size);
        }
    }
    bytes
}

/// The bytes of all extents.
pub fn all_bytes(extents: &[Extent]) -> u128
    ensures value { result ≡ all_bytes extents.now }
    ensures few { result < 2 ^ 127 }
{
    let mut bytes = 0;
    for extent in extents {
        bytes += u128::from(extent.size);
    }
    bytes
}
