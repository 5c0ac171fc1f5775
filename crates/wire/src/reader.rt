// A reader of elements, which holds what is still unread (01, "an element walk holds the part still unread"). Each step only
// calls `parse_tlv` or `rest` of `element`.
ghost use Rattle.std.specs.Prelude.{◌≡◌};
ghost use Rattle.wire.specs.Element.{element};
ghost use Rattle.wire.specs.Reader.{after_element};

use crate::element::{Element, parse_tlv, rest};

#[derive(Clone, Copy)]
pub struct ElementReader<'a> {
    unread: &'a [u8],
}

impl<'a> ElementReader<'a> {
    // A reader at the front of some octets.
    pub fn new(bytes: &'a [u8]) -> ElementReader<'a>
        ensures { result.unread ≡ bytes.entry }
    {
        ElementReader { unread: bytes }
    }

    // What is still unread.
    pub fn unread(self) -> &'a [u8]
        ensures { result ≡ self.entry.unread }
    {
        self.unread
    }

    // The element at the front of what is unread.
    pub fn front(self) -> Option<Element>
        ensures { result ≡ element self.entry.unread.now }
    {
        parse_tlv(self.unread)
    }

    // The reader past that element; nothing is left where it is unreadable.
    pub fn past(self, element: Option<Element>) -> ElementReader<'a>
        ensures { result.unread.now ≡ after_element self.entry.unread.now element }
    {
        match element {
            Some(read) => ElementReader {
                unread: rest(self.unread, read.end),
            },
            None => ElementReader { unread: &[] },
        }
    }
}
