//! Laws of what automata accept: each function's contract is one.

ghost use Rattle.byte_automata.specs.Words.{ReadsCharacters, ReadsOnlyUtf8};

/// The characters that [`WithinCharacters`] reads of a text's bytes are those of the text.
///
/// [`WithinCharacters`]: crate::WithinCharacters
pub fn characters_are_read()
    //= The characters that are read of a text in UTF-8 are those of the text.
    ensures { ReadsCharacters }
{}

/// No bytes but UTF-8 are characters for [`WithinCharacters`]: neither a form with more bytes than a character needs, nor a surrogate, nor a
/// number above 10FFFF.
///
/// [`WithinCharacters`]: crate::WithinCharacters
pub fn only_utf8_is_read()
    //= Bytes that are read as characters are the UTF-8 of these characters.
    ensures { ReadsOnlyUtf8 }
{}
