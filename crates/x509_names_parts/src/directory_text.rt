//! What directory strings are made of, and their text.

ghost use Rattle.std.specs.Prelude.{◌≡◌, Some, IfOk, IsOk, IsOkAnd, MatchResult};
ghost use Rattle.std.specs.Cow.{cow_str_bytes, IsBorrowedStr};
ghost use Rattle.std.specs.String.{string_bytes};
ghost use Rattle.x509_names_parts.specs.declared.directory_string.DirectoryString.TheVariants as directory;
ghost use Rattle.x509_names_parts.specs.DirectoryTexts.{directory_text, directory_bytes, HoldsText};

use crate::directory_string::DirectoryString;
use std::alloc::{AllocError, Allocator};
use std::borrow::CowStr;
use std::fmt;
use x509_prim::{BmpStringAsn1, PrintableString, PrintableStringAsn1, Utf8String};

impl<A: Allocator> DirectoryString<A> {
    /// The text as a UTF8String. Takes memory for the text alone.
    ///
    /// # Errors
    /// `AllocError` where memory is refused.
    pub fn from_text(alloc: A, text: &str) -> Result<Self, AllocError>
        ensures { IfOk result (λ string. string ≡ directory.Utf8String text.now) }
    {
        let text = String::from_str(alloc, text)?;
        Ok(DirectoryString::Utf8String(Utf8String(text)))
    }

    /// The content: the bytes behind the tag and the length. Takes no memory.
    pub fn as_bytes(&self) -> &[u8]
        ensures { result.now ≡ directory_bytes self.now }
    {
        match self {
            DirectoryString::PrintableString(text) => text.as_bytes(),
            DirectoryString::Utf8String(text) => text.as_bytes(),
            DirectoryString::BmpString(text) => text.as_bytes(),
        }
    }

    /// The characters. In a BMPString a pair of surrogates is one character, and a surrogate without a partner is
    /// U+FFFD (RFC 2781, 2.2). Those of the other two are lent, which takes no memory.
    ///
    /// # Errors
    /// `AllocError` where memory is refused, for a BMPString alone. The string is as it was.
    pub fn to_utf8_lossy(&self, alloc: A) -> Result<CowStr<'_, A>, AllocError>
        ensures text { IfOk result (λ text. cow_str_bytes text ≡ directory_text self.now) }
        ensures lent { HoldsText self.now → IsOkAnd result IsBorrowedStr }
    {
        match self {
            DirectoryString::PrintableString(text) => Ok(CowStr::Borrowed(text.as_str())),
            DirectoryString::Utf8String(text) => Ok(CowStr::Borrowed(text.as_str())),
            DirectoryString::BmpString(_) => Ok(CowStr::Owned(self.to_string(alloc)?)),
        }
    }

    /// The same characters, owned: those of a BMPString are copied, and the others moved, which takes no memory.
    ///
    /// # Errors
    /// The directory string as it was, where memory is refused, for a BMPString alone.
    pub fn into_string(self, alloc: A) -> Result<String<A>, DirectoryString<A>>
        ensures text { MatchResult result (λ text. string_bytes text ≡ directory_text self)
            (λ string. string ≡ self) }
        ensures moved { HoldsText self → IsOk result }
    {
        match self {
            DirectoryString::PrintableString(text) => Ok(text.into_string()),
            DirectoryString::Utf8String(text) => Ok(String::from(text)),
            string => match string.to_string(alloc) {
                Ok(text) => Ok(text),
                Err(AllocError) => Err(string),
            },
        }
    }

    /// The same characters as a UTF8String: those of a BMPString are copied, and the others moved, which takes no
    /// memory.
    ///
    /// # Errors
    /// The directory string as it was, where memory is refused, for a BMPString alone.
    pub fn into_utf8_string(self, alloc: A) -> Result<Utf8String<A>, DirectoryString<A>>
        ensures text { MatchResult result (λ text. text ≡ directory_text self) (λ string. string ≡ self) }
        ensures moved { HoldsText self → IsOk result }
    {
        match self.into_string(alloc) {
            Ok(text) => Ok(Utf8String(text)),
            Err(string) => Err(string),
        }
    }
}

impl<A: Allocator> fmt::Display for DirectoryString<A> {
    ghost output = { λ string. Some (directory_text string) };

    fn fmt<W: fmt::Write>(&self, f: &mut fmt::Formatter<W>) -> fmt::Result {
        match self {
            DirectoryString::PrintableString(text) => f.write_str(text.as_str()),
            DirectoryString::Utf8String(text) => f.write_str(text.as_str()),
            DirectoryString::BmpString(text) => text.fmt(f),
        }
    }
}

impl<A: Allocator> From<String<A>> for DirectoryString<A> {
    ghost from_gives = { λ text string. string ≡ directory.Utf8String (string_bytes text) };

    fn from(text: String<A>) -> Self {
        DirectoryString::Utf8String(Utf8String(text))
    }
}

impl<A: Allocator> From<Utf8String<A>> for DirectoryString<A> {
    ghost from_gives = { λ text string. string ≡ directory.Utf8String text };

    fn from(text: Utf8String<A>) -> Self {
        DirectoryString::Utf8String(text)
    }
}

impl<A: Allocator> From<PrintableString<A>> for DirectoryString<A> {
    ghost from_gives = { λ text string. string ≡ directory.PrintableString text };

    fn from(text: PrintableString<A>) -> Self {
        DirectoryString::PrintableString(PrintableStringAsn1::from(text))
    }
}

impl<A: Allocator> From<PrintableStringAsn1<A>> for DirectoryString<A> {
    ghost from_gives = { λ text string. string ≡ directory.PrintableString text };

    fn from(text: PrintableStringAsn1<A>) -> Self {
        DirectoryString::PrintableString(text)
    }
}

impl<A: Allocator> From<BmpStringAsn1<A>> for DirectoryString<A> {
    ghost from_gives = { λ text string. string ≡ directory.BmpString text };

    fn from(text: BmpStringAsn1<A>) -> Self {
        DirectoryString::BmpString(text)
    }
}
