//! Two structures as a user writes them, over `x509_der::parts` alone: their laws follow from those of the parts.

ghost use Rattle.std.specs.Prelude.{◌≡◌, ℕ, List, refl};
ghost use Rattle.x509_der.specs.Fields.{Stands};
ghost use Rattle.x509_der.specs.Structure.{structure};
ghost use Rattle.x509_der.specs.Tally.{Tally};
ghost use Rattle.x509_der.specs.laws.Structure.{structure_lawful, structure_element};
ghost use Rattle.x509_tests.specs.OwnStructures.{Options as OptionFields, options, flag_apart, octets_apart};
ghost use Rattle.x509_tests.specs.OwnStructures.{Letter as LetterFields, letter};

use super::fields::Field as Place;
use super::rows::{Heap, Row, Table, all_coded};
use refusing::Refusing;
use std::alloc::Allocator;
use std::marker::Model;
use std::process::Abort;
use x509_der::laws::fields;
use x509_der::parts::{
    ContextConstructed, ContextPrimitive, Field, Join, One, Optional, Output, Reader, Ref,
    SEQUENCE_TAG, Sequence, Structure, Tagged, known_there, pass_fields, read_fields,
};
use x509_der::{FromDer, OctetStringAsn1, ReadError, ToDer, TooLong};
use x509_prim::{
    BmpStringAsn1, GeneralizedTimeAsn1, Ia5StringAsn1, PrintableStringAsn1, UtcTimeAsn1, Utf8String,
};

/// Three fields that may be absent.
///
/// # Encoding
/// `SEQUENCE { number [0] EXPLICIT INTEGER (0..255) OPTIONAL, flag [1] EXPLICIT BOOLEAN OPTIONAL, octets [2] IMPLICIT
/// OCTET STRING OPTIONAL }`
#[derive(Drop)]
struct Options<A: Allocator> {
    number: Option<u8>,
    flag: Option<bool>,
    octets: Option<OctetStringAsn1<A>>,
}

impl<A: Allocator> Model for Options<A> {
    ghost use Rattle.x509_tests.specs.OwnStructures.{Options as OptionFields};

    ghost Value = { OptionFields };

    ghost view = { λ v. (v.number, (v.flag, v.octets)) };

    ghost inverse = { λ f. record { number = f.0; flag = f.1.0; octets = f.1.1 } };
}

/// The fields, owned or borrowed.
type OptionNest<N, F, O> = Tagged<
    Sequence,
    Join<
        Optional<Tagged<ContextConstructed<0>, One<N>>>,
        Join<
            Optional<Tagged<ContextConstructed<1>, One<F>>>,
            One<Optional<Tagged<ContextPrimitive<2>, O>>>,
        >,
    >,
>;

/// The fields, owned.
type OwnedOptions<A> = OptionNest<u8, bool, OctetStringAsn1<A>>;

/// The fields, borrowed.
type WrittenOptions<'a, A> = OptionNest<Ref<'a, u8>, Ref<'a, bool>, Ref<'a, OctetStringAsn1<A>>>;

/// The fields, to be written.
fn written_options<A: Allocator>(value: &Options<A>) -> WrittenOptions<'_, A>
    ensures { result ≡ value.now }
{
    let rest = Join(
        Optional::borrowed_element(&value.flag),
        One(Optional::borrowed_content(&value.octets)),
    );
    Tagged::new(Join(Optional::borrowed_element(&value.number), rest))
}

impl<A: Allocator> ToDer for Options<A> {
    ghost strict = { λ v. options.strict v };

    fn put<O: Output>(&self, out: &mut [u8], at: usize) -> Result<usize, TooLong> {
        written_options(self).put::<O>(out, at)
    }
}

impl<A: Allocator> Structure<OwnedOptions<A>> for Options<A> {
    ghost fields = { λ v. v };

    fn from_fields(parts: OwnedOptions<A>) -> Self {
        let Join(number, Join(flag, One(octets))) = parts.into_inner();
        Options {
            number: number.into_value(),
            flag: flag.into_value(),
            octets: octets.into_inner(),
        }
    }

    ghost same = { λ v w e. e };

    ghost made = { λ f. (f, refl) };
}

impl<A: Allocator + Copy> Field<A> for Options<A> {
    type Brief = ();

    ghost brief = { λ v. tt };

    ghost shape = { structure (λ v. v) options };

    ghost lawful = { λ h. structure_lawful (λ v. v) options (λ v w e. e)
        (⟦<OwnedOptions<A> as Field<A>>⟧.lawful ((tt, tt), ((tt, tt), (tt, tt), octets_apart), flag_apart)) };

    ghost elements = { λ h. structure_element (λ v. v) options
        (⟦<OwnedOptions<A> as Field<A>>⟧.elements tt) };

    ghost agrees = { λ v. refl };

    fn starts(byte: u8) -> bool {
        byte == SEQUENCE_TAG
    }

    fn known(&self) {
        known_there::<u8, A>(&self.number);
        known_there::<bool, A>(&self.flag);
        known_there::<OctetStringAsn1<A>, A>(&self.octets);
    }

    fn read(alloc: A, reader: &mut Reader<'_, A>) -> Result<Self, ReadError> {
        read_fields::<Self, OwnedOptions<A>, A>(alloc, reader)
    }

    fn pass(alloc: A, reader: &mut Reader<'_, A>) -> Result<(), ReadError> {
        pass_fields::<Self, OwnedOptions<A>, A>(alloc, reader)
    }
}

impl<A: Allocator + Copy> FromDer<A> for Options<A> {
    ghost stands_alone = { (tt, tt) };
}

/// Each part of three fields that may be absent stands at its place.
fn option_fields<A: Allocator + Copy>()
    ensures { (v : OptionFields) (string : List ℕ) (y : Tally) → options.spelled v string y →
        Stands options v 0 string string y }
{
    fields::<Options<A>, A>();
}

/// The number, the flag and the octets stand in their elements, which no other type's stands in.
const ALL_OPTIONS: &[Place<'static>] = &[
    Place {
        around: &[0],
        start: 2,
        tags: &[],
    },
    Place {
        around: &[0, 2],
        start: 4,
        tags: &[0x02],
    },
    Place {
        around: &[0],
        start: 7,
        tags: &[],
    },
    Place {
        around: &[0, 7],
        start: 9,
        tags: &[0x01],
    },
    Place {
        around: &[0],
        start: 12,
        tags: &[],
    },
];

const OPTIONS: Table<'static> = Table {
    strict: &[
        ("3000", 1),
        ("3005a003020105", 3),
        ("3005a1030101ff", 3),
        ("30048202a5a5", 2),
        ("30028200", 2),
        ("300aa003020105a1030101ff", 5),
        ("3009a0030201058202a5a5", 4),
        ("3009a1030101ff8202a5a5", 4),
    ],
    rows: &[Row {
        input: "300ea003020105a1030101ff8202a5a5",
        strict: "300ea003020105a1030101ff8202a5a5",
        places: &[],
        headers: 6,
        fields: ALL_OPTIONS,
    }],
    refused: &[
        "3100", // another tag
        "3004a202a5a5", // octets under the tag of a constructed type
        "3003800105", // a number under an implicit tag
        "30038101ff", // a flag likewise
        "300aa1030101ffa003020105", // two fields in the other order
        "300aa003020105a003020106", // a field twice
        "3006a00402010500", // a byte behind a number
        "3007a0030201058300", // a field with another tag
        "30060201050101ff", // fields without their tags
    ],
};

/// The test of this name, over any such allocator.
fn options_over<A: Heap>(rt: &impl Abort, heap: A) {
    option_fields::<A>();
    all_coded::<A, Options<A>>(rt, heap, &OPTIONS);
}

#[test]
fn options_are_read(rt: HostRuntime) {
    let heap = Refusing::new(rt.alloc());
    options_over(&rt, &heap);
}

/// Texts of four types, two times and a number.
///
/// # Encoding
/// `SEQUENCE { printable PrintableString, ascii IA5String, pairs BMPString, text UTF8String, sent UTCTime, received
/// GeneralizedTime, number INTEGER (0..255) }`
#[derive(Drop)]
struct Letter<A: Allocator> {
    printable: PrintableStringAsn1<A>,
    ascii: Ia5StringAsn1<A>,
    pairs: BmpStringAsn1<A>,
    text: Utf8String<A>,
    sent: UtcTimeAsn1,
    received: GeneralizedTimeAsn1,
    number: u8,
}

impl<A: Allocator> Model for Letter<A> {
    ghost use Rattle.x509_tests.specs.OwnStructures.{Letter as LetterFields};

    ghost Value = { LetterFields };

    ghost view = { λ v. (v.printable, (v.ascii, (v.pairs, (v.text, (v.sent, (v.received, v.number)))))) };

    ghost inverse = { λ f. record {
      printable = f.0;
      ascii = f.1.0;
      pairs = f.1.1.0;
      text = f.1.1.1.0;
      sent = f.1.1.1.1.0;
      received = f.1.1.1.1.1.0;
      number = f.1.1.1.1.1.1;
    } };
}

/// The fields, owned or borrowed.
type LetterNest<P, I, B, T, U, G, N> = Tagged<
    Sequence,
    Join<P, Join<I, Join<B, Join<T, Join<U, Join<G, One<N>>>>>>>,
>;

/// The fields, owned.
type OwnedLetter<A> = LetterNest<
    PrintableStringAsn1<A>,
    Ia5StringAsn1<A>,
    BmpStringAsn1<A>,
    Utf8String<A>,
    UtcTimeAsn1,
    GeneralizedTimeAsn1,
    u8,
>;

/// The fields, borrowed.
type WrittenLetter<'a, A> = LetterNest<
    Ref<'a, PrintableStringAsn1<A>>,
    Ref<'a, Ia5StringAsn1<A>>,
    Ref<'a, BmpStringAsn1<A>>,
    Ref<'a, Utf8String<A>>,
    Ref<'a, UtcTimeAsn1>,
    Ref<'a, GeneralizedTimeAsn1>,
    Ref<'a, u8>,
>;

/// The fields, to be written.
fn written_letter<A: Allocator>(value: &Letter<A>) -> WrittenLetter<'_, A>
    ensures { result ≡ value.now }
{
    let times = Join(
        Ref(&value.sent),
        Join(Ref(&value.received), One(Ref(&value.number))),
    );
    let texts = Join(Ref(&value.pairs), Join(Ref(&value.text), times));
    Tagged::new(Join(Ref(&value.printable), Join(Ref(&value.ascii), texts)))
}

impl<A: Allocator> ToDer for Letter<A> {
    ghost strict = { λ v. letter.strict v };

    fn put<O: Output>(&self, out: &mut [u8], at: usize) -> Result<usize, TooLong> {
        written_letter(self).put::<O>(out, at)
    }
}

impl<A: Allocator> Structure<OwnedLetter<A>> for Letter<A> {
    ghost fields = { λ v. v };

    fn from_fields(parts: OwnedLetter<A>) -> Self {
        let Join(printable, Join(ascii, Join(pairs, Join(text, times)))) = parts.into_inner();
        let Join(sent, Join(received, One(number))) = times;
        Letter {
            printable,
            ascii,
            pairs,
            text,
            sent,
            received,
            number,
        }
    }

    ghost same = { λ v w e. e };

    ghost made = { λ f. (f, refl) };
}

impl<A: Allocator + Copy> Field<A> for Letter<A> {
    type Brief = ();

    ghost brief = { λ v. tt };

    ghost shape = { structure (λ v. v) letter };

    ghost lawful = { λ h. structure_lawful (λ v. v) letter (λ v w e. e)
        (⟦<OwnedLetter<A> as Field<A>>⟧.lawful (
          tt,
          (tt, (tt, (tt, (tt, (tt, tt, λ c h. refl), λ c h. refl), λ c h. refl), λ c h. refl), λ c h. refl),
          λ c h. refl,
        )) };

    ghost elements = { λ h. structure_element (λ v. v) letter
        (⟦<OwnedLetter<A> as Field<A>>⟧.elements tt) };

    ghost agrees = { λ v. refl };

    fn starts(byte: u8) -> bool {
        byte == SEQUENCE_TAG
    }

    fn known(&self) {
        self.printable.known();
        self.ascii.known();
        self.pairs.known();
        self.text.known();
        Field::<A>::known(&self.sent);
        Field::<A>::known(&self.received);
        Field::<A>::known(&self.number);
    }

    fn read(alloc: A, reader: &mut Reader<'_, A>) -> Result<Self, ReadError> {
        read_fields::<Self, OwnedLetter<A>, A>(alloc, reader)
    }

    fn pass(alloc: A, reader: &mut Reader<'_, A>) -> Result<(), ReadError> {
        pass_fields::<Self, OwnedLetter<A>, A>(alloc, reader)
    }
}

impl<A: Allocator + Copy> FromDer<A> for Letter<A> {
    ghost stands_alone = { (tt, tt) };
}

/// Each part of a letter stands at its place.
fn letter_fields<A: Allocator + Copy>()
    ensures { (v : LetterFields) (string : List ℕ) (y : Tally) → letter.spelled v string y →
        Stands letter v 0 string string y }
{
    fields::<Letter<A>, A>();
}

/// Each field stands in the SEQUENCE, with the one tag of its type.
const LETTER_PLACES: &[Place<'static>] = &[
    Place {
        around: &[0],
        start: 2,
        tags: &[0x13],
    },
    Place {
        around: &[0],
        start: 5,
        tags: &[0x16],
    },
    Place {
        around: &[0],
        start: 9,
        tags: &[0x1E],
    },
    Place {
        around: &[0],
        start: 15,
        tags: &[0x0C],
    },
    Place {
        around: &[0],
        start: 20,
        tags: &[0x17],
    },
    Place {
        around: &[0],
        start: 35,
        tags: &[0x18],
    },
    Place {
        around: &[0],
        start: 52,
        tags: &[0x02],
    },
];

/// The texts "a", "a@", "\u{E4}\u{20AC}" and "\u{20AC}", 17:41:28 on 17 October 2019 twice, and 5.
const LETTER: &str =
    "3035130161160261401e0400e420ac0c03e282ac170d3139313031373137343132385a180f32303139313031373137343132385a020105";

const LETTERS: Table<'static> = Table {
    strict: &[],
    rows: &[Row {
        input: LETTER,
        strict: LETTER,
        places: &[],
        headers: 8,
        fields: LETTER_PLACES,
    }],
    refused: &[
        "3000", // no fields
        // the two times in the other order
        "3035130161160261401e0400e420ac0c03e282ac180f32303139313031373137343132385a170d3139313031373137343132385a020105",
        // a number of two bytes
        "3036130161160261401e0400e420ac0c03e282ac170d3139313031373137343132385a180f32303139313031373137343132385a02020100",
        // a letter that PrintableString has not
        "3035130140160261401e0400e420ac0c03e282ac170d3139313031373137343132385a180f32303139313031373137343132385a020105",
        // half a character of BMPString
        "3034130161160261401e0300e4200c03e282ac170d3139313031373137343132385a180f32303139313031373137343132385a020105",
    ],
};

/// The test of this name, over any such allocator.
fn letters_over<A: Heap>(rt: &impl Abort, heap: A) {
    letter_fields::<A>();
    all_coded::<A, Letter<A>>(rt, heap, &LETTERS);
}

#[test]
fn letters(rt: HostRuntime) {
    let heap = Refusing::new(rt.alloc());
    letters_over(&rt, &heap);
}
