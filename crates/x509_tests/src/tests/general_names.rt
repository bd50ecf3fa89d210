//! General names and their parts.

use super::fields::{ANY, Field};
use super::rows::{Heap, Row, Table, all_hold};
use refusing::Refusing;
use std::process::Abort;
use x509_der::Deviation;
use x509_names::{EdiPartyName, GeneralName, GeneralNames, OtherName};

/// A user principal name, `a`, by itself and under the tag of a general name.
const PRINCIPAL: &str = "3011060a2b060104018237140203a0030c0161";

const PRINCIPAL_NAME: &str = "a011060a2b060104018237140203a0030c0161";

/// Its form, and its tag 0 with the element under it.
const FORM: Field<'static> = Field {
    around: &[0],
    start: 2,
    tags: &[0x06],
};

const TAGGED_VALUE: Field<'static> = Field {
    around: &[0],
    start: 14,
    tags: &[],
};

const FORM_VALUE: Field<'static> = Field {
    around: &[0, 14],
    start: 16,
    tags: ANY,
};

const OTHER_NAMES: Table<'static> = Table {
    strict: &[],
    rows: &[Row {
        input: PRINCIPAL,
        strict: PRINCIPAL,
        places: &[],
        headers: 4,
        fields: &[FORM, TAGGED_VALUE, FORM_VALUE],
    }],
    refused: &[
        "3000", // no identifier
        "300c060a2b060104018237140203", // no value
        "300f060a2b0601040182371402030c0161", // a value without its tag 0
        "3011060a2b060104018237140203a1030c0161", // a value under the tag 1
        "3014060a2b060104018237140203a0060c01610c0162", // two elements under the tag 0
        "3016060a2b060104018237140203a0030c0161a0030c0161", // a second value
        "3011a0030c0161060a2b060104018237140203", // the value before the identifier
        PRINCIPAL_NAME, // another tag, that of a general name
    ],
};

/// The test of this name, over any such allocator.
fn other_names_over<A: Heap>(rt: &impl Abort, heap: A) {
    all_hold::<A, OtherName<A>>(rt, heap, &OTHER_NAMES);
}

#[test]
fn other_names(rt: HostRuntime) {
    let heap = Refusing::new(rt.alloc());
    other_names_over(&rt, &heap);
}

/// What a directory string is. Each of two stands under a tag of its own in another element.
const TEXTS: &[u8] = &[0x0C, 0x13, 0x1E];

const FIRST_TAGGED: Field<'static> = Field {
    around: &[0],
    start: 2,
    tags: &[],
};

const FIRST_TEXT: Field<'static> = Field {
    around: &[0, 2],
    start: 4,
    tags: TEXTS,
};

const SECOND_TAGGED: Field<'static> = Field {
    around: &[0],
    start: 7,
    tags: &[],
};

const SECOND_TEXT: Field<'static> = Field {
    around: &[0, 7],
    start: 9,
    tags: TEXTS,
};

/// A party `a` without its assigner, and with the assigner `b`.
const PARTY: &str = "3005a1030c0161";

const ASSIGNED_PARTY: &str = "300aa0030c0162a1030c0161";

const PARTIES: Table<'static> = Table {
    strict: &[],
    rows: &[
        Row {
            input: PARTY,
            strict: PARTY,
            places: &[],
            headers: 3,
            fields: &[FIRST_TAGGED, FIRST_TEXT],
        },
        Row {
            input: ASSIGNED_PARTY,
            strict: ASSIGNED_PARTY,
            places: &[],
            headers: 5,
            fields: &[FIRST_TAGGED, FIRST_TEXT, SECOND_TAGGED, SECOND_TEXT],
        },
    ],
    refused: &[
        "3000", // no party
        "3005a0030c0162", // an assigner alone
        "300aa1030c0161a0030c0162", // the party before its assigner
        "300aa1030c0161a1030c0162", // two parties
        "3003810161", // a party under an implicit tag
        "3006800162810161", // both under implicit tags
        "3005a103160161", // a party that is an IA5String
        "3005a1030c01ff", // a byte that begins no character
        "3007a10530030c0161", // SEQUENCE around the text of the party
    ],
};

/// The test of this name, over any such allocator.
fn parties_over<A: Heap>(rt: &impl Abort, heap: A) {
    all_hold::<A, EdiPartyName<A>>(rt, heap, &PARTIES);
}

#[test]
fn parties(rt: HostRuntime) {
    let heap = Refusing::new(rt.alloc());
    parties_over(&rt, &heap);
}

/// The common name `a`.
const DIRECTORY: &str = "a40e300c310a300806035504030c0161";

const STRICT_FORMS: Table<'static> = Table {
    strict: &[
        // a@b
        ("8103614062", 1),
        ("820161", 1),
        ("a4023000", 2),
        // a:b
        ("8603613a62", 1),
        ("87047f000001", 1),
        ("8700", 1),
        ("8803550403", 1),
    ],
    rows: &[
        Row {
            input: PRINCIPAL_NAME,
            strict: PRINCIPAL_NAME,
            places: &[],
            headers: 4,
            fields: &[FORM, TAGGED_VALUE, FORM_VALUE],
        },
        Row {
            input: DIRECTORY,
            strict: DIRECTORY,
            places: &[],
            headers: 6,
            fields: &[
                Field {
                    around: &[0],
                    start: 2,
                    tags: &[0x30],
                },
                Field {
                    around: &[0, 2, 4, 6],
                    start: 13,
                    tags: TEXTS,
                },
            ],
        },
        Row {
            input: "a505a1030c0161",
            strict: "a505a1030c0161",
            places: &[],
            headers: 3,
            fields: &[FIRST_TAGGED, FIRST_TEXT],
        },
        Row {
            input: "a50aa0030c0162a1030c0161",
            strict: "a50aa0030c0162a1030c0161",
            places: &[],
            headers: 5,
            fields: &[FIRST_TAGGED, FIRST_TEXT, SECOND_TAGGED, SECOND_TEXT],
        },
    ],
    refused: &[],
};

/// The test of this name, over any such allocator.
fn strict_forms_over<A: Heap>(rt: &impl Abort, heap: A) {
    all_hold::<A, GeneralName<A>>(rt, heap, &STRICT_FORMS);
}

#[test]
fn strict_forms(rt: HostRuntime) {
    let heap = Refusing::new(rt.alloc());
    strict_forms_over(&rt, &heap);
}

/// An IA5String under the tag of a form.
const ASCII: &[Field<'static>] = &[Field {
    around: &[0],
    start: 2,
    tags: &[0x16],
}];

/// Five bytes with the deviation of form over them.
const FIVE_BYTES: &[(Deviation, usize, usize)] = &[(Deviation::GeneralNameForm, 0, 5)];

/// Forms that are deviations.
const LOOSE_FORMS: Table<'static> = Table {
    strict: &[],
    rows: &[
        Row {
            input: "a103160161",
            strict: "810161",
            places: FIVE_BYTES,
            headers: 2,
            fields: ASCII,
        },
        Row {
            input: "a203160161",
            strict: "820161",
            places: FIVE_BYTES,
            headers: 2,
            fields: ASCII,
        },
        Row {
            input: "a603160161",
            strict: "860161",
            places: FIVE_BYTES,
            headers: 2,
            fields: ASCII,
        },
        Row {
            input: "a70604047f000001",
            strict: "87047f000001",
            places: &[(Deviation::GeneralNameForm, 0, 8)],
            headers: 2,
            fields: &[Field {
                around: &[0],
                start: 2,
                tags: &[0x04],
            }],
        },
        Row {
            input: "a8050603550403",
            strict: "8803550403",
            places: &[(Deviation::GeneralNameForm, 0, 7)],
            headers: 2,
            fields: &[FORM],
        },
        Row {
            input: "8400",
            strict: "a4023000",
            places: &[(Deviation::GeneralNameForm, 0, 2)],
            headers: 1,
            fields: &[],
        },
        Row {
            input: "840c310a300806035504030c0161",
            strict: DIRECTORY,
            places: &[(Deviation::GeneralNameForm, 0, 14)],
            headers: 5,
            fields: &[
                Field {
                    around: &[0],
                    start: 2,
                    tags: &[0x31],
                },
                Field {
                    around: &[0, 2, 4],
                    start: 11,
                    tags: TEXTS,
                },
            ],
        },
    ],
    refused: &[],
};

/// The test of this name, over any such allocator.
fn loose_forms_over<A: Heap>(rt: &impl Abort, heap: A) {
    all_hold::<A, GeneralName<A>>(rt, heap, &LOOSE_FORMS);
}

#[test]
fn loose_forms(rt: HostRuntime) {
    let heap = Refusing::new(rt.alloc());
    loose_forms_over(&rt, &heap);
}

/// What is no general name.
const NO_FORMS: Table<'static> = Table {
    strict: &[],
    rows: &[],
    refused: &[
        "", // no bytes
        "3084ffffffff", // another tag, and 2^32 - 1 bytes that aren't there
        "3088ffffffffffffffff", // another tag, and 2^64 - 1 bytes that aren't there
        "3089010000000000000000", // another tag, and a length above 64 bits
        "30800000", // another tag, and an indefinite length
        "1f8100", // a tag of several bytes
        "810180", // a character above 7F
        "8503810161", // a party under a primitive tag, and its text under an implicit one
        "8505a1030c0161", // a party under a primitive tag
        "8300", // the tag of an x400Address, primitive
        "a300", // the tag of an x400Address
        "a505a0030c0162", // a party with an assigner alone
        "a5073005a1030c0161", // SEQUENCE around the fields of a party
        "8000", // nothing under a primitive tag 0
        "8011060a2b060104018237140203a0030c0161", // an otherName under a primitive tag
        "a203040161", // OCTET STRING in place of the IA5String
        "a6030c0161", // UTF8String in place of the IA5String
        "a7020500", // NULL in place of the OCTET STRING
        "a803020105", // INTEGER in place of the OBJECT IDENTIFIER
        "a200", // nothing under an explicit tag
        "a206160161160162", // two elements under an explicit tag
        "a103160180", // a character above 7F under an explicit tag
        "a40c310a300806035504030c0161", // the content of a name in place of the name
        "84023000", // a name in place of its content
        "a400", // nothing under the tag of a name
        "8800", // an identifier of no content
        "8900", // the tag 9, of no form
        "160161", // an IA5String under its own tag
    ],
};

/// The test of this name, over any such allocator.
fn no_forms_over<A: Heap>(rt: &impl Abort, heap: A) {
    all_hold::<A, GeneralName<A>>(rt, heap, &NO_FORMS);
}

#[test]
fn no_forms(rt: HostRuntime) {
    let heap = Refusing::new(rt.alloc());
    no_forms_over(&rt, &heap);
}

/// No name, two names, and two of which the second has a form that is a deviation, whose place is told from the list's
/// start.
const LISTS: Table<'static> = Table {
    strict: &[("3000", 1), ("3006820161820162", 3)],
    rows: &[Row {
        input: "3008820161a203160162",
        strict: "3006820161820162",
        places: &[(Deviation::GeneralNameForm, 5, 10)],
        headers: 4,
        fields: &[
            Field {
                around: &[0],
                start: 2,
                tags: &[],
            },
            Field {
                around: &[0, 5],
                start: 7,
                tags: &[0x16],
            },
        ],
    }],
    refused: &[
        "3100", // another tag
        "30028300", // the tag of an x400Address
        "3003820180", // a character above 7F
        "300382016100", // a byte left over
    ],
};

/// The test of this name, over any such allocator.
fn lists_over<A: Heap>(rt: &impl Abort, heap: A) {
    all_hold::<A, GeneralNames<A>>(rt, heap, &LISTS);
}

#[test]
fn lists(rt: HostRuntime) {
    let heap = Refusing::new(rt.alloc());
    lists_over(&rt, &heap);
}
