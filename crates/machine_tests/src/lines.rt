//! What lines ask.

use account_machine::Request;
use client_lang::{Field, LineFault, parse_line};
use name_map::Copied;
use std::alloc::{AllocError, Global};
use std::test;

type Outcome = Result<(), test::Fail>;

const TOKEN: &str = "000000000000000100112233445566778899aabbccddeeff";

/// The fields of each op, in the order in which they are tested.
const OPS: &[(&str, &[Field])] = &[
    ("create", &[Field::Account]),
    ("list_factors", &[Field::Account]),
    ("unmount", &[Field::Account]),
    ("list_files", &[Field::Account]),
    ("start_session", &[Field::Account, Field::Intent]),
    (
        "extend_session",
        &[Field::Account, Field::Token, Field::Seconds],
    ),
    ("end_session", &[Field::Account, Field::Token]),
    ("mount", &[Field::Account, Field::Token]),
    (
        "authenticate",
        &[Field::Account, Field::Token, Field::Label, Field::Secret],
    ),
    (
        "update_factor",
        &[Field::Account, Field::Token, Field::Label, Field::Secret],
    ),
    (
        "add_factor",
        &[
            Field::Account,
            Field::Token,
            Field::Label,
            Field::Kind,
            Field::Secret,
        ],
    ),
    (
        "remove_factor",
        &[Field::Account, Field::Token, Field::Label],
    ),
    ("reset_pin", &[Field::Account, Field::Token, Field::Label]),
    ("put_file", &[Field::Account, Field::Name, Field::Data]),
    ("get_file", &[Field::Account, Field::Name]),
];

/// Each field, in its form.
const MEMBERS: &[(Field, &str)] = &[
    (Field::Account, r#","account":"ann""#),
    (Field::Intent, r#","intent":"verify""#),
    (
        Field::Token,
        r#","token":"000000000000000100112233445566778899AABBCCDDEEFF""#,
    ),
    (Field::Seconds, r#","seconds":300"#),
    (Field::Label, r#","label":"main""#),
    (Field::Secret, r#","secret":"""#),
    (Field::Kind, r#","kind":"pin""#),
    (Field::Schedule, r#","schedule":[[3,4294967295]]"#),
    (Field::Name, r#","name":"note""#),
    (Field::Data, r#","data":"6869""#),
];

// The field, in its form.
fn member(field: Field) -> &'static str {
    for (of, text) in MEMBERS {
        if *of == field {
            return text;
        }
    }
    ""
}

// A line that asks this, with these fields.
fn line_of(alloc: Global, op: &str, fields: &[Field]) -> Result<String, AllocError> {
    let mut line = format!(in alloc; "{{\"op\":\"{op}\"")?;
    for field in fields {
        line.push_str(member(*field))?;
    }
    line.push('}')?;
    Ok(line)
}

// The fault of the line with the fields before this place alone.
fn fault_at(
    alloc: Global,
    op: &str,
    fields: &[Field],
    place: usize,
) -> Result<Option<LineFault>, AllocError> {
    let line = line_of(alloc, op, &fields[..place.min(fields.len())])?;
    Ok(parse_line(alloc, line.as_bytes()).err())
}

#[test]
fn the_first_field_that_is_missing_is_named(rt: HostRuntime) -> Outcome {
    for (op, fields) in OPS {
        for (place, field) in fields.iter().enumerate() {
            let fault = fault_at(rt.alloc(), op, fields, place)?;
            assert!(rt;
                fault == Some(LineFault::BadField(*field)),
                "{op} at {place}"
            );
        }
        assert!(rt;
            fault_at(rt.alloc(), op, fields, fields.len())?.is_none(),
            "{op}"
        );
    }
    Ok(())
}

const FAULTY: &[(&str, LineFault)] = &[
    ("", LineFault::NotJson),
    ("[]", LineFault::NotJson),
    ("null", LineFault::NotJson),
    (r#"{"op""#, LineFault::NotJson),
    (r#"{"op":"create","account":"ann"} {}"#, LineFault::NotJson),
    (r#"{"op":"create","account":"ann",}"#, LineFault::NotJson),
    (
        r#"{"op":"create","account":"ann","x":NaN}"#,
        LineFault::NotJson,
    ),
    (
        r#"{"op":"create","account":"ann","x":1e999}"#,
        LineFault::NotJson,
    ),
    (
        r#"{"op":"create","account":"ann","x":"\ud800"}"#,
        LineFault::NotJson,
    ),
    (
        "\u{feff}{\"op\":\"create\",\"account\":\"ann\"}",
        LineFault::NotJson,
    ),
    ("{}", LineFault::UnknownOp),
    (r#"{"op":7,"account":"ann"}"#, LineFault::UnknownOp),
    (r#"{"op":"fly"}"#, LineFault::UnknownOp),
    (r#"{"op":"Create","account":"ann"}"#, LineFault::UnknownOp),
    (r#"{"op":"create"}"#, LineFault::BadField(Field::Account)),
    (
        r#"{"op":"create","account":null}"#,
        LineFault::BadField(Field::Account),
    ),
    (
        r#"{"op":"create","account":"Ann"}"#,
        LineFault::BadField(Field::Account),
    ),
    (
        r#"{"op":"create","account":""}"#,
        LineFault::BadField(Field::Account),
    ),
    (
        r#"{"op":"create","account":"aaaaaaaaaaaaaaaaaaaaaaaaaaaaaaaaa"}"#,
        LineFault::BadField(Field::Account),
    ),
    (
        r#"{"op":"create","account":"ann","account":"Ann"}"#,
        LineFault::BadField(Field::Account),
    ),
    (
        r#"{"op":"mount","token":7}"#,
        LineFault::BadField(Field::Account),
    ),
    (
        r#"{"op":"mount","account":"ann","token":"00000000000000010011223344556677889900112233445"}"#,
        LineFault::BadField(Field::Token),
    ),
    (
        r#"{"op":"mount","account":"ann","token":"0000000000000001001122334455667788990011223344556"}"#,
        LineFault::BadField(Field::Token),
    ),
    (
        r#"{"op":"mount","account":"ann","token":"00000000000000010011223344556677889900112233445g"}"#,
        LineFault::BadField(Field::Token),
    ),
];

#[test]
fn each_bad_line_has_its_first_fault(rt: HostRuntime) -> Outcome {
    for (line, fault) in FAULTY {
        let found = parse_line(rt.alloc(), line.as_bytes()).err();
        assert!(rt; found == Some(*fault), "{line}");
    }
    Ok(())
}

/// Lines with an account and a token, and these fields, of which one is outside its form.
const OUTSIDE: &[(&str, Field)] = &[
    (r#""op":"start_session","intent":"both""#, Field::Intent),
    (r#""op":"start_session","intent":"Verify""#, Field::Intent),
    (r#""op":"extend_session","seconds":0"#, Field::Seconds),
    (r#""op":"extend_session","seconds":301"#, Field::Seconds),
    (r#""op":"extend_session","seconds":300.0"#, Field::Seconds),
    (r#""op":"extend_session","seconds":3e2"#, Field::Seconds),
    (r#""op":"extend_session","seconds":-1"#, Field::Seconds),
    (
        r#""op":"extend_session","seconds":18446744073709551616"#,
        Field::Seconds,
    ),
    (r#""op":"extend_session","seconds":"300""#, Field::Seconds),
    (r#""op":"reset_pin","label":"""#, Field::Label),
    (r#""op":"reset_pin","label":"a-b""#, Field::Label),
    (
        r#""op":"reset_pin","label":"aaaaaaaaaaaaaaaaa""#,
        Field::Label,
    ),
    (
        r#""op":"authenticate","label":"main","secret":7"#,
        Field::Secret,
    ),
    (
        r#""op":"add_factor","label":"pin","kind":"finger","secret":7"#,
        Field::Kind,
    ),
    (
        r#""op":"add_factor","label":"pin","kind":"pin","secret":7,"schedule":7"#,
        Field::Secret,
    ),
    (
        r#""op":"add_factor","label":"pin","kind":"pin","secret":"","schedule":null"#,
        Field::Schedule,
    ),
    (
        r#""op":"add_factor","label":"pin","kind":"pin","secret":"","schedule":[]"#,
        Field::Schedule,
    ),
    (
        r#""op":"add_factor","label":"pin","kind":"pin","secret":"","schedule":[[5,30]]"#,
        Field::Schedule,
    ),
    (
        r#""op":"add_factor","label":"pin","kind":"pin","secret":"","schedule":[[5,30],[5,4294967295]]"#,
        Field::Schedule,
    ),
    (
        r#""op":"add_factor","label":"pin","kind":"pin","secret":"","schedule":[[5,30],[6,30],[7,4294967295]]"#,
        Field::Schedule,
    ),
    (
        r#""op":"add_factor","label":"pin","kind":"pin","secret":"","schedule":[[0,4294967295]]"#,
        Field::Schedule,
    ),
    (
        r#""op":"add_factor","label":"pin","kind":"pin","secret":"","schedule":[[1001,4294967295]]"#,
        Field::Schedule,
    ),
    (
        r#""op":"add_factor","label":"pin","kind":"pin","secret":"","schedule":[[3,4294967296]]"#,
        Field::Schedule,
    ),
    (
        r#""op":"add_factor","label":"pin","kind":"pin","secret":"","schedule":[[3,4294967295,0]]"#,
        Field::Schedule,
    ),
    (
        r#""op":"add_factor","label":"pin","kind":"pin","secret":"","schedule":[[1,1],[2,2],[3,3],[4,4],[5,5],[6,6],[7,7],[8,8],[9,9],[10,10],[11,11],[12,12],[13,13],[14,14],[15,15],[16,16],[17,4294967295]]"#,
        Field::Schedule,
    ),
    (r#""op":"get_file","name":"""#, Field::Name),
    (
        r#""op":"get_file","name":"aaaaaaaaaaaaaaaaaaaaaaaaaaaaaaaaaaaaaaaaaaaaaaaaaaaaaaaaaaaaaaaaa""#,
        Field::Name,
    ),
    (r#""op":"put_file","name":7,"data":"abc""#, Field::Name),
    (r#""op":"put_file","name":"note","data":"abc""#, Field::Data),
    (r#""op":"put_file","name":"note","data":"zz""#, Field::Data),
];

/// Lines with an account and a token, and these fields, in their forms.
const INSIDE: &[&str] = &[
    r#""op":"create","account":"aaaaaaaaaaaaaaaaaaaaaaaaaaaaaaaa""#,
    r#""op":"create","account":"\u0061nn","x":[{"y":-1.5e3}]"#,
    r#""op":"extend_session","seconds":1"#,
    r#""op":"extend_session","seconds":0,"seconds":300"#,
    r#""label":"aaaaaaaaaaaaaaaa","op":"reset_pin""#,
    r#""op":"add_factor","label":"pin","kind":"password","secret":"","schedule":null"#,
    r#""op":"add_factor","label":"pin","kind":"pin","secret":"","schedule":[[3,4294967295]]"#,
    r#""op":"add_factor","label":"pin","kind":"pin","secret":"","schedule":[[1,0],[1000,4294967295]]"#,
    r#""op":"add_factor","label":"pin","kind":"pin","secret":"","schedule":[[1,1],[2,2],[3,3],[4,4],[5,5],[6,6],[7,7],[8,8],[9,9],[10,10],[11,11],[12,12],[13,13],[14,14],[15,15],[16,4294967295]]"#,
    r#""op":"get_file","name":"aaaaaaaaaaaaaaaaaaaaaaaaaaaaaaaaaaaaaaaaaaaaaaaaaaaaaaaaaaaaaaaa""#,
    r#""op":"get_file","name":"A b/é""#,
    r#""op":"put_file","name":"note","data":"""#,
    r#""op":"put_file","name":"note","data":"aAfF""#,
];

fn with_token(alloc: Global, fields: &str) -> Result<String, AllocError> {
    format!(in alloc; "{{\"account\":\"ann\",\"token\":\"{TOKEN}\",{fields}}}")
}

#[test]
fn each_form_has_its_bounds(rt: HostRuntime) -> Outcome {
    for (fields, fault) in OUTSIDE {
        let line = with_token(rt.alloc(), fields)?;
        let found = parse_line(rt.alloc(), line.as_bytes()).err();
        assert!(rt; found == Some(LineFault::BadField(*fault)), "{fields}");
    }
    Ok(())
}

// Whether a copy of the request is the same.
fn is_copied(request: &Request) -> bool {
    let copy = request.copy().ok();
    let same = copy.as_ref().is_some_and(|copy| *copy == *request);
    drop(copy);
    same
}

// Whether the line asks something, of which a copy is the same.
fn is_request(alloc: Global, line: &[u8]) -> bool {
    let request = parse_line(alloc, line).ok();
    let copied = request.as_ref().is_some_and(|request| is_copied(request));
    drop(request);
    copied
}

#[test]
fn lines_within_their_bounds_are_read(rt: HostRuntime) -> Outcome {
    for fields in INSIDE {
        let line = with_token(rt.alloc(), fields)?;
        assert!(rt; is_request(rt.alloc(), line.as_bytes()), "{fields}");
    }
    Ok(())
}

// A create of ann, with spaces behind it up to this number of bytes.
fn padded(alloc: Global, count: usize) -> Result<Vec<u8>, AllocError> {
    let mut line = Vec::from_slice(alloc, b"{\"op\":\"create\",\"account\":\"ann\",\"x\":1}")?;
    line.resize(count, b' ')?;
    Ok(line)
}

#[test]
fn a_line_has_at_most_100000_bytes(rt: HostRuntime) -> Outcome {
    let alloc = rt.alloc();
    assert!(rt; is_request(alloc, &padded(alloc, 100_000)?));
    let fault = parse_line(alloc, &padded(alloc, 100_001)?).err();
    assert!(rt; fault == Some(LineFault::TooLong));
    Ok(())
}

// A create of ann beside arrays in arrays, so many deep.
fn nested(alloc: Global, depth: usize) -> Result<Vec<u8>, AllocError> {
    let mut line = Vec::from_slice(alloc, b"{\"op\":\"create\",\"account\":\"ann\",\"x\":")?;
    let start = line.len();
    line.resize(start.saturating_add(depth), b'[')?;
    let middle = line.len();
    line.resize(middle.saturating_add(depth), b']')?;
    line.push(b'}')?;
    Ok(line)
}

#[test]
fn other_fields_are_json_too(rt: HostRuntime) -> Outcome {
    let alloc = rt.alloc();
    assert!(rt; is_request(alloc, &nested(alloc, 126)?));
    let fault = parse_line(alloc, &nested(alloc, 127)?).err();
    assert!(rt; fault == Some(LineFault::NotJson));
    let fault = parse_line(
        alloc,
        b"{\"op\":\"create\",\"account\":\"ann\",\"x\":\"\xff\"}",
    )
    .err();
    assert!(rt; fault == Some(LineFault::NotJson));
    Ok(())
}
