//! The requests of scripts. In the fields of some is one `*`, for which a row has a text.

/// A request of scripts.
#[derive(Clone, Copy, PartialEq, Eq)]
pub enum Line {
    Create,
    Start,
    StartVerify,
    Extend,
    ExtendBy1,
    End,
    TryMain,
    TryNewMain,
    TryEmptyMain,
    TryAlt,
    TryPin,
    TryNewPin,
    WrongPin,
    ShortPin,
    LongPin,
    PinWithALetter,
    WrongPin2,
    TryStrict,
    TryNewStrict,
    ShortStrict,
    TryNone,
    AddMain,
    AddAlt,
    AddEmptyAlt,
    AddPin,
    AddPin2,
    AddShortPin2,
    AddLongPin2,
    /// A PIN of which three wrong tries lock.
    AddStrict,
    AddMainAgain,
    UpdateMain,
    UpdateEmptyMain,
    UpdatePin,
    UpdateShortPin,
    UpdateStrict,
    UpdateNone,
    RemoveMain,
    RemoveAlt,
    RemovePin,
    RemoveNone,
    ResetMain,
    ResetPin,
    ResetStrict,
    ResetNone,
    List,
    Mount,
    Unmount,
    Put,
    PutOtherBytes,
    PutNothing,
    PutCapital,
    Get,
    GetNothing,
    ListFiles,
    RemovePin7,
    AddPinOfNumber,
    AddPasswordOfNumber,
    PutOfNumber,
    PutLong,
    PutLongAgain,
    AddLong,
    TryLong,
    AddLongLabel,
}

/// The fields of each request's line beside the account and the token.
const FIELDS: &[(Line, &str)] = &[
    (Line::Create, r#""op":"create""#),
    (Line::Start, r#""op":"start_session","intent":"decrypt""#),
    (
        Line::StartVerify,
        r#""op":"start_session","intent":"verify""#,
    ),
    (Line::Extend, r#""op":"extend_session","seconds":300"#),
    (Line::ExtendBy1, r#""op":"extend_session","seconds":1"#),
    (Line::End, r#""op":"end_session""#),
    (
        Line::TryMain,
        r#""op":"authenticate","label":"main","secret":"long pass""#,
    ),
    (
        Line::TryNewMain,
        r#""op":"authenticate","label":"main","secret":"new pass""#,
    ),
    (
        Line::TryEmptyMain,
        r#""op":"authenticate","label":"main","secret":"""#,
    ),
    (
        Line::TryAlt,
        r#""op":"authenticate","label":"alt","secret":"other pass""#,
    ),
    (
        Line::TryPin,
        r#""op":"authenticate","label":"pin","secret":"2468""#,
    ),
    (
        Line::TryNewPin,
        r#""op":"authenticate","label":"pin","secret":"1357""#,
    ),
    (
        Line::WrongPin,
        r#""op":"authenticate","label":"pin","secret":"1111""#,
    ),
    (
        Line::ShortPin,
        r#""op":"authenticate","label":"pin","secret":"246""#,
    ),
    (
        Line::LongPin,
        r#""op":"authenticate","label":"pin","secret":"2468246824682""#,
    ),
    (
        Line::PinWithALetter,
        r#""op":"authenticate","label":"pin","secret":"246x""#,
    ),
    (
        Line::WrongPin2,
        r#""op":"authenticate","label":"pin2","secret":"1111""#,
    ),
    (
        Line::TryStrict,
        r#""op":"authenticate","label":"strict","secret":"2468""#,
    ),
    (
        Line::TryNewStrict,
        r#""op":"authenticate","label":"strict","secret":"1357""#,
    ),
    (
        Line::ShortStrict,
        r#""op":"authenticate","label":"strict","secret":"246""#,
    ),
    (
        Line::TryNone,
        r#""op":"authenticate","label":"none","secret":"""#,
    ),
    (
        Line::AddMain,
        r#""op":"add_factor","label":"main","kind":"password","secret":"long pass","schedule":[7]"#,
    ),
    (
        Line::AddAlt,
        r#""op":"add_factor","label":"alt","kind":"password","secret":"other pass""#,
    ),
    (
        Line::AddEmptyAlt,
        r#""op":"add_factor","label":"alt","kind":"password","secret":"""#,
    ),
    (
        Line::AddPin,
        r#""op":"add_factor","label":"pin","kind":"pin","secret":"2468""#,
    ),
    (
        Line::AddPin2,
        r#""op":"add_factor","label":"pin2","kind":"pin","secret":"2468""#,
    ),
    (
        Line::AddShortPin2,
        r#""op":"add_factor","label":"pin2","kind":"pin","secret":"246""#,
    ),
    (
        Line::AddLongPin2,
        r#""op":"add_factor","label":"pin2","kind":"pin","secret":"246824682468""#,
    ),
    (
        Line::AddStrict,
        r#""op":"add_factor","label":"strict","kind":"pin","secret":"2468","schedule":[[3,4294967295]]"#,
    ),
    (
        Line::AddMainAgain,
        r#""op":"add_factor","label":"main","kind":"pin","secret":"""#,
    ),
    (
        Line::UpdateMain,
        r#""op":"update_factor","label":"main","secret":"new pass""#,
    ),
    (
        Line::UpdateEmptyMain,
        r#""op":"update_factor","label":"main","secret":"""#,
    ),
    (
        Line::UpdatePin,
        r#""op":"update_factor","label":"pin","secret":"1357""#,
    ),
    (
        Line::UpdateShortPin,
        r#""op":"update_factor","label":"pin","secret":"135""#,
    ),
    (
        Line::UpdateStrict,
        r#""op":"update_factor","label":"strict","secret":"1357""#,
    ),
    (
        Line::UpdateNone,
        r#""op":"update_factor","label":"none","secret":"""#,
    ),
    (Line::RemoveMain, r#""op":"remove_factor","label":"main""#),
    (Line::RemoveAlt, r#""op":"remove_factor","label":"alt""#),
    (Line::RemovePin, r#""op":"remove_factor","label":"pin""#),
    (Line::RemoveNone, r#""op":"remove_factor","label":"none""#),
    (Line::ResetMain, r#""op":"reset_pin","label":"main""#),
    (Line::ResetPin, r#""op":"reset_pin","label":"pin""#),
    (Line::ResetStrict, r#""op":"reset_pin","label":"strict""#),
    (Line::ResetNone, r#""op":"reset_pin","label":"none""#),
    (Line::List, r#""op":"list_factors""#),
    (Line::Mount, r#""op":"mount""#),
    (Line::Unmount, r#""op":"unmount""#),
    (Line::Put, r#""op":"put_file","name":"note","data":"6869""#),
    (
        Line::PutOtherBytes,
        r#""op":"put_file","name":"note","data":"00FF""#,
    ),
    (Line::PutNothing, r#""op":"put_file","name":"a","data":"""#),
    (
        Line::PutCapital,
        r#""op":"put_file","name":"Z","data":"00""#,
    ),
    (Line::Get, r#""op":"get_file","name":"note""#),
    (Line::GetNothing, r#""op":"get_file","name":"a""#),
    (Line::ListFiles, r#""op":"list_files""#),
    (Line::RemovePin7, r#""op":"remove_factor","label":"a6""#),
    (
        Line::AddPinOfNumber,
        r#""op":"add_factor","label":"a*","kind":"pin","secret":"2468""#,
    ),
    (
        Line::AddPasswordOfNumber,
        r#""op":"add_factor","label":"a*","kind":"password","secret":"long pass""#,
    ),
    (
        Line::PutOfNumber,
        r#""op":"put_file","data":"00","name":"*""#,
    ),
    (Line::PutLong, r#""op":"put_file","name":"note","data":"*""#),
    (
        Line::PutLongAgain,
        r#""op":"put_file","name":"1","data":"*""#,
    ),
    (
        Line::AddLong,
        r#""op":"add_factor","label":"long","kind":"password","secret":"*""#,
    ),
    (
        Line::TryLong,
        r#""op":"authenticate","label":"long","secret":"*""#,
    ),
    (
        Line::AddLongLabel,
        r#""op":"add_factor","kind":"password","secret":"long pass","label":"*""#,
    ),
];

/// The fields of the request's line beside the account and the token.
pub fn fields_of(line: Line) -> &'static str {
    for (of, fields) in FIELDS {
        if *of == line {
            return fields;
        }
    }
    ""
}

/// The fields before and behind the `*`.
pub fn parts_of(line: Line) -> (&'static str, &'static str) {
    fields_of(line).split_once('*').unwrap_or(("", ""))
}
