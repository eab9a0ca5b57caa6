//! The texts of replies.

use crate::answers::{Listed, NO_FACTORS, NO_FILES, Say, Word, answer_of, is_reply};
use account_machine::{Answer, Refused};
use client_lang::{Field, LineFault, fault_text};
use ct_bytes::NoMemory;
use name_map::Copied;
use std::alloc::{AllocError, Global};
use std::test;

type Outcome = Result<(), test::Fail>;

const REPLIES: &[(Say, &str)] = &[
    (Say::Ok, r#"{"answer":"ok"}"#),
    (
        Say::Session(1300, 43981),
        r#"{"answer":"ok","ends":1300,"token":"000000000000abcd07070707070707070707070707070707"}"#,
    ),
    (Say::Ends(0), r#"{"answer":"ok","ends":0}"#),
    (
        Say::Proved(1099511627776),
        r#"{"answer":"ok","ends":1099511627776}"#,
    ),
    (NO_FACTORS, r#"{"answer":"ok","factors":[]}"#),
    (
        Say::Factors([
            Listed::Password(Word::Main),
            Listed::Pin(Word::Pin, 4),
            Listed::Hidden(Word::Pin2),
        ]),
        r#"{"answer":"ok","factors":[{"kind":"password","label":"main"},{"kind":"pin","label":"pin","wrong":4},{"kind":"pin","label":"pin2","wrong":null}]}"#,
    ),
    (NO_FILES, r#"{"answer":"ok","files":[]}"#),
    (
        Say::Files([Word::A, Word::B, Word::Note]),
        r#"{"answer":"ok","files":["a","b","note"]}"#,
    ),
    (
        Say::Files([Word::Marks, Word::Nothing, Word::Nothing]),
        r#"{"answer":"ok","files":["\"\\/"]}"#,
    ),
    (
        Say::Files([Word::ShortEscapes, Word::Nothing, Word::Nothing]),
        r#"{"answer":"ok","files":["\b\t\n\f\r"]}"#,
    ),
    (
        Say::Files([Word::LongEscapes, Word::Nothing, Word::Nothing]),
        "{\"answer\":\"ok\",\"files\":[\"\\u0000\\u000b\\u001f\u{7f}\"]}",
    ),
    (
        Say::Files([Word::Accented, Word::Nothing, Word::Nothing]),
        "{\"answer\":\"ok\",\"files\":[\"\u{e9}\"]}",
    ),
    (Say::Bytes(b""), r#"{"answer":"ok","data":""}"#),
    (
        Say::Bytes(&[0x68, 0x69, 0xff]),
        r#"{"answer":"ok","data":"6869ff"}"#,
    ),
    (Say::No(Refused::Exists), r#"{"answer":"exists"}"#),
    (Say::No(Refused::NoHome), r#"{"answer":"no_home"}"#),
    (
        Say::No(Refused::UnknownSession),
        r#"{"answer":"unknown_session"}"#,
    ),
    (Say::No(Refused::Expired), r#"{"answer":"expired"}"#),
    (
        Say::No(Refused::WrongIntent),
        r#"{"answer":"wrong_intent"}"#,
    ),
    (
        Say::No(Refused::NotAuthorised),
        r#"{"answer":"not_authorised"}"#,
    ),
    (
        Say::No(Refused::UnknownFactor),
        r#"{"answer":"unknown_factor"}"#,
    ),
    (
        Say::No(Refused::FactorExists),
        r#"{"answer":"factor_exists"}"#,
    ),
    (
        Say::No(Refused::PasswordFirst),
        r#"{"answer":"password_first"}"#,
    ),
    (
        Say::No(Refused::LastPassword),
        r#"{"answer":"last_password"}"#,
    ),
    (
        Say::No(Refused::TooManyFactors),
        r#"{"answer":"too_many_factors"}"#,
    ),
    (Say::No(Refused::BadSecret), r#"{"answer":"bad_secret"}"#),
    (
        Say::No(Refused::EditionsSpent),
        r#"{"answer":"editions_spent"}"#,
    ),
    (
        Say::No(Refused::SessionsSpent),
        r#"{"answer":"sessions_spent"}"#,
    ),
    (Say::No(Refused::NotMounted), r#"{"answer":"not_mounted"}"#),
    (
        Say::No(Refused::AlreadyMounted),
        r#"{"answer":"already_mounted"}"#,
    ),
    (
        Say::No(Refused::UnknownFile),
        r#"{"answer":"unknown_file"}"#,
    ),
    (
        Say::No(Refused::TooManyFiles),
        r#"{"answer":"too_many_files"}"#,
    ),
    (Say::No(Refused::TooLarge), r#"{"answer":"too_large"}"#),
    (Say::Wrong, r#"{"answer":"wrong"}"#),
    (Say::Locked, r#"{"answer":"locked"}"#),
    (Say::Delayed(1), r#"{"answer":"delayed","seconds":1}"#),
    (
        Say::Delayed(18446744073709551615),
        r#"{"answer":"delayed","seconds":18446744073709551615}"#,
    ),
    (
        Say::Lost,
        r#"{"answer":"tree_lost","chip":"2c2c2c2c2c2c2c2c2c2c2c2c2c2c2c2c2c2c2c2c2c2c2c2c2c2c2c2c2c2c2c2c","host":"abababababababababababababababababababababababababababababababab"}"#,
    ),
    (
        Say::Damaged(Word::FileRecord),
        r#"{"answer":"damaged","record":"ann.file.6e6f7465"}"#,
    ),
    (
        Say::Damaged(Word::Quoted),
        r#"{"answer":"damaged","record":"a\"b"}"#,
    ),
    (Say::Fault, r#"{"answer":"storage_fault"}"#),
    (Say::NoMemory, r#"{"answer":"no_memory"}"#),
    (Say::Unknown, r#"{"answer":"unknown_account"}"#),
];

// Whether this is the reply of the answer and of its copy.
fn both_have_reply(alloc: Global, answer: &Answer, reply: &str) -> Result<bool, NoMemory> {
    let copy = answer.copy()?;
    let same = is_reply(alloc, &copy, reply);
    drop(copy);
    Ok(same? && is_reply(alloc, answer, reply)?)
}

fn has_reply(alloc: Global, say: Say, reply: &str) -> Result<bool, NoMemory> {
    let answer = answer_of(alloc, say)?;
    let both = both_have_reply(alloc, &answer, reply);
    drop(answer);
    both
}

#[test]
fn each_answer_has_its_reply(rt: HostRuntime) -> Outcome {
    for (say, reply) in REPLIES {
        assert!(rt; has_reply(rt.alloc(), *say, reply)?, "{reply}");
    }
    Ok(())
}

const FAULTS: &[(LineFault, &str)] = &[
    (
        LineFault::TooLong,
        r#"{"answer":"bad_line","fault":"too_long"}"#,
    ),
    (
        LineFault::NotJson,
        r#"{"answer":"bad_line","fault":"not_json"}"#,
    ),
    (
        LineFault::UnknownOp,
        r#"{"answer":"bad_line","fault":"unknown_op"}"#,
    ),
    (
        LineFault::BadField(Field::Account),
        r#"{"answer":"bad_line","fault":"bad_field","field":"account"}"#,
    ),
    (
        LineFault::BadField(Field::Intent),
        r#"{"answer":"bad_line","fault":"bad_field","field":"intent"}"#,
    ),
    (
        LineFault::BadField(Field::Token),
        r#"{"answer":"bad_line","fault":"bad_field","field":"token"}"#,
    ),
    (
        LineFault::BadField(Field::Seconds),
        r#"{"answer":"bad_line","fault":"bad_field","field":"seconds"}"#,
    ),
    (
        LineFault::BadField(Field::Label),
        r#"{"answer":"bad_line","fault":"bad_field","field":"label"}"#,
    ),
    (
        LineFault::BadField(Field::Secret),
        r#"{"answer":"bad_line","fault":"bad_field","field":"secret"}"#,
    ),
    (
        LineFault::BadField(Field::Kind),
        r#"{"answer":"bad_line","fault":"bad_field","field":"kind"}"#,
    ),
    (
        LineFault::BadField(Field::Schedule),
        r#"{"answer":"bad_line","fault":"bad_field","field":"schedule"}"#,
    ),
    (
        LineFault::BadField(Field::Name),
        r#"{"answer":"bad_line","fault":"bad_field","field":"name"}"#,
    ),
    (
        LineFault::BadField(Field::Data),
        r#"{"answer":"bad_line","fault":"bad_field","field":"data"}"#,
    ),
    (LineFault::NoMemory, r#"{"answer":"no_memory"}"#),
];

// The reply to a line that isn't a request.
fn refused(alloc: Global, fault: LineFault) -> Result<Vec<u8>, AllocError> {
    let mut reply = Vec::with_capacity(alloc, 256)?;
    fault_text(&fault, &mut reply);
    Ok(reply)
}

#[test]
fn each_fault_of_a_line_has_its_reply(rt: HostRuntime) -> Outcome {
    for (fault, want) in FAULTS {
        let reply = refused(rt.alloc(), *fault)?;
        assert!(rt; reply.as_slice() == want.as_bytes(), "{want}");
    }
    Ok(())
}
