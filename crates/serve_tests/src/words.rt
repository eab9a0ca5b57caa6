//! Command lines and what they ask.

use serve_words::{ServeOptions, UsageFault, serve_options};
use std::alloc::Global;
use std::test::Fail;

// The words of a command line, given with bars between them.
fn words_of(alloc: Global, text: &str) -> Result<Vec<String>, Fail> {
    let mut words = Vec::new(alloc);
    for word in text.split('|') {
        words.push(String::from_str(alloc, word)?)?;
    }
    Ok(words)
}

// The words, and then so many names that differ.
fn with_names(alloc: Global, text: &str, count: u32) -> Result<Vec<String>, Fail> {
    let mut words = words_of(alloc, text)?;
    for number in 0..count {
        words.push(format!(in alloc; "u{number}")?)?;
    }
    Ok(words)
}

// What is asked, with bars between its parts.
fn shown(alloc: Global, options: &ServeOptions) -> Result<String, Fail> {
    let mut text = format!(in alloc;
        "{}|{}|{}|{}",
        options.first_client(),
        options.client_count(),
        options.cost,
        options.dir.as_str()
    )?;
    for account in &options.accounts {
        text.push_str("|")?;
        text.push_str(account.as_str())?;
    }
    Ok(text)
}

#[test]
fn words_of_the_grammar_ask_what_they_say(rt: HostRuntime) -> Result<(), Fail> {
    let alloc = rt.alloc();
    for (text, want) in [
        ("serve|d", "0|1|14|d"),
        ("serve|d|ann", "0|1|14|d|ann"),
        ("serve|d|bob|ann|bob", "0|1|14|d|bob|ann"),
        ("serve|--clients|2|d|ann|bob", "1|2|14|d|ann|bob"),
        ("serve|--clients=16|--cost=16|d", "1|16|16|d"),
        (
            "serve|--cost|01|--clients|0000000000|a b|ann",
            "0|1|1|a b|ann",
        ),
        ("serve|--cost=9|--clients|1|=|0", "1|1|9|=|0"),
    ] {
        let words = words_of(alloc, text)?;
        match serve_options(alloc, &words) {
            Ok(options) => {
                let told = shown(alloc, &options)?;
                assert!(rt; told.as_str() == want, "{text} asks {told}");
            }
            Err(_) => panic!(rt; "{text} is refused"),
        }
    }
    Ok(())
}

#[test]
fn other_words_are_bad(rt: HostRuntime) -> Result<(), Fail> {
    let alloc = rt.alloc();
    for text in [
        "",
        "serve",
        "serve|",
        "serve||ann",
        "load|7",
        "serve|d|ANN",
        "serve|d|",
        "serve|d|-x",
        "serve|-d",
        "serve|--help",
        "serve|--clients",
        "serve|--clients|1",
        "serve|--clients||d",
        "serve|--clients=|d",
        "serve|--clients=x|d",
        "serve|--clients|+1|d",
        "serve|--clients|-1|d",
        "serve|--clients=1=1|d",
        "serve|--clients|00000000001|d",
        "serve|--clients|1|--clients|1|d",
        "serve|--cost|4|--clients=1|--cost=4|d",
        "serve|--cost|0|d",
        "serve|--cost|17|d",
        "serve|--cost|004|d",
        "serve|--Cost|4|d",
        "serve|--cost4|d",
        "serve|d|--cost|4",
        "--cost|4|serve|d",
    ] {
        let words = words_of(alloc, text)?;
        match serve_options(alloc, &words) {
            Err(fault) => assert_eq!(rt; fault, UsageFault::BadWords, "{text}"),
            Ok(_) => panic!(rt; "{text} is served"),
        }
    }
    assert!(rt; matches!(serve_options(alloc, &[]), Err(UsageFault::BadWords)));
    Ok(())
}

#[test]
fn too_many_accounts_or_clients_are_told_with_both_numbers(rt: HostRuntime) -> Result<(), Fail> {
    let alloc = rt.alloc();
    for (text, names, accounts, clients) in [
        ("serve|d", 65, 65, 0),
        ("serve|--clients|17|d", 1, 1, 17),
        ("serve|--clients=9999999999|d|u0", 65, 65, 9_999_999_999),
        ("serve|d|ann", 64, 65, 0),
    ] {
        let words = with_names(alloc, text, names)?;
        match serve_options(alloc, &words) {
            Err(fault) => {
                assert_eq!(rt; fault, UsageFault::TooMany { accounts, clients }, "{text}");
                assert_eq!(rt; fault.status(), 7);
            }
            Ok(_) => panic!(rt; "{text} is served"),
        }
    }
    let words = with_names(alloc, "serve|--clients|16|d|u0|u63", 64)?;
    match serve_options(alloc, &words) {
        Ok(options) => assert_eq!(rt; options.accounts.len(), 64),
        Err(_) => panic!(rt; "64 accounts are refused"),
    }
    Ok(())
}
