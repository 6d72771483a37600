//! A command that is read, and words that ask for none.

use crate::{Command, Schedule, WordsError, read_words};
use std::test::Fail;

/// The words of a line, with one blank between each two.
fn words_of(rt: &HostRuntime, line: &str) -> Result<Vec<String>, Fail> {
    let mut words = Vec::new(rt.alloc());
    for word in line.split(' ') {
        words.push(String::from_str(rt.alloc(), word)?)?;
    }
    Ok(words)
}

#[test]
fn reads_a_schedule(rt: HostRuntime) -> Result<(), Fail> {
    let words = words_of(&rt, "prove --schedule=5,6 -- -x")?;
    let schedule = match read_words(rt.alloc(), words.as_slice()) {
        Ok(Command::Prove(asked)) => asked.schedule,
        _ => None,
    };
    assert_eq!(rt; schedule, Some(Schedule { seed: 5, turns: 6 }));
    Ok(())
}

#[test]
fn no_words_ask_for_nothing(rt: HostRuntime) {
    let none: [String; 0] = [];
    assert_eq!(rt;
        read_words(rt.alloc(), &none).err(),
        Some(WordsError::Usage)
    );
}
