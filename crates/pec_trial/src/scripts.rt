//! Scripts: lines of a call and the answer that has to come.

use std::alloc::{AllocError, Global};
use std::test::Fail;

/// What is asked by lines, and answers in words.
pub trait Answers {
    /// What a call comes to.
    fn answer(&mut self, call: &str) -> Result<Vec<u8>, Fail>;
}

/// The first line of a script that isn't answered as it says, and what came. A line is `CALL -> ANSWER`, or empty.
pub fn first_wrong<A: Answers>(
    alloc: Global,
    asked: &mut A,
    script: &str,
) -> Result<Option<String>, Fail> {
    for line in script.split('\n') {
        let wrong = wrong_at(alloc, asked, line)?;
        if wrong.is_some() {
            return Ok(wrong);
        }
    }
    Ok(None)
}

fn wrong_at<A: Answers>(alloc: Global, asked: &mut A, line: &str) -> Result<Option<String>, Fail> {
    if line.is_empty() {
        return Ok(None);
    }
    let Some((call, answer)) = line.split_once(" -> ") else {
        return Err("a line without an answer".into());
    };
    let came = asked.answer(call)?;
    if came.as_slice() == answer.as_bytes() {
        return Ok(None);
    }
    Ok(Some(told(alloc, line, &came)?))
}

/// A line that isn't answered as it says, and what came.
fn told(alloc: Global, line: &str, came: &[u8]) -> Result<String, AllocError> {
    let mut text = String::from_str(alloc, line)?;
    text.push_str(" BUT ")?;
    for b in came {
        text.push(char::from(*b))?;
    }
    Ok(text)
}
