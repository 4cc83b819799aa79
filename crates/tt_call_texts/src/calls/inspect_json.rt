//! The call `inspect_json`.

ghost use Rattle.std.specs.Prelude.{◌≡◌, IfOk, IfErr, MatchOption, None, Some};
ghost use Rattle.tt_call_texts.specs.Inspected.{IsInspected};
ghost use Rattle.tt_call_answers.specs.declared.fault.AppFault.TheVariants as fault;

use crate::calls::inspect::inspect;
use crate::lines::line_of;
use serde_json::{Value, json};
use std::alloc::{AllocError, Global};
use tt_call_answers::{Answer, AppFault};

/// How a line of each kind begins, and the kind.
const FRONTS: [(&str, &str); 3] = [
    ("can't be: ", "impossible"),
    ("look at: ", "remark"),
    ("likely: ", "advice"),
];

/// How a line of a cost that can't be avoided begins.
const COST: &str = "costs ";

/// Returns the kind of a line, and its text without the words that give the kind.
fn split_kind(line: &str) -> (&str, &str) {
    for (front, kind) in FRONTS {
        if let Some(text) = line.strip_prefix(front) {
            return (kind, text);
        }
    }
    let kind = if line.starts_with(COST) {
        "cost"
    } else {
        "text"
    };
    (kind, line)
}

/// Returns the object of a line.
fn line_value(alloc: Global, line: &str) -> Result<Value, AllocError> {
    let (kind, text) = split_kind(line);
    json!(in alloc; {"kind": kind, "text": text})
}

/// Returns the object of a status and of the lines of a text.
fn inspected_value(alloc: Global, status: u8, text: &str) -> Result<Value, AllocError> {
    let mut lines = Vec::new(alloc);
    for line in text.lines() {
        lines.push(line_value(alloc, line)?)?;
    }
    let lines = Value::Array(lines);
    json!(in alloc; {"status": status, "lines": &lines})
}

/// Returns the description of an instance, and of a solution of it if one is given, as a line of JSON: the status, and each line of `inspect`
/// with its kind. The words have no contract.
pub fn inspect_json(
    alloc: Global,
    instance: &[u8],
    solution: Option<&[u8]>,
) -> Result<Answer, AppFault>
    // The status is that of `inspect`.
    ensures status { IfOk result (λ a. MatchOption solution.entry
        (IsInspected instance.now None a) (λ s. IsInspected instance.now (Some s.now) a)) }
    // The only refusal is being out of memory.
    ensures memory { IfErr result (λ f. f ≡ fault.OutOfMemory) }
{
    let answer = inspect(alloc, instance, solution)?;
    let text = String::from_utf8_lossy(alloc, &answer.out)?;
    let value = inspected_value(alloc, answer.status, &text)?;
    Ok(Answer {
        status: answer.status,
        out: line_of(alloc, &value)?,
        table: None,
        proof: None,
    })
}
