// What the tests share.
use std::fmt::Debug;
use std::process::Abort;
use std::str;

// The value of an answer that has to have one.
pub(crate) fn got<T, E: Drop>(rt: &impl Abort, answer: Result<T, E>) -> T {
    match answer {
        Ok(value) => value,
        Err(_) => panic!(rt; "no value"),
    }
}

// The value that has to be there.
pub(crate) fn there<T>(rt: &impl Abort, value: Option<T>) -> T {
    match value {
        Some(value) => value,
        None => panic!(rt; "no value"),
    }
}

// Sees that two values are the same.
pub(crate) fn same<T: Copy + PartialEq + Debug>(rt: &impl Abort, found: T, want: T, name: &str) {
    assert_eq!(rt; found, want, "{name}");
}

// Bytes as text.
pub(crate) fn text_of<'a>(rt: &impl Abort, bytes: &'a [u8]) -> &'a str {
    got(rt, str::from_utf8(bytes))
}

// The lines that a text stands for, with a bar between each two.
pub(crate) fn lines_of<R: AllocGlobal + Abort>(rt: &R, text: &str) -> String {
    let mut lines = String::new(rt.alloc());
    for line in text.split('|') {
        got(rt, writeln!(lines, "{line}"));
    }
    lines
}

/// A step of a script: a line, an arrow, the status, and the text that is printed or, where it begins so, told. A bar stands between two lines of it.
#[derive(Drop)]
pub(crate) struct Step<'a> {
    pub(crate) line: &'a str,
    pub(crate) status: u8,
    pub(crate) printed: String,
    pub(crate) told: String,
}

impl<'a> Step<'a> {
    pub(crate) fn read<R: AllocGlobal + Abort>(rt: &R, text: &'a str) -> Step<'a> {
        let (line, answer) = there(rt, text.split_once(" -> "));
        let (status, text) = there(rt, answer.split_once(' '));
        let (lines, none) = (lines_of(rt, text), String::new(rt.alloc()));
        let (printed, told) = if text.starts_with("tznode: ") {
            (none, lines)
        } else {
            (lines, none)
        };
        Step {
            line,
            status: got(rt, status.parse()),
            printed,
            told,
        }
    }

    /// Sees an answer: the status, what is printed and what is told.
    pub(crate) fn expect(&self, rt: &impl Abort, answer: (u8, &[u8], &[u8])) {
        let (status, printed, told) = answer;
        let found = (status, text_of(rt, printed), text_of(rt, told));
        let want = (self.status, self.printed.as_str(), self.told.as_str());
        same(rt, found, want, self.line);
    }
}
