// The lines, put into a buffer one after the other. Once less than a longest line's room is left, the buffer is written out.
use arrayvec::ArrayString;
use refusal::Refusal;
use std::fmt::{Display, Write};

#[derive(Drop)]
pub(crate) struct Output {
    lines: ArrayString<65536>,
}

impl Output {
    pub(crate) fn new() -> Output {
        Output {
            lines: ArrayString::new(),
        }
    }

    pub(crate) fn flush(&mut self) {
        io::write_all(1, self.lines.as_str().as_bytes());
        self.lines.clear();
    }

    // A line. The longest have some 22,200 bytes, of a buffer of 65,536.
    pub(crate) fn line(&mut self, line: impl Display + Drop) {
        let _ = writeln!(self.lines, "{line}");
        if self.lines.as_str().len() >= 40000 {
            self.flush();
        }
    }

    pub(crate) fn refused(&mut self, why: Refusal) {
        self.line(format_args!("refused {}", why.number()));
    }
}
