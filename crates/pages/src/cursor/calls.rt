// Going through the lines of a page.
ghost use Rattle.std.specs.Prelude.{◌≡◌};
ghost use Rattle.pages.specs.Reading.{ReadsNext, ReadsEnd};

use crate::cursor::Cursor;
use crate::fault::Fault;
use layout::{Line, Reading, line_at};

impl<'p> Cursor<'p> {
    // The first line.
    pub fn start(page: &'p [u8]) -> Cursor<'p>
        ensures page { result.page.now ≡ page.now }
        ensures place { result.at ≡ 0 }
        ensures number { result.line ≡ 1 }
    {
        Cursor {
            page,
            at: 0,
            line: 1,
        }
    }

    // The number of the next line.
    pub fn line(&self) -> usize
        ensures { result ≡ self.now.line }
    {
        self.line
    }

    // Reads the next line, and goes on behind it.
    pub fn next_line(&mut self) -> Result<Line<'p>, Fault>
        ensures read { ReadsNext self.old.page.now self.old self.new result }
        ensures page { self.new.page.now ≡ self.old.page.now }
    {
        let Some(Reading { line, next }) = line_at(self.page, self.at) else {
            return Err(Fault::Layout { line: self.line });
        };
        *self = Cursor {
            page: self.page,
            at: next,
            line: self.line + 1,
        };
        Ok(line)
    }

    // Sees that no line follows.
    pub fn read_end(&self) -> Result<(), Fault>
        ensures { ReadsEnd self.now.page.now self.now result }
    {
        if self.at < self.page.len() {
            Err(Fault::Layout { line: self.line })
        } else {
            Ok(())
        }
    }
}
