// A reader keeps the input and its place in it, and gives one event at a time. These are thin; the work is done by `lines::line_at`.
#![tactic(auto)]

ghost use Rattle.std.specs.Prelude.{◌≡◌, length, leb};
ghost use Rattle.lines.specs.Line.{line_at};
ghost use Rattle.reader.specs.Reader.{next_of};

use lines::Event;

#[derive(Clone, Copy, Debug)]
pub struct Reader<'a> {
    pub input: &'a [u8],
    pub at: usize,
}

impl<'a> Reader<'a> {
    // A reader at the beginning of the input.
    pub fn new(input: &'a [u8]) -> Reader<'a>
        ensures { result ≡ record { input = input.entry; at = 0 } }
    {
        Reader { input, at: 0 }
    }

    // The same input, at another place.
    pub fn moved(self, at: usize) -> Reader<'a>
        ensures { result ≡ record { input = self.entry.input; at = at } }
    {
        Reader { at, ..self }
    }

    // Whether no line is left.
    pub fn is_at_end(self) -> bool
        ensures { result ≡ leb (length self.entry.input.now) self.entry.at }
    {
        self.input.len() <= self.at
    }

    // The line at the reader's place: its event, and the next line's place. None where it is bad.
    pub fn read(self) -> Option<(Event, usize)>
        ensures { result ≡ line_at self.entry.input.now self.entry.at }
    {
        lines::line_at(self.input, self.at)
    }

    // The event of the line at the reader's place, which moves on to the next line. None where the line is bad, and there the reader stays.
    // This makes no `Iterator`: after a bad line the input need not be at its end.
    pub fn next(&mut self) -> Option<Event>
        ensures { (result, self.new) ≡ next_of self.old }
    {
        let (event, next) = self.read()?;
        *self = self.moved(next);
        Some(event)
    }
}
