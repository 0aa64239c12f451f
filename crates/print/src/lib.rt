// A page: a buffer into which items are put one behind the other, from its start. What does not fit is left off. It lies in a lent buffer, and no call has a
// heap for a String; std's `write!` promises nothing of the text that it writes, and these methods say it.
#![tactic(auto)]

ghost use Rattle.std.specs.Prelude.{[], ◌∷◌, ◌++◌, ◌≡◌};
ghost use Rattle.lines.specs.Written.{decimal as decimal_of};
ghost use Rattle.print.specs.Page.{page};
ghost use Rattle.print.specs.Puts.{lent, stands_for, Puts};

// A buffer that is lent, and the place up to which it is written.
#[derive(Drop)]
pub struct Page<'a, T> {
    out: &'a mut [T],
    past: usize,
}

impl<'a, T: Copy> Page<'a, T> {
    // The empty page over a buffer.
    pub fn new(out: &'a mut [T]) -> Self
        ensures same_buffer { lent result ≡ out.entry.ghost_name }
        ensures empty { stands_for result ≡ page out.old 0 }
    {
        Page { out, past: 0 }
    }

    // The page over a buffer that is written up to a place already. Beyond the buffer's end nothing is put.
    pub fn written_up_to(out: &'a mut [T], past: usize) -> Self
        ensures same_buffer { lent result ≡ out.entry.ghost_name }
        ensures written { stands_for result ≡ page out.old past }
    {
        Page { out, past }
    }

    // The place just past what is written.
    pub fn past(&self) -> usize
        ensures { result ≡ (stands_for self.now).past }
    {
        self.past
    }

    // One item, where there is room for it.
    pub fn push(&mut self, item: T)
        ensures { Puts (item ∷ []) self.old self.new }
    {
        if self.past < self.out.len() {
            self.out[self.past] = item;
            self.past += 1;
        }
    }
}

impl Page<'_, u8> {
    // The bytes of a text, one behind the other.
    pub fn word(&mut self, text: &[u8])
        ensures { Puts text.now self.old self.new }
    {
        for byte in text {
            self.push(*byte);
        }
    }

    // The digits of a number: those of its tenth, and the last one.
    pub fn decimal(&mut self, number: usize)
        ensures { Puts (decimal_of number) self.old self.new }
    {
        if 10 <= number {
            self.decimal(number / 10);
        }
        self.push(b'0' + (number % 10) as u8);
    }

    // A name and the number right behind it.
    pub fn field(&mut self, name: &[u8], number: usize)
        ensures { Puts (name.now ++ decimal_of number) self.old self.new }
    {
        self.word(name);
        self.decimal(number);
    }
}
