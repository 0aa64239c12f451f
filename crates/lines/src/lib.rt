// Reads the lines of a replay. A line is `flow=F weight=W`, `arrive=F size=S` or `send=N`, and ends in a line feed.
// Each function tries its part of a line at a place of the input, and answers with what it read and the place just past it.
#![tactic(auto)]

ghost use Rattle.std.specs.Prelude.{◌≡◌};
ghost use Rattle.lines.specs.Number.{stands, digit_at, digits_from, most_digits, number_at};
ghost use Rattle.lines.specs.Line.{past_word, field_at, pair_at, event_at, line_at};

#[derive(Clone, Copy, Debug, PartialEq, Eq)]
pub enum Event {
    // A flow is opened: its number, its weight.
    Flow(usize, usize),
    // A packet arrives: its flow, its size.
    Arrive(usize, usize),
    // So many departures are asked for.
    Send(usize),
}

// What the digits from a place on say, and the place just past them.
#[derive(Clone, Copy)]
struct Digits {
    value: usize,
    past: usize,
}

// The largest number.
const LARGEST: usize = 65_535;

// The most digits that a number has.
const MOST_DIGITS: usize = 5;

// The line at a place: an event and a line feed, with the next line's place. None where the line is bad.
// Slice and place are two parameters here, since document 01 puts the struct of the two in the reader, which only calls this parser.
#[tactic(auto, unfolding(crate::specs::Line::line_at))]
pub fn line_at(input: &[u8], at: usize) -> Option<(Event, usize)>
    ensures { result ≡ line_at input.now at }
{
    let (event, past) = event_at(input, at)?;
    let next = past_word(input, past, b"\n")?;
    Some((event, next))
}

// The event at a place, with no word of what comes behind it: an event may be a part of a longer line.
#[tactic(auto, unfolding(crate::specs::Line::event_at))]
fn event_at(input: &[u8], at: usize) -> Option<(Event, usize)>
    ensures { result ≡ event_at input.now at }
{
    if let Some((flow, weight, past)) = pair_at(input, at, b"flow=", b" weight=") {
        return Some((Event::Flow(flow, weight), past));
    }
    if let Some((flow, size, past)) = pair_at(input, at, b"arrive=", b" size=") {
        return Some((Event::Arrive(flow, size), past));
    }
    let (count, past) = field_at(input, at, b"send=")?;
    Some((Event::Send(count), past))
}

// Two fields, one after the other.
#[tactic(auto, unfolding(crate::specs::Line::pair_at))]
fn pair_at(input: &[u8], at: usize, first: &[u8], second: &[u8]) -> Option<(usize, usize, usize)>
    ensures { result ≡ pair_at input.now at first.now second.now }
{
    let (a, between) = field_at(input, at, first)?;
    let (b, past) = field_at(input, between, second)?;
    Some((a, b, past))
}

// A word and the number right behind it.
#[tactic(auto, unfolding(crate::specs::Line::field_at))]
fn field_at(input: &[u8], at: usize, word: &[u8]) -> Option<(usize, usize)>
    ensures { result ≡ field_at input.now at word.now }
{
    let past = past_word(input, at, word)?;
    number_at(input, past)
}

// The place just past a word, which stands there byte by byte. `starts_with` on the rest of the input would find no empty word past its end, where the
// definition does.
#[tactic(auto, unfolding(crate::specs::Line::past_word, crate::specs::Number::stands))]
fn past_word(input: &[u8], at: usize, word: &[u8]) -> Option<usize>
    ensures { result ≡ past_word input.now at word.now }
{
    let mut past = at;
    for byte in word {
        if !stands(input, past, *byte) {
            return None;
        }
        past += 1;
    }
    Some(past)
}

// A number that begins with 0 is 0 itself: no line goes on with a digit behind it.
#[tactic(auto, unfolding(crate::specs::Number::number_at, crate::specs::Number::stands))]
fn number_at(input: &[u8], at: usize) -> Option<(usize, usize)>
    ensures { result ≡ number_at input.now at }
{
    if stands(input, at, b'0') {
        return Some((0, at + 1));
    }
    let Digits { value, past } = digits_at(input, at);
    if past == at || LARGEST < value {
        return None;
    }
    Some((value, past))
}

// The digits at a place: as many as stand there, and at most as many as a number may have. std's `parse` takes a sign and zeros in front, which no line may have.
fn digits_at(input: &[u8], at: usize) -> Digits
    ensures { result ≡ digits_from most_digits 0 input.now at }
{
    let mut value = 0;
    let mut past = at;
    for _ in 0..MOST_DIGITS {
        let Some((digit, next)) = digit_at(input, past) else {
            break;
        };
        value = value * 10 + digit;
        past = next;
    }
    Digits { value, past }
}

// One digit, as the number that it says.
#[tactic(auto, unfolding(crate::specs::Number::digit_at))]
fn digit_at(input: &[u8], at: usize) -> Option<(usize, usize)>
    ensures { result ≡ digit_at input.now at }
{
    match input.get(at) {
        Some(byte @ b'0'..=b'9') => Some((usize::from(byte - b'0'), at + 1)),
        _ => None,
    }
}

// Whether this byte stands at this place.
#[tactic(auto, unfolding(crate::specs::Number::stands))]
fn stands(input: &[u8], at: usize, byte: u8) -> bool
    ensures { result ≡ stands input.now at byte }
{
    input.get(at) == Some(&byte)
}
