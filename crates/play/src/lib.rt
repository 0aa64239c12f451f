// The replay of an input: each line's event is given to the scheduler, and what is reported of it is printed into a buffer.
#![tactic(auto)]

ghost use Rattle.std.specs.Prelude.{◌≡◌, ◌+◌, ◌≤◌, ◌<◌, ◌^◌, length};
ghost use Rattle.order.specs.Encoding.{view as scheduler_of, Sound};
ghost use Rattle.play.specs.Course.{asked, desk, reported, Goes, Tells};
ghost use Rattle.play.specs.Log.{ending_of};
ghost use Rattle.print.specs.Page.{Printed, PrintedWhole};
ghost use Rattle.print.specs.Puts.{Puts};
ghost use Rattle.play.specs.Story.{Replay, refusal, sending, happening};
ghost use Rattle.play.specs.Transcript.{input_limit, output_limit, text_of, reports, transcript};

use lines::Event;
use model::{Outcome, Refusal, Reply};
use order::State;
use print::Page;
use reader::Reader;
use std::marker::Model;

mod log;
mod report;

// An input has at most 65,536 bytes.
pub const INPUT_LIMIT: usize = 65_536;
// A buffer of so many bytes has room for the transcript of any input.
pub const OUTPUT_LIMIT: usize = 4 * INPUT_LIMIT;
// A log of so many numbers has room for the departures of any input.
pub const LOG_LIMIT: usize = INPUT_LIMIT / 8;

// A line that is no event, by its number; 0 where the input is too long.
#[derive(Clone, Copy, Debug, PartialEq, Eq)]
pub struct BadLine(pub usize);

// What a replay gives beside what it put into its buffers: how many bytes it printed, how many numbers it noted, and how it ended: at the end of its input,
// or in a bad line. The two places are told, as their pages are gone with their loans of the buffers.
#[derive(Clone, Copy)]
pub struct Told {
    pub written: usize,
    pub noted: usize,
    pub ending: Result<(), BadLine>,
}

// How far a replay has come: the scheduler and the departures so far.
#[derive(Drop)]
struct Course {
    state: State,
    sent: usize,
}

// Contracts see the replay that it stands for. That its state is sound is said here too, as a proof sees State's own invariant only where State's fields
// are in sight.
impl Model for Course {
    ghost Value = { Replay };

    ghost view = { λ c. record { scheduler = scheduler_of c.state; departed = c.sent } };

    ghost invariant = { λ c. Sound c.state };
}

// The replay of an input, printed into a buffer from its start; answers with the number of bytes.
pub fn play(input: &[u8], out: &mut [u8]) -> usize
    ensures { Printed (transcript input.now) out.old out.new result }
{
    let mut unread = [0u16; 1];
    let told = tell(input, out, &mut unread);
    told.written
}

// The same, into a buffer with room for any transcript: nothing is left off.
pub fn transcribe(input: &[u8], out: &mut [u8]) -> usize
    requires { output_limit ≤ length out.old }
    ensures { PrintedWhole (transcript input.now) out.old out.new result }
{
    play(input, out)
}

// The replay of an input, printed into a buffer from its start, its departures noted in a log from its start.
pub fn tell(input: &[u8], out: &mut [u8], log: &mut [u16]) -> Told
    ensures { Tells input.now out.old log.old result out.new log.new }
{
    let mut page = Page::new(out);
    let mut notes = Page::new(log);
    if INPUT_LIMIT < input.len() {
        report::bad_line(&mut page, 0);
        return Told {
            written: page.past(),
            noted: 0,
            ending: Err(BadLine(0)),
        };
    }
    let ending = replay(input, &mut page, &mut notes);
    Told {
        written: page.past(),
        noted: notes.past(),
        ending,
    }
}

// The replay of an input that is not too long, line by line.
fn replay(input: &[u8], page: &mut Page<'_, u8>, log: &mut Page<'_, u16>) -> Result<(), BadLine>
    requires { length input.now ≤ input_limit }
    ensures noted_after { desk page.new log.new ≡ reported (desk page.old log.old) (reports input.now) }
    ensures ending_value { result ≡ ending_of input.now }
{
    let mut course = Course {
        state: State::new(),
        sent: 0,
    };
    let mut reader = Reader::new(input);
    // The input ends long before the numbers do.
    for line in 1.. {
        if reader.is_at_end() {
            break;
        }
        let Some(event) = reader.next() else {
            report::bad_line(page, line);
            return Err(BadLine(line));
        };
        run(&mut course, page, log, event, line);
    }
    Ok(())
}

// One event, on the line with this number.
fn run(
    course: &mut Course,
    page: &mut Page<'_, u8>,
    log: &mut Page<'_, u16>,
    event: Event,
    line: usize,
)
    requires { course.old.departed + asked event < 2 ^ 64 }
    ensures { Goes page.old log.old (happening course.old line event) course.new page.new log.new }
{
    match event {
        Event::Flow(flow, weight) => {
            let Outcome { state, reply } = course.state.open(flow, weight);
            course.state = state;
            answer_line(page, reply, line);
        }
        Event::Arrive(flow, size) => {
            let Outcome { state, reply } = course.state.offer(flow, size);
            course.state = state;
            answer_line(page, reply, line);
        }
        Event::Send(count) => send(course, page, log, count),
    }
}

// The line of an answer: only a refusal has one.
fn answer_line<T: Copy>(page: &mut Page<'_, u8>, answer: Result<T, Refusal>, line: usize)
    ensures { Puts (text_of (refusal answer line)) page.old page.new }
{
    if let Err(refusal) = answer {
        report::refused_line(page, refusal, line);
    }
}

// Up to so many departures, ending at the first idle.
fn send(course: &mut Course, page: &mut Page<'_, u8>, log: &mut Page<'_, u16>, count: usize)
    requires { course.old.departed + count < 2 ^ 64 }
    ensures { Goes page.old log.old (sending course.old count) course.new page.new log.new }
{
    for _ in 0..count {
        let Outcome { state, reply } = course.state.depart();
        course.state = state;
        let Reply::Departure(packet) = reply.reply else {
            report::idle_line(page, course.sent);
            return;
        };
        course.sent += 1;
        report::sent_line(page, course.sent, packet);
        log::note(log, packet);
    }
}
