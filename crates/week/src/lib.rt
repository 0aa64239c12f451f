// A week of sites: each site's output is held to what the replay of its events prints, and the departures of the sites that follow are summed.
#![tactic(auto)]

ghost use Rattle.std.specs.Prelude.{◌<◌, ◌≤◌, List, [], ◌≡◌, length};
ghost use Rattle.play.specs.Transcript.{input_limit, output_limit};
ghost use Rattle.week.specs.Site.{Site, files, followed};
ghost use Rattle.week.specs.Week.{site_limit, week_of};
ghost use Rattle.week.specs.Reading.{Sound, GivesUnread, GivesSite, judged_as};

use play::{BadLine, LOG_LIMIT, OUTPUT_LIMIT};
use shares::Shares;

mod compare;

// A sheet is over at most 64 sites.
pub const SITE_LIMIT: usize = 64;

// What is said of a site: its output follows from its events, to their end or to a bad line; it differs, from a line on; or a file cannot be read.
#[derive(Clone, Copy)]
pub enum Verdict {
    Follows,
    Ended(usize),
    Differs(usize),
    EventsUnread,
    OutputUnread,
}

// The sums over the sites so far, how many of them are in the sums, and how many there are. It keeps no invariant: `with_unread` takes any week that has room
// for a site, and may not ask more.
#[derive(Clone, Copy)]
pub struct Week {
    pub shares: Shares,
    pub summed: usize,
    pub sites: usize,
}

// What is said of a site that follows: its replay may have ended in a bad line.
impl From<Result<(), BadLine>> for Verdict {
    ghost from_gives = { λ ending verdict. verdict ≡ followed ending };

    fn from(ending: Result<(), BadLine>) -> Self {
        match ending {
            Ok(()) => Verdict::Follows,
            Err(BadLine(line)) => Verdict::Ended(line),
        }
    }
}

impl Week {
    pub fn new() -> Self
        ensures { result ≡ week_of [] }
    {
        Week {
            shares: Shares::new(),
            summed: 0,
            sites: 0,
        }
    }

    // One site more, of which a file cannot be read.
    pub fn with_unread(self) -> Self
        requires { self.sites < site_limit }
        ensures { GivesUnread self result }
    {
        Week {
            sites: self.sites + 1,
            ..self
        }
    }

    // One site more. The buffers begin with what was read of its files, so many bytes; each is longer than any file that counts. They come whole, with
    // a length beside, since the contract (`GivesSite`) is about the whole files: a buffer's own length says that nothing that counts was cut off.
    pub fn with_site(
        self,
        events: &[u8],
        events_read: usize,
        output: &[u8],
        output_read: usize,
    ) -> (Self, Verdict)
        requires sound { Sound self }
        requires sites_lt_site_limit { self.sites < site_limit }
        requires input_limit_in_bounds { input_limit < length events.now }
        requires output_limit_in_bounds { output_limit < length output.now }
        requires events_read_in_bounds { events_read ≤ length events.now }
        requires output_read_in_bounds { output_read ≤ length output.now }
        ensures { GivesSite self events.now events_read output.now output_read result }
    {
        self.judged(&events[..events_read], &output[..output_read])
    }

    // One site more, of these events and this output.
    fn judged(self, events: &[u8], output: &[u8]) -> (Self, Verdict)
        requires sound { Sound self }
        requires sites_lt_site_limit { self.sites < site_limit }
        ensures { (sites : List Site) → self ≡ week_of sites → result ≡ judged_as sites (files events.now output.now) }
    {
        let mut transcript = [0; OUTPUT_LIMIT];
        let mut log = [0; LOG_LIMIT];
        let told = play::tell(events, &mut transcript, &mut log);
        let transcript = &transcript[..told.written];
        let sites = self.sites + 1;
        if check::same(output, transcript) {
            let shares = self.shares.with(&log[..told.noted]);
            let summed = self.summed + 1;
            let week = Week {
                shares,
                summed,
                sites,
            };
            return (week, told.ending.into());
        }
        let line = compare::first_difference(output, transcript);
        (Week { sites, ..self }, Verdict::Differs(line))
    }
}
