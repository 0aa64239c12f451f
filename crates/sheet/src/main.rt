// The share sheet: names of files, event lines and the replay's output in pairs, one pair for each site. Prints the sums over the sites whose output
// follows from their events, and a line for each site that is left out or ended in a bad line.
#![tactic(auto)]

ghost use Rattle.std.specs.Prelude.{◌*◌, ◌<◌, ◌≤◌, ◌≡◌, length, IfSome};
ghost use Rattle.intake.specs.Intake.{LieAtStart};
ghost use Rattle.week.specs.Reading.{Sound};
ghost use Rattle.week.specs.Week.{site_limit};
ghost use Rattle.print.specs.Page.{page, put};
ghost use Rattle.sheet_text.specs.Sheet.{sums_text, remark_limit};
ghost use Rattle.sheet.specs.Made.{JudgesASite, RemarksASite, MakesASheet};

use play::{INPUT_LIMIT, OUTPUT_LIMIT};
use print::Page;
use std::env::{Env, FillError};
use std::fs::File;
use std::io::{Print, Write};
use std::rt::Files;
use std::{io, str};
use week::{SITE_LIMIT, Verdict, Week};

// So many bytes hold any path.
const PATH_LIMIT: usize = 4_096;

// Room for the sums.
const SUMS: usize = 4_096;

// Room for a remark on every site: a name of 4,096 bytes, and what is said of it.
const REMARKS: usize = SITE_LIMIT * 4_352;

// Room for a site's files: one byte more than what counts, to find a file that is longer.
type Events = [u8; INPUT_LIMIT + 1];

type Output = [u8; OUTPUT_LIMIT + 1];

// The sums over all sites, and the place up to which the remarks are put: their page is gone with its loan of the buffer.
#[derive(Clone, Copy)]
struct Made {
    week: Week,
    past: usize,
}

fn main(rt: HostRuntime) {
    // the first argument is the program's own name
    let names = arguments::count(&rt).saturating_sub(1);
    if names == 0 {
        let _ = print!(rt; "sheet: no files named");
        return usage(&rt);
    }
    let sites = names / 2;
    if names % 2 == 1 {
        let _ = print!(rt; "sheet: an odd number of names, {names}");
        return usage(&rt);
    }
    if SITE_LIMIT < sites {
        let _ = print!(rt; "sheet: {sites} sites named, 64 at most");
        return usage(&rt);
    }
    sheet(&rt, sites);
}

// The end of a line that refuses.
fn usage<R: Print>(rt: &R) {
    let _ = print!(rt; "; name EVENTS OUTPUT for each site, 1 to 64 sites\n");
}

// The sheet of so many sites.
fn sheet<R: Env + Files + Print>(rt: &R, sites: usize)
    requires { sites ≤ site_limit }
{
    let mut remarks = [0u8; REMARKS];
    let mut events: Events = [0; INPUT_LIMIT + 1];
    let mut output: Output = [0; OUTPUT_LIMIT + 1];
    let made = judged_all(rt, sites, &mut remarks, &mut events, &mut output);
    let week = made.week;
    let past = made.past;
    let mut sums = [0u8; SUMS];
    let written = put_sums(&mut sums, week);
    let mut out = io::writer(rt);
    let _ = out.write_all(&sums[..written]);
    let _ = out.write_all(&remarks[..past]);
}

// The sums from the start of a buffer; tells how many bytes they are.
fn put_sums(out: &mut [u8], week: Week) -> usize
    ensures put { page out.new result ≡ put (page out.old 0) (sums_text week) }
    ensures within { result ≤ length out.new }
{
    let mut page = Page::new(out);
    sheet_text::sums(&mut page, week);
    page.past()
}

// So many sites, one after the other, with what is remarked of them. Two buffers are lent for their files.
fn judged_all<R: Env + Files>(
    rt: &R,
    sites: usize,
    remarks: &mut [u8],
    events: &mut Events,
    output: &mut Output,
) -> Made
    requires sites_le_site_limit { sites ≤ site_limit }
    requires remark_limit_in_bounds { site_limit * remark_limit ≤ length remarks.old }
    ensures { MakesASheet sites remarks.old remarks.new result }
{
    let mut page = Page::new(remarks);
    let mut week = Week::new();
    for before in 0..sites {
        let (next, verdict) = judge(rt, week, before, events, output);
        remark(rt, &mut page, before + 1, verdict);
        week = next;
    }
    Made {
        week,
        past: page.past(),
    }
}

// The site behind the first so many.
fn judge<R: Env + Files>(
    rt: &R,
    week: Week,
    before: usize,
    events: &mut Events,
    output: &mut Output,
) -> (Week, Verdict)
    requires sound { Sound week }
    requires sites_value { week.sites ≡ before }
    requires before_lt_site_limit { before < site_limit }
    ensures { JudgesASite week result }
{
    let Some(lines) = contents(rt, 2 * before + 1, events) else {
        return (week.with_unread(), Verdict::EventsUnread);
    };
    let Some(printed) = contents(rt, 2 * before + 2, output) else {
        return (week.with_unread(), Verdict::OutputUnread);
    };
    week.with_site(events, lines, output, printed)
}

// How many bytes the file has that an argument names, read into the buffer. `test_vectors` reads a file so too; a function for these three lines would be no
// plainer.
fn contents<R: Env + Files>(rt: &R, i: usize, buffer: &mut [u8]) -> Option<usize>
    ensures { IfSome result (λ n. LieAtStart n buffer.new) }
{
    let mut name = [0u8; PATH_LIMIT];
    let length = rt.arg(i, &mut name).ok()?;
    let path = str::from_utf8(&name[..length]).ok()?;
    let mut file = File::open(rt, path).ok()?;
    intake::whole(&mut file, buffer).ok()
}

// The remark on a site, with the name of its output. Of a name that is too long for any file, as much is shown as the buffer holds.
fn remark<R: Env>(rt: &R, page: &mut Page<'_, u8>, site: usize, verdict: Verdict)
    requires { site ≤ site_limit }
    ensures { RemarksASite site verdict page.old page.new }
{
    let mut name = [0u8; PATH_LIMIT];
    let length = match rt.arg(2 * site, &mut name) {
        Ok(length) => length,
        Err(FillError::TooLong) => PATH_LIMIT,
        Err(FillError::NotPresent) => 0,
    };
    sheet_text::remark(page, site, verdict, &name[..length]);
}
