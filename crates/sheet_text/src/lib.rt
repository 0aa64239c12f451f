// The text of a share sheet, put on a page.
#![tactic(auto)]

ghost use Rattle.std.specs.Prelude.{◌++◌, map, ◌≡◌};
ghost use Rattle.lines.specs.Text.{bytes};
ghost use Rattle.lines.specs.Written.{decimal, field as field_text};
ghost use Rattle.print.specs.Puts.{Puts};
ghost use Rattle.sheet_text.specs.Sheet.{share_text, flow_lines, sums_text, shown as shown_as, name_text, remark_text};

use model::FLOW_LIMIT;
use print::Page;
use shares::Share;
use week::{Verdict, Week};

// The sums of a week.
pub fn sums(page: &mut Page<'_, u8>, week: Week)
    ensures { Puts (sums_text week) page.old page.new }
{
    let shares = week.shares;
    flow_lines(page, shares.flows);
    page.field(b"flows=", FLOW_LIMIT);
    share(page, shares.total);
    page.field(b"sites=", week.summed);
    page.field(b" of=", week.sites);
    page.push(b'\n');
}

fn flow_lines(page: &mut Page<'_, u8>, flows: [Share; FLOW_LIMIT])
    ensures { Puts (flow_lines 0 flows) page.old page.new }
{
    for (flow, sent) in flows.iter().enumerate() {
        page.field(b"flow=", flow);
        share(page, *sent);
    }
}

fn share(page: &mut Page<'_, u8>, sent: Share)
    ensures { Puts (share_text sent) page.old page.new }
{
    page.field(b" packets=", sent.packets);
    page.field(b" bytes=", sent.bytes);
    page.field(b" largest=", sent.largest);
    page.push(b'\n');
}

// The line of a site that is left out, or that ended in a bad line, with the name of its output's file. The last two cases differ in a word; a function for
// them would be no plainer.
pub fn remark(page: &mut Page<'_, u8>, site: usize, verdict: Verdict, name: &[u8])
    ensures { Puts (remark_text site verdict name.now) page.old page.new }
{
    match verdict {
        Verdict::Follows => {}
        Verdict::Ended(line) => {
            site_line(page, site, b" summed=yes bad=", line);
            named(page, name);
        }
        Verdict::Differs(line) => {
            site_line(page, site, b" summed=no differs=", line);
            named(page, name);
        }
        Verdict::EventsUnread => {
            page.field(b"site=", site);
            page.word(b" summed=no unread=events");
            named(page, name);
        }
        Verdict::OutputUnread => {
            page.field(b"site=", site);
            page.word(b" summed=no unread=output");
            named(page, name);
        }
    }
}

// A site's number, and what is said of it, with a line's number.
fn site_line(page: &mut Page<'_, u8>, site: usize, what: &[u8], line: usize)
    ensures { Puts (field_text "site=" site ++ (what.now ++ decimal line)) page.old page.new }
{
    page.field(b"site=", site);
    page.field(what, line);
}

// A file's name, to the end of its line.
fn named(page: &mut Page<'_, u8>, name: &[u8])
    ensures { Puts (name_text name.now) page.old page.new }
{
    page.word(b" output=");
    shown_name(page, name);
    page.push(b'\n');
}

fn shown_name(page: &mut Page<'_, u8>, name: &[u8])
    ensures { Puts (map shown_as name.now) page.old page.new }
{
    for byte in name {
        page.push(shown(*byte));
    }
}

// A byte of a name, a control byte as a question mark.
fn shown(b: u8) -> u8
    ensures { result ≡ shown_as b }
{
    if b.is_ascii_control() { b'?' } else { b }
}
