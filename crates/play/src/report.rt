// The lines that report what happens, each put on a page.
ghost use Rattle.model.specs.Replies.{number_of};
ghost use Rattle.play.specs.Story.{bad, refused, sent, idle};
ghost use Rattle.play.specs.Transcript.{reply_text, line_of};
ghost use Rattle.print.specs.Puts.{Puts};

use model::{Refusal, Sent};
use print::Page;

pub fn bad_line(page: &mut Page<'_, u8>, line: usize)
    ensures { Puts (line_of (bad line)) page.old page.new }
{
    page.field(b"bad=", line);
    page.push(b'\n');
}

pub fn refused_line(page: &mut Page<'_, u8>, refusal: Refusal, line: usize)
    ensures { Puts (line_of (refused (number_of refusal) line)) page.old page.new }
{
    page.field(b"refused=", usize::from(u8::from(refusal)));
    page.field(b" line=", line);
    page.push(b'\n');
}

pub fn idle_line(page: &mut Page<'_, u8>, departed: usize)
    ensures { Puts (line_of (idle departed)) page.old page.new }
{
    page.field(b"idle=", departed);
    page.push(b'\n');
}

pub fn sent_line(page: &mut Page<'_, u8>, number: usize, packet: Sent)
    ensures { Puts (line_of (sent number packet)) page.old page.new }
{
    page.field(b"sent=", number);
    reply(page, packet);
    page.push(b'\n');
}

// What the reply of a departure tells.
fn reply(page: &mut Page<'_, u8>, packet: Sent)
    ensures { Puts (reply_text packet) page.old page.new }
{
    page.field(b" flow=", packet.flow as usize);
    page.field(b" size=", packet.size as usize);
    page.field(b" mark=", packet.mark as usize);
    page.field(b" allow=", packet.allowance as usize);
}
