//! The lines of a listing, written to the front of a lent buffer. Each function answers their length.
ghost use Rattle.std.specs.Prelude.{◌≡◌};
ghost use Rattle.checks.specs.Answers.{number_of};
ghost use Rattle.text.specs.Writing.{FitsAt, WroteAt, Wrote};
ghost use Rattle.listing.specs.Listing.{seven_lines, refused_line};
ghost use Rattle.listing.specs.Writing.{Printable};

use checks::Refusal;
use summary::Summary;
use text::Page;

// The seven lines of a record that was accepted, on a page that is empty.
fn write_seven(page: &mut Page, letters: u16, pairs: &[u16], strict: &[u16], summary: Summary)
    requires room { Printable letters pairs.now strict.now summary page.old.out.now }
    requires empty { page.old.at ≡ 0 }
    ensures { Wrote (seven_lines letters pairs.now strict.now summary) page.old page.new }
{
    let bands = summary.bands;
    page.write_number_line(b"length", letters);
    page.write_number_line(b"pieces", summary.count);
    page.write_pairs_line(b"ends", pairs);
    page.write_list_line(b"strict", strict);
    page.write_number_line(b"longest", summary.longest);
    page.write_number_line(b"from", summary.from);
    page.write_list_line(b"bands", &bands);
}

// The seven lines at the front of `out`.
pub fn write_lines(
    letters: u16,
    pairs: &[u16],
    strict: &[u16],
    summary: Summary,
    out: &mut [u8],
) -> usize
    requires { Printable letters pairs.now strict.now summary out.old }
    ensures { WroteAt 0 (seven_lines letters pairs.now strict.now summary) out.old result out.new }
{
    let mut page = Page { out, at: 0 };
    write_seven(&mut page, letters, pairs, strict, summary);
    page.at
}

// The one line of a record that was refused.
pub fn write_refusal(refusal: Refusal, out: &mut [u8]) -> usize
    requires { FitsAt 0 (refused_line (number_of refusal)) out.old }
    ensures { WroteAt 0 (refused_line (number_of refusal)) out.old result out.new }
{
    let number = u8::from(refusal);
    let mut page = Page { out, at: 0 };
    page.write_number_line(b"refused", u16::from(number));
    page.at
}
